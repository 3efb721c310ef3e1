//! What stands where a call names something.
use fk_model::limits::{LAST_USER_SLOT, OWN_SPACE};
use fk_model::{Stage, Who};
use fk_store::Store;
use lens_text::{Sheet, place_named, push_between, push_held_there};

/// The space of a thread that makes a call, and where it is told what that names.
#[derive(Clone, Copy)]
pub struct Caller<'a> {
    pub sheet: &'a Sheet,
    pub store: &'a Store,
    pub space: u32,
}

impl Caller<'_> {
    /// Adds what stands in a slot of a space that an argument names.
    fn push<const N: usize>(self, name: &[u8; N], space: u32, slot: u64) {
        let (sheet, store) = (self.sheet, self.store);
        sheet.put(b"; ");
        sheet.put(name);
        sheet.fill(b"=@", slot, 0, 0);
        if slot > LAST_USER_SLOT {
            return sheet.put(b" is no slot that a thread names");
        }
        let who = Who {
            space,
            slot: slot as u8,
        };
        push_between(sheet, store, b", ", who, b", is ");
        push_held_there(sheet, store, store.at(who));
    }

    /// Adds what stands where an argument leads that names a slot of the caller's space, or that space itself.
    fn own<const N: usize>(self, name: &[u8; N], slot: u64) {
        if slot == OWN_SPACE {
            self.sheet.put(b"; ");
            self.sheet.put(name);
            self.sheet.fill(b"=@ is the caller's own space", slot, 0, 0);
        } else {
            self.push(name, self.space, slot);
        }
    }

    /// Adds what stands where an argument leads that names a slot of a place, which another argument names.
    fn within<const N: usize>(self, name: &[u8; N], place: u64, slot: u64) {
        if let Some(space) = place_named(self.store, self.space, place) {
            self.push(name, space, slot);
        }
    }

    /// Adds what stands where each argument of a stage leads that names a slot, in their order.
    pub fn push_all(self, stage: &Stage) {
        match *stage {
            Stage::Create { s, x, .. }
            | Stage::Destroy { s, x }
            | Stage::Clear { s, x }
            | Stage::GetState { s, x, .. }
            | Stage::SetState { s, x, .. }
            | Stage::SpaceHold { s, x }
            | Stage::SpaceRelease { s, x } => {
                self.own(b"s", s);
                self.within(b"x", s, x);
            }
            Stage::Rename { s, x, y } => {
                self.own(b"s", s);
                self.within(b"x", s, x);
                self.within(b"y", s, y);
            }
            Stage::Point { s, x, s2, x2 } => {
                self.own(b"s", s);
                self.within(b"x", s, x);
                self.own(b"s2", s2);
                self.within(b"x2", s2, x2);
            }
            Stage::GetPtr {
                s,
                x,
                reference,
                ..
            }
            | Stage::SetPtr {
                s,
                x,
                reference,
                ..
            } => {
                self.own(b"s", s);
                self.within(b"x", s, x);
                self.own(b"reference", reference);
            }
            _ => self.push_alone(stage),
        }
    }

    /// Adds what stands where each argument of a stage leads that names slots of the caller's space alone.
    fn push_alone(self, stage: &Stage) {
        match *stage {
            Stage::Locate { reference, s } => {
                self.own(b"reference", reference);
                self.own(b"s", s);
            }
            Stage::Search { s, .. }
            | Stage::PageGive { s, .. }
            | Stage::PageTake { s, .. }
            | Stage::PageRead { s, .. }
            | Stage::PageNext { s, .. } => self.own(b"s", s),
            Stage::ThreadStop { h } | Stage::ThreadGo { h } | Stage::Connect { h } => {
                self.own(b"h", h);
            }
            Stage::MutexLock { m } | Stage::MutexTrylock { m } | Stage::MutexUnlock { m } => {
                self.own(b"m", m);
            }
            Stage::CondWait { c, m } | Stage::CondAsleep { c, m } => {
                self.own(b"c", c);
                self.own(b"m", m);
            }
            Stage::CondSignal { c } | Stage::CondBroadcast { c } => self.own(b"c", c),
            Stage::Wait { set } => self.own(b"set", set),
            Stage::ClientOverRef { reference }
            | Stage::ServerOverRef { reference }
            | Stage::ClientReceiveRef { reference, .. }
            | Stage::ServerReceiveRef { reference, .. } => self.own(b"reference", reference),
            _ => {}
        }
    }
}
