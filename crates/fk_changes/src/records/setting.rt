//! Which records an object takes, and setting one.
ghost use Rattle.std.specs.Prelude.{◌≡◌, ◌≤◌, ◌&&◌, ◌==◌, ◌∷◌, [], nat_le, nat_lt, true, false, IfSome, IfNone, length, map};
ghost use Rattle.fk_model.specs.declared.limits.TheConstants.{MOST_STOPS, PAGES};
ghost use Rattle.fk_model.specs.Records as definition;
ghost use Rattle.fk_model.specs.Records.{word, is_flag};
ghost use Rattle.fk_model.specs.Valid.{kind_there};
ghost use Rattle.fk_model.specs.World.{apply_all};
ghost use Rattle.fk_model.specs.World.Change.{Alter};
ghost use Rattle.fk_model.specs.World.Edit.{SetLocked, SetWindow, SetExtent, SetMember, Proceed, SetStops};
ghost use Rattle.fk_store.specs.Store.Bodies.{body_by, mode_by};
ghost use Rattle.fk_store.specs.Store.Paths.{path, place};
ghost use Rattle.fk_store.specs.Store.WellFormed.{HasCall};
ghost use Rattle.fk_store.specs.Store.World.{world};
ghost use Rattle.fk_changes.specs.Records.Settings.{edits_of, sets_at, IsSetting};

use crate::readers::kind_number;
use fk_model::limits::{MOST_STOPS, PAGES, SLOTS};
use fk_model::{Body, Mode, Who};
use fk_stages::todo;
use fk_store::Store;

/// What a record sets.
#[derive(Clone, Copy)]
enum Setting {
    Nothing,
    Locked(bool),
    Window {
        first: u8,
        count: u16,
        offset: u8,
        write: bool,
    },
    Extent {
        first: u8,
        count: u16,
        write: bool,
    },
    Member(Option<u8>),
    State {
        registers: [u64; 16],
        counter: u64,
        mode: Mode,
        stops: u16,
    },
}

/// Pages that a mapping or a region can have.
fn page_range(first: u64, count: u64) -> Option<(u8, u16)>
    ensures some { IfSome result (λ range. (definition.is_page_range first count ≡ true) × (range.0 ≡ first) × (range.1 ≡ count)) }
    ensures none { IfNone result (definition.is_page_range first count ≡ false) }
{
    if count < 1 || count > PAGES || first > PAGES - count {
        return None;
    }
    Some((first as u8, count as u16))
}

/// What a record of a mapping sets.
fn window_of(words: &[u64]) -> Option<Setting>
    requires { 32 ≤ length words.now }
    ensures some { IfSome result (λ s. ((definition.is_page_range (word words.now 1) (word words.now 2)
        && nat_lt (word words.now 3) PAGES && is_flag (word words.now 4)) ≡ true) × IsSetting s
        × (edits_of s ≡ SetWindow (word words.now 1) (word words.now 2) (word words.now 3) (word words.now 4 == 1) ∷ [])) }
    ensures none { IfNone result ((definition.is_page_range (word words.now 1) (word words.now 2)
        && nat_lt (word words.now 3) PAGES && is_flag (word words.now 4)) ≡ false) }
{
    let (first, count) = page_range(words[1], words[2])?;
    if words[3] >= PAGES || words[4] > 1 {
        return None;
    }
    Some(Setting::Window {
        first,
        count,
        offset: words[3] as u8,
        write: words[4] == 1,
    })
}

/// What a record of a region sets.
fn extent_of(words: &[u64]) -> Option<Setting>
    requires { 32 ≤ length words.now }
    ensures some { IfSome result (λ s. ((definition.is_page_range (word words.now 1) (word words.now 2) && is_flag (word words.now 3)) ≡ true) × IsSetting s
        × (edits_of s ≡ SetExtent (word words.now 1) (word words.now 2) (word words.now 3 == 1) ∷ [])) }
    ensures none { IfNone result ((definition.is_page_range (word words.now 1) (word words.now 2) && is_flag (word words.now 3)) ≡ false) }
{
    let (first, count) = page_range(words[1], words[2])?;
    if words[3] > 1 {
        return None;
    }
    Some(Setting::Extent {
        first,
        count,
        write: words[3] == 1,
    })
}

/// What a record of a port in a space sets: no set, or one of the space; the former alone where the
/// port is served.
fn member_of(store: &Store, space: u32, served: bool, n: u64) -> Option<Setting>
    ensures some { IfSome result (λ s. (definition.is_member_word (world store.now) (path store.now space) served n ≡ true) × IsSetting s
        × (edits_of s ≡ SetMember (definition.member_by n) ∷ [])) }
    ensures none { IfNone result (definition.is_member_word (world store.now) (path store.now space) served n ≡ false) }
{
    if n == 0 {
        return Some(Setting::Member(None));
    }
    if served || n > SLOTS {
        return None;
    }
    let slot = (n - 1) as u8;
    match store.at(Who { space, slot }) {
        Some(Body::Portset) => Some(Setting::Member(Some(slot))),
        _ => None,
    }
}

/// A mode, by its number, and a code that goes with it.
fn mode_of(registers: &[u64; 16], n: u64, code: u64) -> Option<Mode>
    ensures some { IfSome result (λ mode. (definition.is_mode registers.now n code ≡ true)
        × (definition.mode_of_record n registers.now code ≡ mode_by mode registers.now) × HasCall mode registers.now) }
    ensures none { IfNone result (definition.is_mode registers.now n code ≡ false) }
{
    if n == 2 && code <= 255 {
        return Some(Mode::Halted(code as u8));
    }
    if code != 0 {
        return None;
    }
    match n {
        0 => Some(Mode::Running),
        1 if todo(registers).is_some() => Some(Mode::Calling),
        _ => None,
    }
}

/// What a record of a thread sets.
fn state_of(words: &[u64]) -> Option<Setting>
    requires { 32 ≤ length words.now }
    ensures some { IfSome result (λ s.
        ((definition.is_mode (definition.record_registers words.now) (word words.now 18) (word words.now 19) && nat_le (word words.now 20) MOST_STOPS) ≡ true)
        × IsSetting s
        × (edits_of s ≡ Proceed (definition.mode_of_record (word words.now 18) (definition.record_registers words.now) (word words.now 19))
        (word words.now 17) ∷ SetStops (word words.now 20) ∷ [])) }
    ensures none { IfNone result
        ((definition.is_mode (definition.record_registers words.now) (word words.now 18) (word words.now 19) && nat_le (word words.now 20) MOST_STOPS) ≡ false) }
{
    let mut registers = [0; 16];
    registers.copy_from_slice(&words[1..17]);
    let mode = mode_of(&registers, words[18], words[19])?;
    if words[20] > MOST_STOPS {
        return None;
    }
    Some(Setting::State {
        registers,
        counter: words[17],
        mode,
        stops: words[20] as u16,
    })
}

/// What a record of a mutex sets.
fn locked_of(n: u64) -> Option<Setting>
    ensures some { IfSome result (λ s. (is_flag n ≡ true) × IsSetting s × (edits_of s ≡ SetLocked (n == 1) ∷ [])) }
    ensures none { IfNone result (is_flag n ≡ false) }
{
    if n > 1 {
        return None;
    }
    Some(Setting::Locked(n == 1))
}

/// What the numbers of a record set, where they are such as the kind of an object in a space takes.
fn numbers_of(store: &Store, space: u32, body: &Body, words: &[u64]) -> Option<Setting>
    requires { 32 ≤ length words.now }
    ensures some { IfSome result (λ s.
        (definition.is_state (world store.now) (path store.now space) (body_by (path store.now) body.now) words.now ≡ true) × IsSetting s
        × (edits_of s ≡ definition.set_edits (body_by (path store.now) body.now) words.now)) }
    ensures none { IfNone result (definition.is_state (world store.now) (path store.now space) (body_by (path store.now) body.now) words.now ≡ false) }
{
    match body {
        Body::Mutex { .. } => locked_of(words[1]),
        Body::Mapping { .. } => window_of(words),
        Body::Region { .. } => extent_of(words),
        Body::Port { served, .. } => member_of(store, space, *served, words[1]),
        Body::Thread(_) => state_of(words),
        Body::Cond | Body::Portset | Body::Space { .. } | Body::Reference { .. } => {
            Some(Setting::Nothing)
        }
    }
}

/// What a record sets, where an object in a space takes it.
#[tactic(auto, unfolding(fk_model::specs::Records::takes_state))]
fn setting_of(store: &Store, space: u32, body: &Body, words: &[u64]) -> Option<Setting>
    requires { 32 ≤ length words.now }
    ensures some { IfSome result (λ s.
        (definition.takes_state (world store.now) (path store.now space) (body_by (path store.now) body.now) words.now ≡ true) × IsSetting s
        × (edits_of s ≡ definition.set_edits (body_by (path store.now) body.now) words.now)) }
    ensures none { IfNone result (definition.takes_state (world store.now) (path store.now space) (body_by (path store.now) body.now) words.now ≡ false) }
{
    if words[0] != kind_number(body) {
        return None;
    }
    numbers_of(store, space, body, words)
}

/// An object in a space takes a record.
pub fn takes_state(store: &Store, space: u32, body: &Body, words: &[u64]) -> bool
    requires { 32 ≤ length words.now }
    ensures { result ≡ definition.takes_state (world store.now) (path store.now space) (body_by (path store.now) body.now) words.now }
{
    setting_of(store, space, body, words).is_some()
}

/// Sets what a record sets.
#[tactic(auto, unfolding(fk_model::specs::World::apply_all))]
fn set(store: &mut Store, object: Who, setting: Setting)
    requires { IsSetting setting }
    ensures world { world store.new ≡ apply_all (map (Alter (place (path store.old) object)) (edits_of setting)) (world store.old) }
    ensures kinds { kind_there (world store.new) ≡ kind_there (world store.old) }
    ensures paths { path store.new ≡ path store.old }
{
    match setting {
        Setting::Nothing => {}
        Setting::Locked(locked) => store.set_locked(object, locked),
        Setting::Window {
            first,
            count,
            offset,
            write,
        } => store.set_window(object, first, count, offset, write),
        Setting::Extent {
            first,
            count,
            write,
        } => store.set_extent(object, first, count, write),
        Setting::Member(set) => store.set_member(object, set),
        Setting::State {
            registers,
            counter,
            mode,
            stops,
        } => {
            store.proceed(object, &registers, counter, mode);
            store.set_stops(object, stops);
        }
    }
}

/// Makes of an object what a record says, where it takes the record. Else all stays as it is.
#[tactic(auto, unfolding(fk_model::specs::World::apply_all))]
pub fn set_state(store: &mut Store, object: Who, words: &[u64])
    requires { 32 ≤ length words.now }
    ensures world { world store.new
        ≡ apply_all (sets_at (world store.old) (path store.old object.space) (place (path store.old) object) words.now) (world store.old) }
    ensures kinds { kind_there (world store.new) ≡ kind_there (world store.old) }
    ensures paths { path store.new ≡ path store.old }
{
    if let Some(&body) = store.at(object) {
        if let Some(setting) = setting_of(store, object.space, &body, words) {
            set(store, object, setting);
        }
    }
}
