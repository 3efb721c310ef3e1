//! Stores: what is made in them, and what they show then.
//!
//! Each line is a step in one store, which holds the root alone at first and after `anew`. `space`, `cond` and `port` make an object, by a
//! space and a slot (a port with 1 behind these is served by a native server), `native`, `calling` and `halted` a thread in this mode (the
//! code is the fourth number), `sending` one that has sent the first block of a message to a port, `reference` one that leads to another
//! object, `page` a page filled with a word (`making`); `drop` takes a page away, `clear` lets an object's pointer lead nowhere, `kill`
//! destroys an object in which nothing stands, and `rename` gives it another slot. `nest` makes many spaces, each in the one before, `fill`
//! many in one, `empty` destroys what stands beneath. All of these show the store then: `showing::all`. Where memory is refused, it must be
//! as it was, and is asked once more; so the program finds the same whichever one allocation of a making is refused
//! (`rt try --fail-alloc 1..`). `hold` and `release` show who decides then, and the other lines show something (`showing`).
use crate::line::Line;
use crate::making::{COND, SPACE, make, make_at_last};
use crate::numbers::Numbers;
use crate::showing::{all, say_closed, say_cut, say_kind, say_leads, say_reach, say_report};
use fk_model::{Body, Ptr, Who};
use fk_store::Store;
use std::alloc::Global;

/// The verbs, in the order in which `step` has their numbers: first what `make` makes.
pub const VERBS: &str =
    "space cond port reference native calling halted sending page drop clear kill rename nest fill empty anew hold release home after at leads decider reach report closed cut";

/// Destroys an object in which nothing stands.
fn kill(store: &mut Store, who: Who) {
    if store.at(who).is_some() && !store.has_residents(who) {
        store.kill(who);
    }
}

/// Gives an object in which nothing stands another slot of its space, if that is empty.
fn rename(store: &mut Store, who: Who, slot: u8) {
    let target = Who {
        space: who.space,
        slot,
    };
    if store.at(who).is_some() && !store.has_residents(who) && store.at(target).is_none() {
        store.move_to(who, slot);
    }
}

/// An object holds a space from now on.
fn hold(store: &mut Store, space: Who, holder: Who) {
    if store.at(holder).is_some() {
        store.set_holder(space, Some(holder));
    }
}

/// The birth number of the space that stands there; that of the root, which has no name, where none does.
fn born(store: &Store, who: Who) -> u32 {
    match store.at(who) {
        Some(Body::Space { birth, .. }) => *birth,
        _ => 0,
    }
}

/// Makes so many spaces one in the other, a cond in each where that is asked for.
fn nest(store: &mut Store, who: Who, count: u64, with_conds: bool, found: &mut Numbers) {
    let mut at = who;
    for _ in 0..count {
        make(store, at, SPACE, who, found);
        let space = born(store, at);
        if with_conds {
            make(store, Who { space, slot: 1 }, COND, who, found);
        }
        at = Who { space, slot: 0 };
    }
}

/// Makes so many spaces in one, four conds in each.
fn fill(store: &mut Store, who: Who, count: u64, found: &mut Numbers) {
    let outer = born(store, who);
    for index in 0..count {
        let at = Who {
            space: outer,
            slot: (index % 250) as u8,
        };
        make(store, at, SPACE, who, found);
        let space = born(store, at);
        for slot in 0..4u8 {
            make(store, Who { space, slot }, COND, who, found);
        }
    }
}

/// Destroys all that stands beneath an object, at most so many objects.
fn empty(store: &mut Store, who: Who, most: u64) {
    for _ in 0..most {
        let leaf = store.leaf(who);
        if leaf == who {
            break;
        }
        kill(store, leaf);
    }
}

/// Shows something.
fn show(alloc: Global, store: &Store, verb: usize, line: &Line, who: Who, found: &mut Numbers) {
    match verb {
        19 => found.say_name(store.home(who.space)),
        20 => found.say_name(store.after(Some(who))),
        21 => say_kind(store, who, found),
        22 => say_leads(store, who, found),
        23 => found.say_name(store.decider(who)),
        24 => say_reach(store, who, line.subject.at(2) == 1, found),
        25 => say_report(alloc, store, line.subject.at(0), found),
        26 => say_closed(alloc, store, who, found),
        _ => say_cut(alloc, store, who, found),
    }
}

/// Changes the store, and shows what it holds then, or who decides.
fn change(store: &mut Store, verb: usize, line: &Line, who: Who, found: &mut Numbers) {
    let number = line.subject.at(2);
    let to = line.subject.who_at(2);
    match verb {
        0..=8 => make_at_last(store, who, verb, to, number, found),
        9 => store.drop_page(who.space, who.slot),
        10 => store.point(who, Ptr::Null),
        11 => kill(store, who),
        12 => rename(store, who, (number % 256) as u8),
        13 => nest(store, who, number, line.subject.at(3) == 1, found),
        14 => fill(store, who, number, found),
        15 => empty(store, who, number),
        17 => hold(store, who, to),
        18 => store.set_holder(who, None),
        _ => {}
    }
}

/// Makes the step of a line, by the number of its verb, and says what is found then.
pub fn step(alloc: Global, store: &mut Store, verb: usize, line: &Line, found: &mut Numbers) {
    let who = line.subject.who_at(0);
    if verb > 18 {
        return show(alloc, store, verb, line, who, found);
    }
    change(store, verb, line, who, found);
    if verb < 17 {
        found.say_all(all(store).list());
    } else {
        found.say_name(store.decider(who));
    }
}
