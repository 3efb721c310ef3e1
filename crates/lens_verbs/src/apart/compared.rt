//! The first move in which two traces differ.
use crate::apart::taken::Deeds;

/// How two traces differ.
#[derive(Clone, Copy)]
pub enum Apart {
    /// In what a mover does or is told by its move at these places of both.
    Does { first: usize, second: usize },
    /// The first makes a move at this place that its mover makes no more in the second.
    FirstAlone(usize),
    SecondAlone(usize),
    /// In the order alone, or not at all.
    Nowhere { is_same_order: bool },
}

/// The first place in a trace whose mover makes no such move in the other.
fn alone(deeds: &Deeds, other: &Deeds) -> Option<usize> {
    for place in 0..deeds.list.len() {
        if other.place_of(deeds.list[place]).is_none() {
            return Some(place);
        }
    }
    None
}

/// The first move, in the order of the first trace, that does something else in the second.
fn first_other(first: &Deeds, second: &Deeds) -> Option<Apart> {
    for place in 0..first.list.len() {
        let deed = first.list[place];
        if let Some(at) = second.place_of(deed) {
            match second.list.get(at) {
                Some(other) if first.text_of(deed) != second.text_of(*other) => {
                    return Some(Apart::Does {
                        first: place,
                        second: at,
                    });
                }
                _ => {}
            }
        }
    }
    None
}

/// Whether two traces have the same movers one after the other.
fn is_same_order(first: &Deeds, second: &Deeds) -> bool {
    for place in 0..first.list.len() {
        match second.list.get(place) {
            Some(other) if other.mover == first.list[place].mover => {}
            _ => return false,
        }
    }
    true
}

/// How two traces differ.
pub fn first_apart(first: &Deeds, second: &Deeds) -> Apart {
    if let Some(apart) = first_other(first, second) {
        return apart;
    }
    if let Some(place) = alone(first, second) {
        return Apart::FirstAlone(place);
    }
    match alone(second, first) {
        Some(place) => Apart::SecondAlone(place),
        None => Apart::Nowhere {
            is_same_order: is_same_order(first, second),
        },
    }
}

/// The last move before a place in one trace that may do something to others and doesn't come before a place in the other.
pub fn last_before(deeds: &Deeds, place: usize, other: &Deeds, there: usize) -> Option<usize> {
    let mut found = None;
    for at in 0..deeds.list.len() {
        if at >= place {
            break;
        }
        let deed = deeds.list[at];
        let is_before = match other.place_of(deed) {
            Some(at) => at < there,
            None => false,
        };
        if deed.reaches && !is_before {
            found = Some(at);
        }
    }
    found
}
