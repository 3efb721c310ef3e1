//! Where two traces come apart, told.
use crate::apart::compared::{Apart, first_apart, last_before};
use crate::apart::taken::{Deeds, Movers, Taker};
use lens_text::Sheet;

/// The path of the mover with a number.
fn path_of(movers: &Movers, number: usize) -> &str {
    for (path, one) in movers {
        if *one == number {
            return path.as_str();
        }
    }
    ""
}

/// Adds a move of a trace: its number, who moves and what that does.
fn push_deed(sheet: &Sheet, name: &str, movers: &Movers, deeds: &Deeds, place: usize) {
    if let Some(deed) = deeds.list.get(place) {
        sheet.add(name);
        sheet.fill(b"\t@\t", place as u64, 0, 0);
        sheet.put_around(b"", path_of(movers, deed.mover), b"\t");
        sheet.add(deeds.text_of(*deed));
    }
}

/// Adds what came before a move in one trace and behind it in the other, if anything did that may have made it another.
fn push_before(
    sheet: &Sheet,
    name: &str,
    movers: &Movers,
    deeds: (&Deeds, &Deeds),
    places: (usize, usize),
) {
    if let Some(place) = last_before(deeds.0, places.0, deeds.1, places.1) {
        sheet.put_around(b"before it in ", name, b" alone\n");
        push_deed(sheet, name, movers, deeds.0, place);
    }
}

/// Adds how two traces with these names differ, which were watched one after the other: the first move in which they do, and where both make it, what came
/// before it in one of them alone.
pub fn push_apart(sheet: &Sheet, taker: &Taker, name: &str, other: &str) {
    let (movers, first, second) = (&taker.movers, &taker.first, &taker.deeds);
    match first_apart(first, second) {
        Apart::Does {
            first: here,
            second: there,
        } => {
            push_deed(sheet, name, movers, first, here);
            push_deed(sheet, other, movers, second, there);
            push_before(sheet, name, movers, (first, second), (here, there));
            push_before(sheet, other, movers, (second, first), (there, here));
        }
        Apart::FirstAlone(place) => {
            sheet.put_around(b"in ", name, b" alone\n");
            push_deed(sheet, name, movers, first, place);
        }
        Apart::SecondAlone(place) => {
            sheet.put_around(b"in ", other, b" alone\n");
            push_deed(sheet, other, movers, second, place);
        }
        Apart::Nowhere {
            is_same_order: true,
        } => sheet.put(b"no difference\n"),
        Apart::Nowhere { .. } => sheet.put(b"the same moves in another order\n"),
    }
}
