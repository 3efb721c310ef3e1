//! The lines of an object.
use crate::images::paths::push_pointer;
use crate::images::threads::push_thread;
use crate::sheet::{Sheet, line_at};
use crate::store::push_pages;
use fk_image::{Rec, SpaceRec, kind_of_rec};

/// Kinds by their numbers.
const KINDS: &str = "
mutex
cond
mapping
region
port
portset
space
thread
reference";

/// Adds the lines of an object with this path: its own, and that of its one pointer, where it has one; of a thread all of its lines.
pub fn push_object(sheet: &Sheet, path: &str, spaces: &[SpaceRec], body: &Rec) {
    sheet.add(line_at(KINDS, kind_of_rec(body) as u64));
    sheet.put_around(b" ", path, b"");
    match *body {
        Rec::Mutex { locked: 1 } => sheet.put(b" locked\n"),
        Rec::Port { set } if set > 0 => {
            let slot = (set as u64).saturating_sub(1);
            sheet.fill(b" in the set of slot @\n", slot, 0, 0);
        }
        Rec::Mapping {
            first,
            count,
            offset,
            write,
            ref region,
        } => {
            push_pages(sheet, first, count, write == 1);
            sheet.fill(b", from the region's page @ on\n", offset as u64, 0, 0);
            push_pointer(sheet, path, b" region ", spaces, region);
        }
        Rec::Region {
            first,
            count,
            write,
            ref keeper,
        } => {
            push_pages(sheet, first, count, write == 1);
            sheet.put(b"\n");
            push_pointer(sheet, path, b" keeper ", spaces, keeper);
        }
        Rec::Reference { ref to } => {
            sheet.put(b"\n");
            push_pointer(sheet, path, b" to ", spaces, to);
        }
        Rec::Thread(ref thread) => push_thread(sheet, path, spaces, thread.get()),
        _ => sheet.put(b"\n"),
    }
}
