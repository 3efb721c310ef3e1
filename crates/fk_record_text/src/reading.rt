//! Reading a record, line by line.
ghost use Rattle.std.specs.Prelude.{◌≡◌, ◌++◌, List, IfSome, IfNone, IfOk, IfErr};
ghost use Rattle.std.specs.Option.{option_map};
ghost use Rattle.fk_record_text.specs.Reading as steps;
ghost use Rattle.fk_record_text.specs.Record.{first_line, BeginsWith, BeginsWithNone, HasNoFirstLine, Spells};
ghost use Rattle.fk_record_text.specs.Record.{Entry as Noted};
ghost use Rattle.fk_record_text.specs.Lines.{ArePorts, entry_of, entries_of, IsCause, GivesEntries};
ghost use Rattle.fk_record_text.specs.Lines as lines;

use crate::entry::Entry;
use crate::fail::RecordFail;
use crate::notes::note_in;
use fk_model::Text;
use fk_trace_text::cut_at;
use std::alloc::Global;

/// The place of the first port with this path.
#[tactic(auto, unfolding(crate::specs::Reading::place_of))]
fn place_of(ports: &[Text], port: &[u8]) -> Option<usize>
    ensures { result ≡ steps.place_of ports.now port.now }
{
    ports.iter().position(|p| p.as_str().as_bytes() == port)
}

/// The entry that a line is, of a port from a place on.
#[tactic(auto, unfolding(crate::specs::Lines::entry_in))]
fn entry_in(ports: &[Text], from: usize, line: &[u8]) -> Option<Entry>
    ensures { option_map entry_of result ≡ lines.entry_in ports.now from line.now }
{
    let (port, note) = cut_at(b' ', line)?;
    let place = place_of(ports, port)?;
    let note = note_in(note)?;
    if from <= place {
        Some(Entry { place, note })
    } else {
        None
    }
}

/// The entry with whose line a text begins, of a port from a place on, and what stands behind that line.
#[tactic(auto, using(crate::proofs::Records::begins_read, crate::proofs::Records::none_uncut, crate::proofs::Records::none_unread))]
fn first_entry<'a>(ports: &[Text], from: usize, text: &'a [u8]) -> Option<(Entry, &'a [u8])>
    requires { ArePorts ports.now }
    ensures found { IfSome result (λ first. BeginsWith ports.now from text.now (entry_of first.0) first.1.now) }
    ensures none { IfNone result (BeginsWithNone ports.now from text.now) }
{
    let (line, after) = cut_at(b'\n', text)?;
    Some((entry_in(ports, from, line)?, after))
}

/// What stands behind the first line of a record, where a text begins with that.
fn after_first_line(text: &[u8]) -> Option<&[u8]>
    ensures found { IfSome result (λ rest. text.now ≡ first_line ++ rest.now) }
    ensures none { IfNone result (HasNoFirstLine text.now) }
{
    text.strip_prefix(b"fluke-record 1\n")
}

/// The notes whose record a text is, by the paths of the ports that may be named, in their order.
///
/// # Errors
///
/// `Record` with the number of the first line that is misspelled, names none of the ports, or one that comes before that of an earlier line.
/// `NoMemory` where there is no memory for the notes.
pub fn read_record(alloc: Global, ports: &[Text], text: &[u8]) -> Result<Vec<Entry>, RecordFail>
    requires { ArePorts ports.now }
    ensures found { IfOk result (λ entries. Spells ports.now text.now (entries_of entries.items)) }
    ensures cause { IfErr result (λ fail. IsCause ports.now text.now fail) }
    ensures back { (entries : List Noted) → Spells ports.now text.now entries → GivesEntries entries result }
{
    let mut entries = Vec::new(alloc);
    let Some(mut rest) = after_first_line(text) else {
        return Err(RecordFail::Record { line: 1 });
    };
    let mut from = 0usize;
    let mut line = 2u64;
    while !rest.is_empty() {
        let Some((entry, after)) = first_entry(ports, from, rest) else {
            return Err(RecordFail::Record { line });
        };
        let Ok(()) = entries.push(entry) else {
            return Err(RecordFail::NoMemory);
        };
        from = entry.place;
        line += 1;
        rest = after;
    }
    Ok(entries)
}
