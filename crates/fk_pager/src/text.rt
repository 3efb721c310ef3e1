//! What is told of a run with a pager.
ghost use Rattle.std.specs.Prelude.{◌≡◌, IfOk, string_bytes};
ghost use Rattle.fk_pager.specs.Pages as pages;
ghost use Rattle.fk_pager.specs.Pages.{IsTold};

use fk_extras::Paged;
use fk_host::Host;
use fk_model::NoMemory;
use fk_natives::Native;
use fk_report::{End, end_word, outs_text, threads_of};
use std::alloc::{AllocError, Global};

/// The first line, and what comes behind it.
fn page_text(
    alloc: Global,
    slot: u8,
    room: u16,
    faults: u64,
    end: End,
    outs: &str,
) -> Result<String, AllocError>
    ensures { IfOk result (λ text. string_bytes text ≡ pages.page_text slot room faults end outs.now) }
{
    let end = end_word(end);
    format!(in alloc; "page {slot} {room} faults {faults} end {end}\n{outs}")
}

/// The line of the run, and the lines of the last world's consoles and user threads.
///
/// # Errors
///
/// There is no memory for the text.
pub(crate) fn text_of(
    alloc: Global,
    slot: u8,
    room: u16,
    paged: &Paged,
    host: &Host<Native>,
) -> Result<String, NoMemory>
    ensures { IfOk result (λ text. IsTold slot room paged.now host.now.kernel host.now.services.list (string_bytes text)) }
{
    let threads = threads_of(alloc, host.kernel().store())?;
    let outs = outs_text(alloc, host.services(), threads.as_slice())?;
    let text = page_text(alloc, slot, room, paged.faults, paged.end, outs.as_str())?;
    Ok(text)
}
