//! Which line of a record is bad by itself.
ghost use Rattle.std.specs.Prelude.{IfOk};
ghost use Rattle.std.specs.Bool.{OnTrue};
ghost use Rattle.fk_record_text.specs.Lines.{ArePorts, IsPath};

use crate::records::noted::Noted;
use fk_model::{List, NoMemory, Text};
use fk_record_text::{RecordFail, read_record};
use std::alloc::Global;

/// Whether each byte of a text stands above the space, as in the path of a port.
fn is_path(text: &Text) -> bool
    ensures { OnTrue result (IsPath text.now) }
{
    text.as_str().as_bytes().iter().all(|byte| *byte > 32)
}

/// Adds the path of a port.
fn add_port(alloc: Global, path: &str, ports: &mut List<Text>) -> Result<(), NoMemory>
    ensures { ArePorts ports.old → ArePorts ports.new }
{
    let port = Text::of(alloc, path)?;
    if is_path(&port) {
        ports.push(port)?;
    }
    Ok(())
}

/// The paths of the ports that a record may name, in their order.
fn ports_of(alloc: Global, noted: &[Noted]) -> Result<List<Text>, NoMemory>
    ensures { IfOk result ArePorts }
{
    let mut ports = List::new(alloc);
    for one in noted {
        add_port(alloc, one.port.as_str(), &mut ports)?;
    }
    Ok(ports)
}

/// The number of the first line of a record, counted from 1, that is misspelled or names no port, or one before its time; none where no line is.
///
/// # Errors
///
/// There is no memory for the ports.
pub fn bad_line(alloc: Global, noted: &[Noted], bytes: &[u8]) -> Result<Option<u64>, NoMemory> {
    let ports = ports_of(alloc, noted)?;
    match read_record(alloc, ports.as_slice(), bytes) {
        Ok(_) => Ok(None),
        Err(RecordFail::Record { line }) => Ok(Some(line)),
        Err(RecordFail::NoMemory) => Err(NoMemory),
    }
}
