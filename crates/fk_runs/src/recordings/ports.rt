//! The ports that a record may name.
ghost use Rattle.std.specs.Prelude.{◌≡◌, ◌++◌, [], true, nat_lt, IfOk, OnOk};
ghost use Rattle.std.specs.List.{list_all};
ghost use Rattle.fk_record_text.specs.Lines.{ArePorts, IsPath};
ghost use Rattle.fk_runs.specs.Recordings.Ports as definitions;
ghost use Rattle.fk_report.specs.Paths.{down_text};

use fk_model::{List as Items, NoMemory, Text};
use fk_report::push_down;
use fk_scenario::entries::{ServerEntry, ServiceSpec};
use std::alloc::Global;

/// Slots are as small as their type says once they are read.
fn read_slots(slots: &[u8])
    ensures { list_all (λ slot. nat_lt slot 256) slots.now ≡ true }
{
    for slot in slots {
        let _slot = *slot;
    }
}

/// The path of a port, whose slots go from the root down.
#[tactic(auto, using(crate::proofs::InRecordings::Paths::is_path))]
fn path_of(alloc: Global, slots: &[u8]) -> Result<Text, NoMemory>
    ensures text { IfOk result (λ text. text ≡ down_text slots.now) }
    ensures path { IfOk result IsPath }
{
    read_slots(slots);
    let mut text = String::new(alloc);
    push_down(&mut text, slots)?;
    Text::of(alloc, text.as_str())
}

/// Adds the path of a server's port, where it is no console.
fn add_port(alloc: Global, server: &ServerEntry, ports: &mut Items<Text>) -> Result<(), NoMemory>
    ensures more { OnOk result (ports.new ≡ ports.old ++ definitions.with_port server.now.service (down_text server.now.port) []) }
    ensures paths { ArePorts ports.old → OnOk result (ArePorts ports.new) }
{
    match server.service {
        ServiceSpec::Console { .. } => Ok(()),
        ServiceSpec::Listed { .. } => {
            let port = path_of(alloc, server.port.as_slice())?;
            ports.push(port)
        }
    }
}

/// The paths of the ports of servers that are no consoles, in the order of the file.
///
/// # Errors
///
/// There is no memory for the paths.
pub fn ports_of(alloc: Global, servers: &[ServerEntry]) -> Result<Items<Text>, NoMemory>
    ensures ports { IfOk result (λ ports. ports ≡ definitions.ports_of servers.now) }
    ensures paths { IfOk result ArePorts }
{
    let mut ports = Items::new(alloc);
    for server in servers {
        add_port(alloc, server, &mut ports)?;
    }
    Ok(ports)
}
