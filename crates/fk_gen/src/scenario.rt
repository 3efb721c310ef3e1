//! The text of the scenario.
ghost use Rattle.std.specs.Prelude.{◌≡◌, ◌++◌, ◌+◌, ◌*◌, ◌<◌, ◌≤◌, IfOk, codes, decimal, string_bytes};
ghost use Rattle.fk_gen.specs.Soak as definitions;

use fk_model::NoMemory;
use std::alloc::{AllocError, Global};

/// What stands before the processes: how long it runs and by how many workers, the common program, and the root.
#[tactic(auto, unfolding(crate::specs::Soak::opening, crate::specs::Soak::program))]
fn opening(alloc: Global) -> Result<String, AllocError>
    ensures { IfOk result (λ text. string_bytes text ≡ definitions.opening) }
{
    let counting = "next: addi r8, r8, 1\nset r7, 64\nstore r8, r7, 0\n";
    let sending = "set r0, 33\nset r1, 1\nset r2, 64\nset r3, 1\ncall\nset r0, 39\ncall\n";
    let repeating = "addi r9, r9, -1\njnz r9, next\nhalt\n";
    let root = "\n[[space]]\npath = \"/\"\nnester = true\n";
    format!(in alloc;
        "budget = 1000000\nworkers = 4\n\n[programs]\nsoak = \"\"\"\n{counting}{sending}{repeating}\"\"\"\n{root}"
    )
}

/// The space in a slot of the root.
#[tactic(auto, unfolding(crate::specs::Soak::space_text))]
fn space_text(alloc: Global, slot: u32) -> Result<String, AllocError>
    ensures { IfOk result (λ text. string_bytes text ≡ definitions.space_text slot) }
{
    format!(in alloc; "\n[[space]]\npath = \"/{slot}\"\nprogram = \"soak\"\npages = [1]\n")
}

/// Its thread, with what it counts on from.
#[tactic(auto, unfolding(crate::specs::Soak::thread_text))]
fn thread_text(alloc: Global, slot: u32, first: u32) -> Result<String, AllocError>
    ensures { IfOk result (λ text. string_bytes text ≡ definitions.thread_text slot first) }
{
    format!(in alloc;
        "\n[[object]]\nat = \"/{slot}/0\"\nkind = \"thread\"\nregs = [0, 0, 0, 0, 0, 0, 0, 0, {first}, 10]\n"
    )
}

/// Its reference to a port of the root.
#[tactic(auto, unfolding(crate::specs::Soak::reference_text))]
fn reference_text(alloc: Global, slot: u32, port: u32) -> Result<String, AllocError>
    ensures { IfOk result (λ text. string_bytes text ≡ definitions.reference_text slot port) }
{
    format!(in alloc; "\n[[object]]\nat = \"/{slot}/1\"\nkind = \"reference\"\nto = \"/{port}\"\n")
}

/// A port of the root.
#[tactic(auto, unfolding(crate::specs::Soak::port_text))]
fn port_text(alloc: Global, port: u32) -> Result<String, AllocError>
    ensures { IfOk result (λ text. string_bytes text ≡ definitions.port_text port) }
{
    format!(in alloc; "\n[[object]]\nat = \"/{port}\"\nkind = \"port\"\n")
}

/// A console that serves it.
#[tactic(auto, unfolding(crate::specs::Soak::server_text))]
fn server_text(alloc: Global, port: u32, alias: &str) -> Result<String, AllocError>
    ensures { IfOk result (λ text. string_bytes text ≡ definitions.server_text port alias.now) }
{
    format!(in alloc; "\n[[server]]\nport = \"/{port}\"\nrule = \"console\"\nalias = \"{alias}\"\n")
}

/// A port of the root, and a console that serves it.
#[tactic(auto, unfolding(crate::specs::Soak::console_text))]
fn console_text(alloc: Global, port: u32, alias: &str) -> Result<String, AllocError>
    ensures { IfOk result (λ text. string_bytes text ≡ definitions.console_text port alias.now) }
{
    let entry = port_text(alloc, port)?;
    let server = server_text(alloc, port, alias)?;
    format!(in alloc; "{entry}{server}")
}

/// The alias of a process's console.
fn alias_of(alloc: Global, process: u32) -> Result<String, AllocError>
    ensures { IfOk result (λ alias. string_bytes alias ≡ codes "p" ++ decimal process) }
{
    format!(in alloc; "p{process}")
}

/// A process, and its console.
#[tactic(auto, unfolding(crate::specs::Soak::process_text))]
fn process_text(alloc: Global, process: u32) -> Result<String, AllocError>
    requires { process < 100 }
    ensures { IfOk result (λ text. string_bytes text ≡ definitions.process_text process) }
{
    let space = space_text(alloc, process)?;
    let thread = thread_text(alloc, process, 1000 * process)?;
    let reference = reference_text(alloc, process, 100 + process)?;
    let alias = alias_of(alloc, process)?;
    let console = console_text(alloc, 100 + process, alias.as_str())?;
    format!(in alloc; "{space}{thread}{reference}{console}")
}

/// So many processes.
fn processes(alloc: Global, count: u32) -> Result<String, AllocError>
    requires { count ≤ 100 }
    ensures { IfOk result (λ text. string_bytes text ≡ definitions.processes_from 0 count) }
{
    let mut text = String::new(alloc);
    for process in 0..count {
        text.push_str(process_text(alloc, process)?.as_str())?;
    }
    Ok(text)
}

/// What stands after the processes.
#[tactic(auto, unfolding(crate::specs::Soak::foot))]
fn foot(alloc: Global) -> Result<String, AllocError>
    ensures { IfOk result (λ text. string_bytes text ≡ definitions.foot) }
{
    let console = console_text(alloc, 201, "copy")?;
    let checkpoint =
        "\n[[job]]\nkind = \"checkpoint\"\nat = 50\nnester = \"/\"\nslot = 0\nimage = \"soak\"\n";
    let restore =
        "\n[[job]]\nkind = \"restore\"\nnester = \"/\"\nslot = 200\nimage = \"soak\"\nbind = [[100, 201]]\n";
    format!(in alloc; "{console}{checkpoint}{restore}")
}

/// The text of a scenario with so many processes, 1 to 100.
///
/// # Errors
///
/// There is no memory for the text.
pub fn scenario_of(alloc: Global, count: u32) -> Result<Vec<u8>, NoMemory>
    requires one { 1 ≤ count }
    requires most { count ≤ 100 }
    ensures { IfOk result (λ text. text.items ≡ definitions.scenario count) }
{
    let before = opening(alloc)?;
    let between = processes(alloc, count)?;
    let after = foot(alloc)?;
    let text = format!(in alloc; "{before}{between}{after}")?;
    Ok(text.into_bytes())
}
