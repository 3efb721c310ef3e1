//! What `exec` writes.
ghost use Rattle.std.specs.Prelude.{◌≡◌, IfOk, string_bytes};
ghost use Rattle.fk_commands.specs.ExecText as definitions;

use std::alloc::{AllocError, Global};

fn end_line(alloc: Global, halted: Option<u8>, events: u64) -> Result<String, AllocError>
    ensures { IfOk result (λ text. string_bytes text ≡ definitions.end_line halted events) }
{
    match halted {
        Some(code) => format!(in alloc; "halt {code} events {events}\n"),
        None => format!(in alloc; "budget events {events}\n"),
    }
}

fn register_text(alloc: Global, register: u64) -> Result<String, AllocError>
    ensures { IfOk result (λ text. string_bytes text ≡ definitions.register_text register) }
{
    format!(in alloc; " {register}")
}

fn registers_line(alloc: Global, registers: &[u64; 16]) -> Result<String, AllocError>
    ensures { IfOk result (λ text. string_bytes text ≡ definitions.registers_line registers.now) }
{
    let mut text = String::from_str(alloc, "regs")?;
    for register in registers {
        text.push_str(register_text(alloc, *register)?.as_str())?;
    }
    text.push_str("\n")?;
    Ok(text)
}

/// What is written of a thread that has run: how it ended, and its registers.
///
/// # Errors
///
/// There is no memory for the text.
pub fn exec_text(
    alloc: Global,
    halted: Option<u8>,
    events: u64,
    registers: &[u64; 16],
) -> Result<String, AllocError>
    ensures { IfOk result (λ text. string_bytes text ≡ definitions.exec_text halted events registers.now) }
{
    let mut text = end_line(alloc, halted, events)?;
    text.push_str(registers_line(alloc, registers)?.as_str())?;
    Ok(text)
}
