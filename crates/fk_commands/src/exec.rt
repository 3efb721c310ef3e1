//! The command `exec`: a text is assembled and run as one thread.
ghost use Rattle.std.specs.Prelude.{◌≡◌, ◌≤◌, Ok, IfOk, IfErr, vec_len};
ghost use Rattle.fk_asm.specs.Assembler.{assembled};
ghost use Rattle.fk_commands.specs.Exec.{IsExec};
ghost use Rattle.fk_commands.specs.Prepared.{ComesTo, IsRefusal, IsTextFail};

use crate::exec_text::exec_text;
use crate::prepared::Prepared;
use crate::status::Status;
use fk_asm::{AsmFail, assemble};
use fk_lone::{Machine, WORDS};
use std::alloc::Global;

/// How many instructions a program may make.
const BUDGET: u64 = 100_000;

/// The program that a text is.
fn program_of(alloc: Global, text: &[u8]) -> Result<Vec<u64>, Status>
    ensures read { IfOk result (λ program. assembled text.now ≡ Ok program.items) }
    ensures few { IfOk result (λ program. vec_len program ≤ WORDS) }
    ensures fail { IfErr result (IsTextFail (assembled text.now)) }
{
    match assemble(alloc, text) {
        Ok(program) => Ok(program),
        Err(AsmFail::Text(error)) => Err(Status::BadText {
            line: error.line,
            reason: error.reason,
        }),
        Err(AsmFail::NoMemory) => Err(Status::NoMemory),
    }
}

/// Runs the program that a text is, from its start on.
///
/// # Errors
///
/// `BadText` for a text that isn't assembled, with its line and the reason. `NoMemory` where there is
/// no memory for the program, its machine or the output.
pub fn exec(alloc: Global, text: &[u8]) -> Result<Prepared, Status>
    ensures comes { ComesTo (IsExec (assembled text.now)) result }
    ensures refusal { IfErr result (IsRefusal ⊥ ⊥) }
{
    let mut machine = Machine::new(program_of(alloc, text)?)?;
    let events = machine.run(BUDGET);
    let output = exec_text(alloc, machine.halted(), events, machine.registers())?;
    let status = match machine.halted() {
        Some(_) => Status::Ok,
        None => Status::Budget { budget: BUDGET },
    };
    Ok(Prepared {
        status,
        report: None,
        output,
    })
}
