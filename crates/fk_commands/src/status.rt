//! How a call of the program ends.
ghost use Rattle.std.specs.Prelude.{◌≡◌, IfOk, string_bytes};
ghost use Rattle.fk_commands.specs.Status.{status_number, fault_line_of};
ghost use Rattle.fk_commands.specs.declared.status.Status.TheVariants as statuses;

use fk_model::{NoMemory, Text};
use std::alloc::{AllocError, Global};

/// How a call of the program ends.
#[derive(Drop)]
pub enum Status {
    /// All was done.
    Ok,
    /// The words of the command line are no command.
    Usage,
    /// The source held more than 1,048,576 bytes.
    TooLong,
    /// The text isn't assembled: the line of its first fault, and the reason.
    BadText { line: u32, reason: u8 },
    /// The scenario is refused by this rule, in this section, at the entry with this index.
    BadScenario { rule: u8, section: u8, index: u32 },
    /// The shelf has nothing of this name, which is needed.
    Absent { name: Text },
    /// The shelf's image of this name has its first fault at this offset, by this reason, from 1 to 8.
    BadImage { name: Text, offset: u64, reason: u8 },
    /// The line of the move with this index is the first of the trace that is misspelled, whose move
    /// isn't ready, or that stands at the budget.
    BadTrace { index: u64 },
    /// The job at this place was the first that ended refused: what it was to save wasn't there or wasn't closed, or its image
    /// couldn't be made again. All else was done.
    JobRefused { job: u32 },
    /// As many moves were made as the budget has, and one was left. All else was done.
    Budget { budget: u64 },
    /// A read of the source failed.
    ReadFault,
    /// A write to the sink failed.
    WriteFault,
    /// A get or a put of the shelf failed.
    ShelfFault,
    /// There is no memory for what was asked.
    NoMemory,
    /// The scenario has jobs, or its subtree may not be paged.
    NotPaged,
    /// This line of the record, counted from 1, is the first that is misspelled, names no port of a server that is no console, or
    /// names one that comes before that of an earlier line.
    BadRecord { line: u64 },
}

impl Status {
    /// The status with which the process exits.
    pub fn number(&self) -> u8
        ensures { result ≡ status_number self.now }
    {
        match self {
            Status::Ok => 0,
            Status::Usage => 2,
            Status::TooLong => 3,
            Status::BadText { .. } => 4,
            Status::BadScenario { .. } => 5,
            Status::Absent { .. } => 6,
            Status::BadImage { .. } => 7,
            Status::BadTrace { .. } => 8,
            Status::JobRefused { .. } => 9,
            Status::Budget { .. } => 10,
            Status::ReadFault => 11,
            Status::WriteFault => 12,
            Status::ShelfFault => 13,
            Status::NoMemory => 14,
            Status::NotPaged => 15,
            Status::BadRecord { .. } => 16,
        }
    }
}

impl From<NoMemory> for Status {
    ghost from_gives = { λ _ status. status ≡ statuses.NoMemory };

    fn from(_: NoMemory) -> Status {
        Status::NoMemory
    }
}

impl From<AllocError> for Status {
    ghost from_gives = { λ _ status. status ≡ statuses.NoMemory };

    fn from(_: AllocError) -> Status {
        Status::NoMemory
    }
}

/// The line that says what went wrong, without its line feed; empty for `Ok`.
///
/// # Errors
///
/// `NoMemory` where there is no memory for the line.
pub fn fault_line(alloc: Global, status: &Status) -> Result<String, NoMemory>
    ensures { IfOk result (λ line. string_bytes line ≡ fault_line_of status.now) }
{
    let line = match status {
        Status::Ok => String::new(alloc),
        Status::Usage => String::from_str(alloc, "fluke: usage")?,
        Status::TooLong => String::from_str(alloc, "fluke: too long")?,
        Status::BadText { line, reason } => {
            format!(in alloc; "fluke: bad text line {line} reason {reason}")?
        }
        Status::BadScenario {
            rule,
            section,
            index,
        } => format!(in alloc; "fluke: bad scenario rule {rule} section {section} index {index}")?,
        Status::Absent { name } => {
            let name = name.as_str();
            format!(in alloc; "fluke: absent {name}")?
        }
        Status::BadImage {
            name,
            offset,
            reason,
        } => {
            let name = name.as_str();
            format!(in alloc; "fluke: bad image {name} offset {offset} reason {reason}")?
        }
        Status::BadTrace { index } => format!(in alloc; "fluke: bad trace index {index}")?,
        Status::JobRefused { job } => format!(in alloc; "fluke: job {job} refused")?,
        Status::Budget { budget } => format!(in alloc; "fluke: budget {budget}")?,
        Status::ReadFault => String::from_str(alloc, "fluke: read fault")?,
        Status::WriteFault => String::from_str(alloc, "fluke: write fault")?,
        Status::ShelfFault => String::from_str(alloc, "fluke: shelf fault")?,
        Status::NoMemory => String::from_str(alloc, "fluke: no memory")?,
        Status::NotPaged => String::from_str(alloc, "fluke: not paged")?,
        Status::BadRecord { line } => format!(in alloc; "fluke: bad record line {line}")?,
    };
    Ok(line)
}
