//! Moves that are made so many times in a row.
ghost use Rattle.std.specs.Prelude.{◌≡◌, ◌+◌, ◌≤◌, ◌++◌, length, replicate, vec_capacity, OnOk};
ghost use Rattle.fk_history.specs.Repeats.{moves_in};

use fk_model::{Move, NoMemory};

/// A move, and how often it is made.
#[derive(Clone, Copy)]
pub(crate) struct Repeat {
    pub m: Move,
    pub times: u32,
}

// A history has room for one a move.
const _: () = prove!(size_of::<Repeat>() == 24);

/// So many times a move go behind the others, in as few lines as can count them.
pub(crate) fn put(repeats: &mut Vec<Repeat>, m: Move, times: u64)
    requires { length repeats.old.items + times ≤ vec_capacity repeats.old }
    ensures moves { moves_in repeats.new.items ≡ moves_in repeats.old.items ++ replicate times m }
    ensures few { length repeats.new.items ≤ length repeats.old.items + times }
    ensures capacity { vec_capacity repeats.new ≡ vec_capacity repeats.old }
{
    let mut left = times;
    while left > 0 {
        let some = left.min(u64::from(u32::MAX));
        repeats.push_reserved(Repeat {
            m,
            times: some as u32,
        });
        left -= some;
    }
}

/// Writes a move so many times behind the others.
pub(crate) fn write(all: &mut Vec<Move>, m: Move, times: u64) -> Result<(), NoMemory>
    ensures { OnOk result (all.new.items ≡ all.old.items ++ replicate times m) }
{
    for _k in 0..times {
        all.push(m)?;
    }
    Ok(())
}

/// Writes all of them behind the others.
pub(crate) fn write_all(all: &mut Vec<Move>, repeats: &[Repeat]) -> Result<(), NoMemory>
    ensures { OnOk result (all.new.items ≡ all.old.items ++ moves_in repeats.now) }
{
    for one in repeats {
        write(all, one.m, u64::from(one.times))?;
    }
    Ok(())
}
