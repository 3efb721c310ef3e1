//! Single words of a thread's record.
ghost use Rattle.std.specs.Prelude.{◌≡◌, ℕ, List, [], ◌∷◌, option_map};
ghost use Rattle.fk_model.specs.LinkRows as links;
ghost use Rattle.fk_model.specs.Objects as objects;
ghost use Rattle.fk_model.specs.Places.{Path};
ghost use Rattle.fk_model.specs.Records as definition;
ghost use Rattle.fk_store.specs.Store.Bodies.{fault_by, mode_by, talk_by};

use fk_model::{Fault, Mode, Talk, Turn};

/// A flag as a word.
pub fn flag(is_set: bool) -> u64
    ensures { result ≡ objects.flag_of is_set }
{
    if is_set { 1 } else { 0 }
}

/// The number of a mode: it runs, calls, has halted, or is a porter.
pub fn mode_number(mode: Mode) -> u64
    ensures { (g : List ℕ) → result ≡ definition.mode_number (mode_by mode g) }
{
    match mode {
        Mode::Running => 0,
        Mode::Calling => 1,
        Mode::Halted(_) => 2,
        Mode::Native => 3,
    }
}

/// The code with which a thread has halted; else 0.
pub fn halt_code(mode: Mode) -> u64
    ensures { (g : List ℕ) → result ≡ definition.halt_code (mode_by mode g) }
{
    match mode {
        Mode::Halted(code) => u64::from(code),
        Mode::Running | Mode::Calling | Mode::Native => 0,
    }
}

/// The number of a side.
pub fn turn_number(turn: Turn) -> u64
    ensures { result ≡ links.turn_number turn }
{
    match turn {
        Turn::Client => 1,
        Turn::Server => 2,
    }
}

/// Whose turn it is, and the words moved.
pub fn talk_words(talk: Option<Talk>) -> (u64, u64)
    ensures { (p : ℕ → Path) → definition.talk_words (option_map (talk_by p) talk) ≡ result.0 ∷ result.1 ∷ [] }
{
    match talk {
        Some(talk) => (turn_number(talk.turn), u64::from(talk.moved)),
        None => (0, 0),
    }
}

/// 1 where a fault is raised and 2 where it is taken, its page, and whether a write missed it.
pub fn fault_words(fault: Option<Fault>) -> (u64, u64, u64)
    ensures { (p : ℕ → Path) → definition.fault_words (option_map (fault_by p) fault) ≡ result.0 ∷ result.1 ∷ result.2 ∷ [] }
{
    match fault {
        Some(fault) => {
            let state = if fault.taker.is_none() { 1 } else { 2 };
            (state, u64::from(fault.page), flag(fault.write))
        }
        None => (0, 0, 0),
    }
}
