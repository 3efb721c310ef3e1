//! Whose move it is, what is known of a kernel, and the answer that a move tells.
ghost use Rattle.std.specs.Prelude.{◌≡◌, ◌==◌, ◌&&◌, take};
ghost use Rattle.fk_model.specs.Valid.{IsValid};
ghost use Rattle.fk_model.specs.declared.limits.TheConstants.{LAST_PORTER_SLOT};
ghost use Rattle.fk_migrate.specs.Turns.{is_porters, status_in, words_in, IsKept};
ghost use Rattle.fk_served.specs.Kernels.{world_of as world};
ghost use Rattle.laws_migrate.specs.Migration.{HasRoom};

use fk_host::Host;
use fk_model::limits::LAST_PORTER_SLOT;
use fk_model::{Answer, Move, Said, Who};
use fk_natives::Service;
use fk_served::Kernel;
use fk_served::asking::asked_by;

/// Whether this is the root's porter, by its name.
fn is_porter(who: Who) -> bool
    ensures { result ≡ (who.space == 0 && who.slot == LAST_PORTER_SLOT) }
{
    who.space == 0 && u64::from(who.slot) == LAST_PORTER_SLOT
}

/// Whether a move is that of the root's porter.
pub(crate) fn is_porters(kernel: &Kernel, m: &Move) -> bool
    ensures { result ≡ is_porters (world kernel.now) m.now }
{
    // Tells that names and paths agree.
    kernel.names();
    is_porter(m.who)
}

/// What a kernel keeps. Nothing is done: by this call that is known.
fn look_at(kernel: &Kernel)
    ensures valid { IsValid (world kernel.now) }
    ensures room { HasRoom (world kernel.now) }
{
    kernel.names();
    let _births = kernel.store().next_birth();
}

/// What a kernel with its servers keeps, and what whoever moves asks for. Nothing is done: by this call that is known.
pub(crate) fn look<S: Service + Drop>(host: &Host<S>, m: &Move)
    ensures { IsKept host.now.services.list (world host.now.kernel) m.now.who }
{
    let kernel = host.kernel();
    look_at(kernel);
    let _asked = asked_by(kernel, host.served(), m.who);
}

/// The answer that a move tells. Each call of a porter tells one.
pub(crate) fn answer_of(said: &Said) -> Answer
    ensures status { result.status ≡ status_in said.now }
    ensures words { take result.len result.words ≡ words_in said.now }
{
    match said {
        Said::Answer(answer) => *answer,
        _ => Answer {
            status: 0,
            words: [0; 64],
            len: 0,
        },
    }
}
