//! What native servers ask for, words and all.
ghost use Rattle.std.specs.Prelude.{◌≡◌, ◌≤◌, length};
ghost use Rattle.fk_natives.specs.Natives.{asks_for, gives_left};

use crate::service::{Service, Side};
use fk_model::{Ask, Reply};
use fk_responders::reply_of;

/// What a server asks for at its turn: it gives what is left of its reply, or hands over.
#[tactic(auto, using(crate::proofs::Asked::gives_some))]
fn give(left: &[u64]) -> Ask
    requires few { length left.now ≤ 64 }
    ensures { result ≡ gives_left left.now }
{
    if left.is_empty() {
        return Ask::Over;
    }
    let Reply { words, len } = reply_of(left);
    Ask::Give { words, len }
}

/// What a server asks for: nothing exactly at its client's turn. It is laid out with room for 64 words, for who makes any move; who acts for a server looks at
/// its side and at what is left.
pub fn ask<S: Service>(service: &S) -> Option<Ask>
    ensures { result ≡ asks_for (S.meaning service.now) }
{
    match service.side() {
        Side::Idle => Some(Ask::Accept),
        Side::Client => None,
        Side::Own => Some(give(service.left())),
    }
}
