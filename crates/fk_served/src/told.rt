//! What a server hears of a move.
ghost use Rattle.std.specs.Prelude.{◌≡◌, false, None, IfSome, option_map};
ghost use Rattle.fk_model.specs.declared.names.Who as whos;
ghost use Rattle.fk_served.specs.Served.{said_to, news_to};
ghost use Rattle.fk_natives.specs.Natives.{news_of, AreFew};

use fk_kernel::Told;
use fk_model::{Said, Who};
use fk_natives::Heard;
use fk_responders::first_words;

/// What a move tells the server of a port. Words are lent from what it says.
pub fn said_to(said: &Said, who: Who) -> Option<Heard<'_>>
    ensures news { option_map news_of result ≡ said_to said.now who }
    ensures few { IfSome result (λ heard. AreFew (news_of heard)) }
{
    match said {
        Said::Taken {
            port,
            client,
            turn,
            moved,
            ..
        } if who == *port => Some(Heard::Taken {
            client: *client,
            turn: *turn,
            moved: *moved,
        }),
        Said::Words { port, words, len } if who == *port => {
            Some(Heard::Words(first_words(words, *len)))
        }
        Said::Given { port, len } if who == *port => Some(Heard::Given(*len)),
        Said::Over { port } if who == *port => Some(Heard::Over),
        _ => None,
    }
}

/// What the server of a port hears of a move. That its talk has ended goes before all else.
pub fn heard_by(told: &Told, who: Who) -> Option<Heard<'_>>
    ensures news { option_map news_of result ≡ news_to told.now.said told.now.ended who }
    ensures few { IfSome result (λ heard. AreFew (news_of heard)) }
{
    if told.ended == Some(who) {
        return Some(Heard::Ended);
    }
    said_to(&told.said, who)
}

/// Whether a move may tell a server anything.
pub fn is_telling(told: &Told) -> bool
    ensures { result ≡ false → (who : whos.Who) → news_to told.now.said told.now.ended who ≡ None }
{
    told.ended.is_some() || !matches!(told.said, Said::Nothing | Said::Answer(_))
}
