//! Acts of native servers by one look: words that are given as a slice, and the turn. What they tell is known by whoever makes them.
ghost use Rattle.std.specs.Prelude.{◌≡◌, ◌≤◌, IfNone, IfSome, length};
ghost use Rattle.fk_model.specs.declared.moves.Ask.TheVariants as asks;
ghost use Rattle.fk_model.specs.declared.moves.Said.TheVariants as says;
ghost use Rattle.fk_model.specs.Valid.{IsValid};
ghost use Rattle.fk_store.specs.Store.World.{world};
ghost use Rattle.fk_calls.specs.Calls.Acted.{HasActed, HasGiven};

use crate::acts::act::Act;
use crate::acts::allowing::is_allowed;
use crate::acts::judging;
use crate::acts::making::{gives, passes};
use crate::acts::moves::own_path;
use fk_model::Who;
use fk_store::Store;

/// To whom a native server gave words, and how many.
#[derive(Clone, Copy)]
pub struct Gave {
    pub client: Who,
    pub count: u8,
}

/// Gives words of a port's native server to its client, where that is ready and the client has room; else all stays as it is, and whether the act is ready
/// the general way tells.
pub fn give(store: &mut Store, port: Who, words: &[u64]) -> Option<Gave>
    requires valid { IsValid (world store.old) }
    requires few { length words.now ≤ 64 }
    ensures gave { IfSome result (λ gave. HasGiven store.old store.new port gave.client words.now gave.count) }
    ensures same { IfNone result (store.new ≡ store.old) }
{
    let Some(client) = store.client_at(port) else {
        return None;
    };
    let Some(act) = judging::give(store, port, words) else {
        return None;
    };
    if !is_allowed(store, port, &act) {
        return None;
    }
    own_path(store, port);
    match act {
        Act::Gives {
            client: receiver,
            to,
            into,
            count,
        } => {
            gives(store, words, receiver, to, into, count);
            Some(Gave { client, count })
        }
        _ => None,
    }
}

/// Hands the turn of a port's native server to its client, where that is ready, and tells who that is; else all stays as it is.
pub fn pass(store: &mut Store, port: Who) -> Option<Who>
    requires valid { IsValid (world store.old) }
    ensures passed { IfSome result (λ client. HasActed store.old store.new port client asks.Over (says.Over port)) }
    ensures same { IfNone result (store.new ≡ store.old) }
{
    let Some(client) = store.client_at(port) else {
        return None;
    };
    let Some(act) = judging::over(store, port) else {
        return None;
    };
    if !is_allowed(store, port, &act) {
        return None;
    }
    own_path(store, port);
    match act {
        Act::Passes {
            client: receiver,
            came,
        } => {
            passes(store, receiver, came);
            Some(client)
        }
        _ => None,
    }
}
