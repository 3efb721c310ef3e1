//! What whoever moves asks for, and which acts of servers are ready.
ghost use Rattle.std.specs.Prelude.{◌≡◌, ◌↔◌, ◌≤◌, IsTrue, None, Some, IfSome, IfNone, true, false, length, option_map};
ghost use Rattle.fk_kernel.specs.Events.{is_who};
ghost use Rattle.fk_kernel.specs.Kernels.{world_of as world};
ghost use Rattle.fk_model.specs.Whole.{are_words};
ghost use Rattle.fk_model.specs.Places.Ptr.{At};
ghost use Rattle.fk_model.specs.Valid.{is_served_port};
ghost use Rattle.fk_model.specs.Who.{event_of, named};
ghost use Rattle.fk_natives.specs.Natives.{gives_left};
ghost use Rattle.fk_served.specs.Acts.{HasNoAct, HaveNoActs, IsReadyAsked};
ghost use Rattle.fk_served.specs.Served.{asked, asked_of};
ghost use Rattle.laws_jobs.specs.Machines.{IsReadyAt};
ghost use Rattle.laws_moves.specs.Whole.Runnable.{has_all_words};

use crate::services::Services;
use fk_kernel::Kernel;
use fk_model::{Ask, Body, Move, Who};
use fk_natives::{Service, Side};

/// Whether a native server acts for whatever stands by a name: a served port. Whoever else that is runs.
pub fn is_served(kernel: &Kernel, who: Who) -> bool
    ensures { result ≡ is_served_port (world kernel.now) (At (named (world kernel.now) who)) }
{
    let store = kernel.store();
    store.names();
    matches!(store.at(who), Some(Body::Port { served: true, .. }))
}

/// What a mover asks for that is no job's porter: what it gives is words. Whoever isn't a served port runs.
pub fn asked_by<S: Service + Drop>(kernel: &Kernel, services: &Services<S>, who: Who) -> Option<Ask>
    ensures asked { result ≡ asked services.now.list (world kernel.now) who }
    ensures words { IfSome result (λ ask. has_all_words ask ≡ true) }
{
    if is_served(kernel, who) {
        services.ask(who)
    } else {
        Some(Ask::Run)
    }
}

/// The server of a port that stands there. Where there is none, whoever that is runs.
fn server_of<'a, S: Service + Drop>(
    kernel: &Kernel,
    services: &'a Services<S>,
    port: Who,
) -> Option<&'a S>
    ensures { asked services.now.list (world kernel.now) port ≡ asked_of (option_map (λ server. S.meaning server.now) result) }
{
    if is_served(kernel, port) {
        services.server(port)
    } else {
        None
    }
}

/// What the server of a port has left for its client, where it asks to give words, or to hand over: none in the latter case.
pub fn left_by<'a, S: Service + Drop>(
    kernel: &Kernel,
    services: &'a Services<S>,
    port: Who,
) -> Option<&'a [u64]>
    ensures asked { IfSome result (λ left. asked services.now.list (world kernel.now) port ≡ Some (gives_left left.now)) }
    ensures words { IfSome result (λ left. are_words left.now ≡ true) }
    ensures few { IfSome result (λ left. length left.now ≤ 64) }
{
    if is_served(kernel, port) {
        services.left(port)
    } else {
        None
    }
}

/// Whether a move of a user or a server is ready. What is given by it is words.
pub fn is_ready<S: Service + Drop>(kernel: &Kernel, services: &Services<S>, m: &Move) -> bool
    ensures ready { IsTrue result ↔ IsReadyAsked services.now.list (world kernel.now) m.now }
    ensures words { IfSome (asked services.now.list (world kernel.now) m.now.who) (λ ask. has_all_words ask ≡ true) }
{
    match asked_by(kernel, services, m.who) {
        Some(ask) => kernel.ready(m, &ask),
        None => false,
    }
}

/// The act of a server that picks nobody, where it is ready.
fn unpicked(kernel: &Kernel, port: Who, ask: &Ask) -> Option<Move>
    ensures ready { IfSome result (λ m. (m.who ≡ port) × IsReadyAt (world kernel.now) (event_of (world kernel.now) ask.now m)) }
    ensures none { IfNone result (IsReadyAt (world kernel.now)
        (event_of (world kernel.now) ask.now (record { who = port; pick = None })) → ⊥) }
{
    let m = Move {
        who: port,
        pick: None,
    };
    if kernel.ready(&m, ask) { Some(m) } else { None }
}

/// A ready act of the server of a port, by what it asks for. There is none exactly where it has none.
#[inline(never)]
fn asked_act<S: Service + Drop>(kernel: &Kernel, services: &Services<S>, port: Who) -> Option<Move>
    ensures who { IfSome result (λ m. m.who ≡ port) }
    ensures ready { IfSome result (λ m. IsReadyAsked services.now.list (world kernel.now) m) }
    ensures words { IfSome result (λ m. IfSome (asked services.now.list (world kernel.now) m.who) (λ ask. has_all_words ask ≡ true)) }
    ensures none { IfNone result (HasNoAct services.now.list (world kernel.now) port) }
{
    match asked_by(kernel, services, port)? {
        Ask::Run | Ask::Call { .. } => None,
        Ask::Accept => Some(Move {
            who: port,
            pick: Some(kernel.ready_accept(port)?),
        }),
        ask => unpicked(kernel, port, &ask),
    }
}

/// A ready act of the server of a port, by a look at its side of the talk first. What is asked for takes much room, so a server at its client's turn
/// isn't asked.
#[tactic(auto, using(crate::proofs::Idle::runs_alone, crate::proofs::Idle::asks_nothing))]
pub fn ready_act<S: Service + Drop>(
    kernel: &Kernel,
    services: &Services<S>,
    port: Who,
) -> Option<Move>
    ensures who { IfSome result (λ m. m.who ≡ port) }
    ensures ready { IfSome result (λ m. IsReadyAsked services.now.list (world kernel.now) m) }
    ensures words { IfSome result (λ m. IfSome (asked services.now.list (world kernel.now) m.who) (λ ask. has_all_words ask ≡ true)) }
    ensures none { IfNone result (HasNoAct services.now.list (world kernel.now) port) }
{
    let Some(server) = server_of(kernel, services, port) else {
        return None;
    };
    match server.side() {
        Side::Client => None,
        Side::Idle | Side::Own => asked_act(kernel, services, port),
    }
}

/// A ready act of a server from a place up to another, but of one that stands by a name. There is none exactly where none of them has one.
pub fn find_act<S: Service + Drop>(
    kernel: &Kernel,
    services: &Services<S>,
    but: Option<Who>,
    from: usize,
    to: usize,
) -> Option<Move>
    requires { to ≤ length services.now.list }
    ensures other { IfSome result (λ m. is_who but m.who ≡ false) }
    ensures ready { IfSome result (λ m. IsReadyAsked services.now.list (world kernel.now) m) }
    ensures words { IfSome result (λ m. IfSome (asked services.now.list (world kernel.now) m.who) (λ ask. has_all_words ask ≡ true)) }
    ensures none { IfNone result (HaveNoActs services.now.list (world kernel.now) but from to) }
{
    for at in from..to {
        if let Some(m) = act_unless(kernel, services, but, services.port(at)) {
            return Some(m);
        }
    }
    None
}

/// A ready act of the server of a port, where the port doesn't stand by a name.
pub fn act_unless<S: Service + Drop>(
    kernel: &Kernel,
    services: &Services<S>,
    but: Option<Who>,
    port: Who,
) -> Option<Move>
    ensures other { IfSome result (λ m. is_who but m.who ≡ false) }
    ensures ready { IfSome result (λ m. IsReadyAsked services.now.list (world kernel.now) m) }
    ensures words { IfSome result (λ m. IfSome (asked services.now.list (world kernel.now) m.who) (λ ask. has_all_words ask ≡ true)) }
    ensures none { IfNone result (is_who but port ≡ false → HasNoAct services.now.list (world kernel.now) port) }
{
    if but == Some(port) {
        return None;
    }
    ready_act(kernel, services, port)
}
