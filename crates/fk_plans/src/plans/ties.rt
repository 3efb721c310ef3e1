//! Talks, faults and their peers that lead to what is frozen.
ghost use Rattle.std.specs.Prelude.{◌≡◌};
ghost use Rattle.fk_model.specs.Freezing.{are_unfrozen, of_fault, of_talk};
ghost use Rattle.fk_model.specs.Objects.{Fault as Fault_by, Talk as Talk_by};
ghost use Rattle.fk_model.specs.Searches.{fault_pointers, option_list, peer_pointer, talk_pointers};
ghost use Rattle.fk_store.specs.Store.Paths.{path, place};
ghost use Rattle.fk_store.specs.Store.World.{world};

use fk_changes::deaths::{fault_leads_to_frozen, peer_leads_to_frozen, talk_leads_to_frozen};
use fk_model::Who;
use fk_store::Store;

/// Nothing is frozen to which the talk of a thread as a client leads.
pub fn is_talk_unfrozen(store: &Store, me: Who, client: Who) -> bool
    ensures { result ≡ are_unfrozen (world store.now) (place (path store.now) me)
        (option_list (of_talk talk_pointers) ((world store.now).body (place (path store.now) client))) }
{
    match store.thread(client) {
        Some(thread) => !talk_leads_to_frozen(store, me, thread.talk),
        None => true,
    }
}

/// Nothing is frozen to which the fault of a thread leads.
pub fn is_fault_unfrozen(store: &Store, me: Who, thread: Who) -> bool
    ensures { result ≡ are_unfrozen (world store.now) (place (path store.now) me)
        (option_list (of_fault fault_pointers) ((world store.now).body (place (path store.now) thread))) }
{
    match store.thread(thread) {
        Some(thread) => !fault_leads_to_frozen(store, me, thread.fault),
        None => true,
    }
}

/// The peer of the talk of a thread as a client isn't frozen.
pub fn is_peer_unfrozen(store: &Store, me: Who, client: Who) -> bool
    ensures { result ≡ are_unfrozen (world store.now) (place (path store.now) me)
        (option_list (of_talk (λ (talk : Talk_by). peer_pointer talk.peer)) ((world store.now).body (place (path store.now) client))) }
{
    match store.thread(client) {
        Some(thread) => match thread.talk {
            Some(talk) => !peer_leads_to_frozen(store, me, Some(talk.peer)),
            None => true,
        },
        None => true,
    }
}

/// The taker of the fault of a thread isn't frozen.
pub fn is_taker_unfrozen(store: &Store, me: Who, thread: Who) -> bool
    ensures { result ≡ are_unfrozen (world store.now) (place (path store.now) me)
        (option_list (of_fault (λ (fault : Fault_by). option_list peer_pointer fault.taker)) ((world store.now).body (place (path store.now) thread))) }
{
    match store.thread(thread) {
        Some(thread) => match thread.fault {
            Some(fault) => !peer_leads_to_frozen(store, me, fault.taker),
            None => true,
        },
        None => true,
    }
}
