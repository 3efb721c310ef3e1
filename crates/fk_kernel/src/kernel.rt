//! The kernel. Its contracts speak of paths and those of the store of names, so each call begins with the store's
//! `names`: it does nothing, and tells that the two agree, which a store keeps and only a call of it can say.
ghost use Rattle.std.specs.Prelude.{◌≡◌, ◌≤◌, ◌↔◌, true, false, IsTrue, IsOk, IfOk, IfSome, IfNone, IsSome, OnErr, None, Some, length, option_map};
ghost use Rattle.fk_model.specs.declared.moves.Ask.TheVariants as asks;
ghost use Rattle.fk_model.specs.declared.moves.Said.TheVariants as says;
ghost use Rattle.std.specs.Bool.{OnTrue, OnFalse};
ghost use Rattle.fk_model.specs.Outcomes.Said.{Nothing};
ghost use Rattle.fk_model.specs.Valid.{IsValid};
ghost use Rattle.fk_model.specs.Searches.{depth};
ghost use Rattle.fk_model.specs.Who.{event_of, named, space_born};
ghost use Rattle.fk_store.specs.Store.Moves.{said_by};
ghost use Rattle.fk_store.specs.Store.Paths.{place};
ghost use Rattle.fk_store.specs.Store.World.{world};
ghost use Rattle.fk_plans.specs.Plans.Hearers.{says_to, says_to_who, IsPadded};
ghost use Rattle.fk_plans.specs.Answers.Rooms.{IsRoom};
ghost use Rattle.fk_turns.specs.Steps.Judgements.{IsReadyMove};
ghost use Rattle.fk_turns.specs.Steps.Speaking.{said_of, HasSpokenWords};
ghost use Rattle.fk_turns.specs.Steps.Tried.{tried_of};
ghost use Rattle.laws_moves.specs.Prompt.Correct.{HasShapes};
ghost use Rattle.laws_moves.specs.Prompt.Events.{IsPrompt, IsCorrect};
ghost use Rattle.laws_moves.specs.Whole.Runnable.{IsRunnable};
ghost use Rattle.fk_model.specs.Endings.{has_ended};
ghost use Rattle.fk_turns.specs.Steps.Classes.{is_made};
ghost use Rattle.fk_turns.specs.Steps.Steps.{was_made, IsPut};
ghost use Rattle.fk_turns.specs.Steps.Waiting.{standing, ArePassed, AreWaiting};
ghost use Rattle.fk_waits.specs.Waits.Lists.{first_ready};
ghost use Rattle.fk_kernel.specs.Acted.{IsActed, IsGiven};
ghost use Rattle.fk_kernel.specs.Kernels.{path_of, standing_of, store_of, world_of};
ghost use Rattle.fk_kernel.specs.Events as events;
ghost use Rattle.fk_kernel.specs.Events.{is_fit_event, is_who, AreNamed, IsAcceptReady, IsAnyReady, IsIdleBetween, IsIdleUpTo, IsMoveReady};
ghost use Rattle.fk_kernel.specs.Events.{IsReadyBesides, IsReadyEvent, may_lack, step_of};

use fk_model::{Ask, Move, NoMemory, Said, Stage, Who};
use fk_store::Store;
use fk_turns::next::ready_move;
use fk_turns::steps::{Gone, Spoken, Told};
use fk_waits::Waits;
use fk_waits::turns::Turns;
use std::alloc::Global;
use std::marker::Model;

/// A store whose threads move, and where its user threads stand. Its world is valid.
#[derive(Drop)]
pub struct Kernel {
    pub(crate) store: Store,
    pub(crate) turns: Turns,
}

impl Model for Kernel {
    ghost use Rattle.fk_turns.specs.Steps.Waiting.{standing};
    ghost use Rattle.fk_kernel.specs.Kernels.{coded_kept, IsHeld, Kept};

    ghost Value = { Kept };

    ghost coded = { coded_kept };

    ghost view = { λ kernel. record { store = kernel.store; standing = standing kernel.turns.waits } };

    ghost invariant = { λ kernel. IsHeld kernel.store kernel.turns.waits kernel.turns.marks };
}

impl Kernel {
    /// The kernel of a store whose world is valid. An error says that memory is lacking.
    ///
    /// # Errors
    ///
    /// There is no memory for the lists of threads.
    pub fn of(alloc: Global, store: Store) -> Result<Kernel, NoMemory>
        requires valid { IsValid (world store) }
        ensures { IfOk result (λ kernel. store_of kernel ≡ store) }
    {
        let mut turns = fk_turns::moved::of(alloc, &store)?;
        // With room beforehand a move needn't look whether it wants some.
        turns.reserve()?;
        Ok(Kernel { store, turns })
    }

    /// Who is ready and who is queued at what. Each user's thread stands once, and none that is queued can move.
    pub fn waits(&self) -> &Waits
        ensures standing { standing result.now ≡ standing_of self.now }
        ensures waiting { AreWaiting (store_of self.now) result.now }
    {
        fk_turns::next::waiting(&self.turns, &self.store);
        self.turns.waits()
    }

    /// Its store.
    pub fn store(&self) -> &Store
        ensures { result.now ≡ store_of self.now }
    {
        &self.store
    }

    /// Its world is valid, and the path of a space is the one that the world finds by its birth number. What the types keep is
    /// seen where they are made alone; by this call it is had above.
    pub fn names(&self)
        ensures valid { IsValid (world_of self.now) }
        ensures born { path_of self.now ≡ space_born (world_of self.now) }
        ensures few { (world_of self.now).next ≤ depth }
    {
        self.store.names();
    }

    /// Its world is one of which the laws of runs speak, wherever it comes from: valid, with birth
    /// numbers below 2^32, 64 words in each page and 16 registers in each thread; those of a calling
    /// thread hold a call's code.
    pub fn is_runnable(&self)
        ensures runnable { IsRunnable (world_of self.now) }
        ensures shaped { HasShapes (world_of self.now) }
    {
        self.store.names();
        self.store.sizes();
    }

    /// Whether a move is ready. A move may name what isn't there, which is never ready, and needn't be
    /// fit.
    pub fn ready(&self, m: &Move, ask: &Ask) -> bool
        ensures ready { IsTrue result ↔ IsReadyEvent (world_of self.now) (event_of (world_of self.now) ask.now m.now) }
        ensures prompt { IsPrompt (world_of self.now) (event_of (world_of self.now) ask.now m.now) → IsTrue result }
    {
        self.store.names();
        fk_turns::steps::ready(&self.store, m, ask)
    }

    /// Whether a move is fit. All are but those of porters that make a talk or a fault again with words
    /// out of range, or with a server that serves already or doesn't live in the port's space.
    pub fn is_fit(&self, m: &Move, ask: &Ask) -> bool
        ensures { result ≡ is_fit_event (world_of self.now) (event_of (world_of self.now) ask.now m.now) }
    {
        self.store.names();
        fk_turns::steps::is_fit(&self.store, m, ask)
    }

    /// Makes a move, which is ready and fit, and gives what the move tells. Only a stage that makes an
    /// object or a page may lack memory, and then all stays as it is.
    ///
    /// # Errors
    ///
    /// There is no memory for an object or a page that the move makes; all is as before then.
    pub fn step(&mut self, m: &Move, ask: &Ask) -> Result<Said, NoMemory>
        requires ready { IsReadyEvent (world_of self.old) (event_of (world_of self.old) ask.now m.now) }
        requires fit { is_fit_event (world_of self.old) (event_of (world_of self.old) ask.now m.now) ≡ true }
        ensures step { IfOk result (λ said. step_of (world_of self.old) (event_of (world_of self.old) ask.now m.now)
            ≡ record { world = world_of self.new; said = said_by (path_of self.new) said }) }
        ensures correct { IfOk result (λ said. IsCorrect (world_of self.old) (event_of (world_of self.old) ask.now m.now)
            (world_of self.new) (said_by (path_of self.new) said)) }
        ensures padded { IfOk result (λ said. IsPadded said) }
        ensures placed { IfOk result (λ said. IsPut (store_of self.old) m.now ask.now (store_of self.new) (standing_of self.new)) }
        ensures lacking { OnErr result (self.new ≡ self.old) }
        ensures done { may_lack (world_of self.old) (event_of (world_of self.old) ask.now m.now) ≡ false → IsOk result }
    {
        self.store.names();
        self.store.sizes();
        fk_turns::steps::take(&mut self.store, &mut self.turns, m, ask)
    }

    /// Makes a move where it is ready, and gives what the move tells, and the port whose native server lost
    /// its client by it, as it was named before; none where the move isn't ready, and then all stays as it is. The
    /// move is fit. Only a stage that makes an object or a page may lack memory, and then too all stays as it is.
    ///
    /// # Errors
    ///
    /// There is no memory for an object or a page that the move makes; all is as before then.
    pub fn attempt(&mut self, m: &Move, ask: &Ask) -> Result<Option<Told>, NoMemory>
        requires fit { is_fit_event (world_of self.old) (event_of (world_of self.old) ask.now m.now) ≡ true }
        ensures made { IfOk result (λ tried. IfSome tried (λ told.
            IsReadyEvent (world_of self.old) (event_of (world_of self.old) ask.now m.now)
            × (step_of (world_of self.old) (event_of (world_of self.old) ask.now m.now)
            ≡ record { world = world_of self.new; said = said_by (path_of self.new) told.said }))) }
        ensures ended { IfOk result (λ tried. IfSome tried (λ told. (port : Who) →
            has_ended (world_of self.old) (world_of self.new) (named (world_of self.old) port) ≡ is_who told.ended port)) }
        ensures told { IfOk result (λ tried. IfSome tried (λ told. (port : Who) →
            says_to (step_of (world_of self.old) (event_of (world_of self.old) ask.now m.now)).said (named (world_of self.old) port)
            ≡ says_to_who told.said port)) }
        ensures unready { IfOk result (λ tried. IfNone tried (
            (IsReadyEvent (world_of self.old) (event_of (world_of self.old) ask.now m.now) → ⊥)
            × (self.new ≡ self.old))) }
        ensures prompt { IsPrompt (world_of self.old) (event_of (world_of self.old) ask.now m.now) → IfOk result IsSome }
        ensures correct { IfOk result (λ tried. IfSome tried (λ told.
            IsCorrect (world_of self.old) (event_of (world_of self.old) ask.now m.now)
            (world_of self.new) (said_by (path_of self.new) told.said))) }
        ensures padded { IfOk result (λ tried. IfSome tried (λ told. IsPadded told.said)) }
        ensures placed { OnTrue (was_made result) (IsPut (store_of self.old) m.now ask.now (store_of self.new) (standing_of self.new)) }
        ensures lacking { OnErr result (self.new ≡ self.old) }
        ensures done { may_lack (world_of self.old) (event_of (world_of self.old) ask.now m.now) ≡ false → IsOk result }
    {
        self.store.names();
        self.store.sizes();
        let tried = fk_turns::steps::attempt(&mut self.store, &mut self.turns, m, ask);
        // And so they do in the world that the move leaves.
        self.store.names();
        tried
    }

    /// Makes a porter's call where it is ready, as `attempt` does, and answers whether it was; what it tells, and the port whose native server lost
    /// its client by it, are laid into the room, which has zeros.
    ///
    /// # Errors
    ///
    /// There is no memory for an object or a page that the move makes; all is as before then.
    pub fn call(
        &mut self,
        m: &Move,
        stage: &Stage,
        words: &[u64; 64],
        told: &mut Told,
    ) -> Result<bool, NoMemory>
        requires fit { is_fit_event (world_of self.old) (event_of (world_of self.old) (asks.Call stage.now words.now) m.now) ≡ true }
        requires room { IsRoom told.old.said }
        ensures made { IfOk (tried_of result told.new) (λ tried. IfSome tried (λ told.
            IsReadyEvent (world_of self.old) (event_of (world_of self.old) (asks.Call stage.now words.now) m.now)
            × (step_of (world_of self.old) (event_of (world_of self.old) (asks.Call stage.now words.now) m.now)
            ≡ record { world = world_of self.new; said = said_by (path_of self.new) told.said }))) }
        ensures ended { IfOk (tried_of result told.new) (λ tried. IfSome tried (λ told. (port : Who) →
            has_ended (world_of self.old) (world_of self.new) (named (world_of self.old) port) ≡ is_who told.ended port)) }
        ensures told { IfOk (tried_of result told.new) (λ tried. IfSome tried (λ told. (port : Who) →
            says_to (step_of (world_of self.old) (event_of (world_of self.old) (asks.Call stage.now words.now) m.now)).said (named (world_of self.old) port)
            ≡ says_to_who told.said port)) }
        ensures unready { IfOk (tried_of result told.new) (λ tried. IfNone tried (
            (IsReadyEvent (world_of self.old) (event_of (world_of self.old) (asks.Call stage.now words.now) m.now) → ⊥)
            × (self.new ≡ self.old))) }
        ensures padded { IfOk (tried_of result told.new) (λ tried. IfSome tried (λ told. IsPadded told.said)) }
        ensures placed { OnTrue (was_made (tried_of result told.new))
            (IsPut (store_of self.old) m.now (asks.Call stage.now words.now) (store_of self.new) (standing_of self.new)) }
        ensures lacking { OnErr (tried_of result told.new) (self.new ≡ self.old) }
        ensures done { may_lack (world_of self.old) (event_of (world_of self.old) (asks.Call stage.now words.now) m.now) ≡ false
            → IsOk (tried_of result told.new) }
    {
        self.store.names();
        let made = fk_turns::steps::call(&mut self.store, &mut self.turns, m, stage, words, told);
        // And so they do in the world that the move leaves.
        self.store.names();
        made
    }

    /// Makes the next instruction of the user in a slot, or the next stage of its call where that tells nothing, where it is
    /// ready; else all stays as it is, and it may be told that no move of the user is ready. No native server loses its client by it.
    pub fn proceed(&mut self, who: Who) -> Gone
        ensures made { OnTrue (is_made result) (
            IsReadyEvent (world_of self.old) (event_of (world_of self.old) Ask.Run (record { who = who; pick = None }))
            × (step_of (world_of self.old) (event_of (world_of self.old) Ask.Run (record { who = who; pick = None }))
            ≡ record { world = world_of self.new; said = Nothing })) }
        ensures ended { OnTrue (is_made result) ((port : Who) → has_ended (world_of self.old) (world_of self.new) (named (world_of self.old) port) ≡ false) }
        ensures waits { result ≡ Gone.Waits → IsMoveReady (world_of self.old) (place (path_of self.old) who) → ⊥ }
        ensures placed { OnTrue (is_made result)
            (IsPut (store_of self.old) (record { who = who; pick = None }) Ask.Run (store_of self.new) (standing_of self.new)) }
        ensures same { OnFalse (is_made result) (self.new ≡ self.old) }
    {
        self.store.names();
        let gone = fk_turns::steps::proceed(&mut self.store, &mut self.turns, who);
        self.store.names();
        gone
    }

    /// The same of the user that has moved last: an instruction leaves it where it stands among the ready.
    pub fn proceed_on(&mut self, who: Who) -> Gone
        ensures made { OnTrue (is_made result) (
            IsReadyEvent (world_of self.old) (event_of (world_of self.old) Ask.Run (record { who = who; pick = None }))
            × (step_of (world_of self.old) (event_of (world_of self.old) Ask.Run (record { who = who; pick = None }))
            ≡ record { world = world_of self.new; said = Nothing })) }
        ensures ended { OnTrue (is_made result) ((port : Who) → has_ended (world_of self.old) (world_of self.new) (named (world_of self.old) port) ≡ false) }
        ensures waits { result ≡ Gone.Waits → IsMoveReady (world_of self.old) (place (path_of self.old) who) → ⊥ }
        ensures same { OnFalse (is_made result) (self.new ≡ self.old) }
    {
        self.store.names();
        let gone = fk_turns::steps::proceed_on(&mut self.store, &mut self.turns, who);
        self.store.names();
        gone
    }

    /// Gives words of a port's native server to its client, where that is ready and the client has room, and tells how many; else all stays as it is, and
    /// whether the act is ready `ready` tells.
    pub fn give(&mut self, port: Who, words: &[u64]) -> Option<u8>
        requires few { length words.now ≤ 64 }
        ensures gave { IfSome result (λ count. IsGiven self.old self.new port words.now count) }
        ensures same { IfNone result (self.new ≡ self.old) }
    {
        self.store.names();
        let gave = fk_turns::steps::give(&mut self.store, &mut self.turns, port, words);
        // And so they do in the world that the act leaves.
        self.store.names();
        gave
    }

    /// Hands the turn of a port's native server to its client, where that is ready; and whether it did. Else all stays as it is.
    pub fn pass(&mut self, port: Who) -> bool
        ensures passed { OnTrue result (IsActed self.old self.new port asks.Over (says.Over port)) }
        ensures same { OnFalse result (self.new ≡ self.old) }
    {
        self.store.names();
        let passed = fk_turns::steps::pass(&mut self.store, &mut self.turns, port);
        // And so they do in the world that the act leaves.
        self.store.names();
        passed
    }

    /// Makes the signal or the wait of the user in a slot, where it is at one, with whoever is queued first at the condition or at a port of the set, and gives
    /// whom it picks. Else, and wherever it declines, it gives none and all stays as it is. No native server loses its client by it.
    pub fn pick(&mut self, who: Who, stays: bool) -> Option<Who>
        ensures made { IfSome result (λ other.
            IsReadyEvent (world_of self.old) (event_of (world_of self.old) Ask.Run (record { who = who; pick = Some other }))
            × (step_of (world_of self.old) (event_of (world_of self.old) Ask.Run (record { who = who; pick = Some other }))
            ≡ record { world = world_of self.new; said = Nothing })) }
        ensures ended { IsSome result → (port : Who) → has_ended (world_of self.old) (world_of self.new) (named (world_of self.old) port) ≡ false }
        ensures placed { IfSome result (λ other. OnFalse stays
            (IsPut (store_of self.old) (record { who = who; pick = Some other }) Ask.Run (store_of self.new) (standing_of self.new))) }
        ensures same { IfNone result (self.new ≡ self.old) }
    {
        self.store.names();
        let other = fk_turns::steps::pick(&mut self.store, &mut self.turns, who, stays);
        // And so they do in the world that the stage leaves.
        self.store.names();
        other
    }

    /// Makes the next stage of the user in a slot, where that is a Send or an Over to a native server and is ready, and tells what its server hears: words stay
    /// in their page. Else all stays as it is, and whether the move is ready the general way tells. No native server loses its client by it.
    pub fn speak(&mut self, who: Who) -> Option<Spoken>
        ensures made { IfSome result (λ spoken.
            IsReadyEvent (world_of self.old) (event_of (world_of self.old) Ask.Run (record { who = who; pick = None }))
            × (step_of (world_of self.old) (event_of (world_of self.old) Ask.Run (record { who = who; pick = None }))
            ≡ record { world = world_of self.new; said = said_by (path_of self.new) (said_of (store_of self.new) spoken) })) }
        ensures ended { IsSome result → (port : Who) → has_ended (world_of self.old) (world_of self.new) (named (world_of self.old) port) ≡ false }
        ensures told { IfSome result (λ spoken. (port : Who) →
            says_to (step_of (world_of self.old) (event_of (world_of self.old) Ask.Run (record { who = who; pick = None }))).said
            (named (world_of self.old) port) ≡ says_to_who (said_of (store_of self.new) spoken) port) }
        ensures there { IfSome result (HasSpokenWords (store_of self.new)) }
        ensures same { IfNone result (self.new ≡ self.old) }
    {
        self.store.names();
        let spoken = fk_turns::steps::speak(&mut self.store, &mut self.turns, who);
        // And so they do in the world that the stage leaves.
        self.store.names();
        spoken
    }

    /// The move of the first of the ready threads that can move. Those before it are queued, each at its cause. There is none exactly where no user's move is
    /// ready, and then all are queued.
    pub fn next(&mut self) -> Option<Move>
        ensures ready { IfSome result (λ m. IsReadyEvent (world_of self.old) (event_of (world_of self.old) Ask.Run m)) }
        ensures none { IfNone result (IsAnyReady (world_of self.old) → ⊥) }
        ensures passed { ArePassed (store_of self.old) (standing_of self.old) (standing_of self.new) }
        ensures first { option_map (λ m. m.who) result ≡ first_ready (standing_of self.new).ready }
        ensures store { store_of self.new ≡ store_of self.old }
    {
        self.store.names();
        fk_turns::next::next(&mut self.turns, &self.store)
    }

    /// The same. It looks first at the users after this object in the order of spaces and slots, and then
    /// from the first on, at each once.
    pub fn next_after(&self, last: Option<Who>) -> Option<Move>
        ensures ready { IfSome result (λ m. IsReadyEvent (world_of self.now) (event_of (world_of self.now) Ask.Run m)) }
        ensures none { IfNone result (IsAnyReady (world_of self.now) → ⊥) }
    {
        self.store.names();
        match self.ready_between(last, None, None) {
            Some(m) => Some(m),
            None => self.ready_up_to(last, None),
        }
    }

    /// The move that comes next of any user but one. There is none exactly where no such move is ready.
    pub fn next_besides(&mut self, besides: Option<Who>) -> Option<Move>
        ensures ready { IfSome result (λ m. IsReadyBesides (world_of self.old) besides m) }
        ensures none { IfNone result ((m : _) → IsReadyBesides (world_of self.old) besides m → ⊥) }
        ensures store { store_of self.new ≡ store_of self.old }
    {
        let next = self.next();
        self.unless(next, besides)
    }

    /// The move that comes next, unless it is this one's: then another is sought.
    fn unless(&self, next: Option<Move>, besides: Option<Who>) -> Option<Move>
        requires ready { IfSome next (λ m. IsReadyEvent (world_of self.now) (event_of (world_of self.now) Ask.Run m)) }
        requires none { IfNone next (IsAnyReady (world_of self.now) → ⊥) }
        ensures ready { IfSome result (λ m. IsReadyBesides (world_of self.now) besides m) }
        ensures none { IfNone result ((m : _) → IsReadyBesides (world_of self.now) besides m → ⊥) }
    {
        match next {
            Some(m) => {
                if besides == Some(m.who) {
                    return self.any_besides(besides);
                }
                Some(m)
            }
            None => None,
        }
    }

    /// A move that is ready of any user but one, where nothing is to change: of the first of the ready, or else sought among all. There is none
    /// exactly where no such move is.
    pub fn any_besides(&self, besides: Option<Who>) -> Option<Move>
        ensures ready { IfSome result (λ m. IsReadyBesides (world_of self.now) besides m) }
        ensures none { IfNone result ((m : _) → IsReadyBesides (world_of self.now) besides m → ⊥) }
    {
        self.store.names();
        match self.front_besides(besides) {
            Some(m) => Some(m),
            None => self.ready_between(None, None, besides),
        }
    }

    /// A ready move of the first of the ready, unless it is this one.
    fn front_besides(&self, besides: Option<Who>) -> Option<Move>
        ensures ready { IfSome result (λ m. IsReadyMove (store_of self.now) m asks.Run) }
        ensures other { IfSome result (λ m. is_who besides m.who ≡ false) }
    {
        match self.turns.next() {
            Some(who) => self.ready_besides(who, besides),
            None => None,
        }
    }

    /// A ready move of a user among those up to an object, but one.
    fn ready_up_to(&self, last: Option<Who>, besides: Option<Who>) -> Option<Move>
        ensures ready { IfSome result (λ m. IsReadyMove (store_of self.now) m asks.Run) }
        ensures other { IfSome result (λ m. is_who besides m.who ≡ false) }
        ensures none { IfNone result (IsIdleUpTo (store_of self.now) last besides) }
    {
        match last {
            Some(_) => self.ready_between(None, last, besides),
            None => None,
        }
    }

    /// The move of the first user that is ready, in the order of spaces and slots, after an object and up
    /// to another, but of one.
    fn ready_between(
        &self,
        after: Option<Who>,
        last: Option<Who>,
        besides: Option<Who>,
    ) -> Option<Move>
        ensures ready { IfSome result (λ m. IsReadyMove (store_of self.now) m asks.Run) }
        ensures other { IfSome result (λ m. is_who besides m.who ≡ false) }
        ensures none { IfNone result (IsIdleBetween (store_of self.now) after last besides) }
        ensures named { AreNamed (store_of self.now) }
    {
        let mut at = self.store.after(after);
        while let Some(who) = at {
            if is_past(who, last) {
                return None;
            }
            if let Some(m) = self.ready_besides(who, besides) {
                return Some(m);
            }
            at = self.store.after(Some(who));
        }
        None
    }

    /// A move of the user in a slot that is ready, unless it is this one.
    fn ready_besides(&self, who: Who, besides: Option<Who>) -> Option<Move>
        ensures ready { IfSome result (λ m. IsReadyMove (store_of self.now) m asks.Run) }
        ensures other { IfSome result (λ m. is_who besides m.who ≡ false) }
        ensures none { IfNone result (is_who besides who ≡ false → IsMoveReady (world_of self.now) (place (path_of self.now) who) → ⊥) }
    {
        if besides == Some(who) {
            return None;
        }
        self.ready_move(who)
    }

    /// A move of the user in a slot that is ready. It picks somebody where its stage asks for that.
    fn ready_move(&self, who: Who) -> Option<Move>
        ensures ready { IfSome result (λ m. IsReadyMove (store_of self.now) m asks.Run) }
        ensures who { IfSome result (λ m. m.who ≡ who) }
        ensures none { IfNone result (IsMoveReady (world_of self.now) (place (path_of self.now) who) → ⊥) }
    {
        ready_move(&self.store, who)
    }

    /// Whom the native server of a port may accept: a thread at its connect there, or one whose talk waits
    /// there. There is nobody exactly where no accept is ready.
    pub fn ready_accept(&self, port: Who) -> Option<Who>
        ensures ready { IfSome result (λ who. IsReadyEvent (world_of self.now)
            (event_of (world_of self.now) Ask.Accept (record { who = port; pick = Some who }))) }
        ensures none { IfNone result (IsAcceptReady (world_of self.now) (named (world_of self.now) port) → ⊥) }
    {
        self.store.names();
        fk_turns::picks::ready_accept(&self.store, port)
    }
}

/// An object comes after another in the order of spaces and slots, where there is another.
fn is_past(who: Who, last: Option<Who>) -> bool
    ensures { result ≡ events.is_past who last }
{
    match last {
        Some(last) => last < who,
        None => false,
    }
}
