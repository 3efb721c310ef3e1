//! A host driven with its pager.
ghost use Rattle.std.specs.Bool.{OnFalse, OnTrue};
ghost use Rattle.std.specs.Prelude.{◌≡◌, ◌∷◌, ◌++◌, ◌+◌, ◌<◌, ◌≤◌, [], if◌then◌else◌, IfOk, IfSome, IfNone, OnOk, length, map, replicate, false, true, None, Some, option_map, unwrap_or};
ghost use Rattle.std.specs.Option.{option_copied};
ghost use Rattle.fk_host.specs.Rooms.{IsRoom};
ghost use Rattle.fk_model.specs.declared.limits.TheConstants.{PAGE_WORDS};
ghost use Rattle.fk_model.specs.Who.{named};
ghost use Rattle.fk_store.specs.Store.World.{place_of};
ghost use Rattle.fk_host.specs.Kernels.{world_of as world};
ghost use Rattle.fk_host.specs.Served.{AllFit};
ghost use Rattle.fk_paging.specs.Pagers.{state_of, IsStill};
ghost use Rattle.laws_filled.specs.Pager as pagers;
ghost use Rattle.laws_filled.specs.Pager.{first, is_opening, IsPick, IsOwn};
ghost use Rattle.fk_pager.specs.Driven.{moment, desk, is_waiting, Heard, HearsWell, HasGrown, IsDriven, IsTurnReady, Drives};
ghost use Rattle.fk_pager.specs.Desks.{desk_of_root};
ghost use Rattle.fk_pager.specs.Ends.{IsAnyReady, IsAtRest, IsEnd, IsOtherReady, IsPagerReady};
ghost use Rattle.fk_pager.specs.Paged.{opened_by};
ghost use Rattle.fk_pager.specs.Runs.{IsPagersMove, IsOthersMove};
ghost use Rattle.fk_pager.specs.Sane.{IsSane};
ghost use Rattle.laws_migrate.specs.Porters.{HasPorter};

use crate::desks::in_root;
use crate::faults::has_fault;
use fk_extras::Paged;
use fk_host::{Host, Told};
use fk_model::limits::LAST_PORTER_SLOT;
use fk_model::status::HELD;
use fk_model::{Answer, Ask, List, Move, NoMemory, Said, Who};
use fk_natives::Service;
use fk_paging::{Pager, Phase};
use fk_report::{End, all_halted};
use fk_responders::Table;
use std::alloc::Global;

/// How many moves a thread makes in a row, while it need not be chosen.
const ROW: u64 = 64;

/// Whose move comes next: the pager's, or that of a user or of a native server.
#[derive(Clone, Copy)]
pub enum Turn {
    Pager(Move),
    Other(Move),
}

/// A host whose root has a pager, with the moves that were made so far.
#[derive(Drop)]
pub struct PagedRun<S: Service + Drop> {
    host: Host<S>,
    pager: Pager,
    /// The slot of the port at which it takes faults.
    port: u8,
    /// Its last call was refused, since the space is held: others go first.
    held: bool,
    /// Whose fault it took last, where nobody else has moved since: that thread goes before others, and so two pages suffice for each instruction.
    resumed: Option<Who>,
    /// Who moved last, where that was no pager, and how many moves it has made in a row since it was chosen.
    last: Option<Who>,
    row: u64,
    /// Room for what its calls tell.
    told: Told,
    /// How many moves its opening has made.
    opened: u64,
    history: Vec<Move>,
}

/// A pager hears what its call was answered, and whether that was a refusal since the space is held.
fn hear(pager: &mut Pager, said: &Said) -> bool
    requires sane { IsSane pager.old }
    requires well { HearsWell pager.old said.now }
    ensures heard { Heard pager.old said.now pager.new }
    ensures sane { IsSane pager.new }
    ensures still { IsStill pager.old pager.new }
{
    match said {
        Said::Answer(answer) => {
            pager.absorb(answer);
            answer.status == HELD
        }
        Said::Nothing
        | Said::Taken { .. }
        | Said::Words { .. }
        | Said::Given { .. }
        | Said::Full { .. }
        | Said::Over { .. }
        | Said::Ended { .. } => false,
    }
}

/// An answer has zeros again.
fn clear_answer(answer: &mut Answer)
    ensures { answer.new ≡ record { status = 0; words = replicate PAGE_WORDS 0; len = 0 } }
{
    answer.status = 0;
    answer.words = [0; 64];
    answer.len = 0;
}

/// Room has zeros again, whatever it held. What a pager is told is an answer, which stays where it is.
fn clear(told: &mut Told)
    ensures { IsRoom told.new.said }
{
    match &mut told.said {
        Said::Answer(answer) => clear_answer(answer),
        _ => *told = fk_host::room(),
    }
}

/// Words, or where there are none others.
fn words_or<'a>(words: Option<&'a [u64; 64]>, others: &'a [u64; 64]) -> &'a [u64; 64]
    ensures { result.now ≡ unwrap_or (option_copied words.entry) others.now }
{
    match words {
        Some(words) => words,
        None => others,
    }
}

/// Whose fault the pager took last, when its call had this pick.
fn taken_last(before: Option<Who>, pick: Option<Who>) -> Option<Who> {
    match pick {
        Some(who) => Some(who),
        None => before,
    }
}

/// A move comes to others so many times.
fn push_all(moves: &mut Vec<Move>, m: Move, times: u64) -> Result<(), NoMemory>
    ensures { OnOk result (moves.new.items ≡ moves.old.items ++ replicate times m) }
{
    for _k in 0..times {
        moves.push(m)?;
    }
    Ok(())
}

/// How many moves an opening has made, one more if this is one of them.
fn one_more_if(opened: u64, opening: bool) -> u64
    requires { opened < 18446744073709551615 }
    ensures { result ≡ opened + (if opening then 1 else 0) }
{
    if opening { opened + 1 } else { opened }
}

impl<S: Service + Drop> PagedRun<S> {
    /// A pager that hasn't begun, beside a host. `NoMemory` where there is none for its list.
    ///
    /// # Errors
    ///
    /// There is no memory for its list.
    pub fn new(
        alloc: Global,
        host: Host<S>,
        slot: u8,
        port: u8,
        set: u8,
        room: u16,
    ) -> Result<PagedRun<S>, NoMemory>
        requires low { slot ≤ 239 }
        requires some { 1 ≤ room }
        requires most { room ≤ 256 }
        requires porter { HasPorter (world host.kernel) }
        ensures driven { IfOk result (λ run. IsDriven run) }
        ensures host { IfOk result (λ run. run.host ≡ host) }
        ensures here { IfOk result (λ run. desk run ≡ desk_of_root slot port set room) }
        ensures moment { IfOk result (λ run. moment run
            ≡ record { world = world host.kernel; services = host.services.list; state = first; opened = 0 }) }
        ensures history { IfOk result (λ run. run.history.items ≡ []) }
    {
        let pager = Pager::new(alloc, slot, set, room)?;
        Ok(PagedRun {
            host,
            pager,
            port,
            held: false,
            resumed: None,
            last: None,
            row: 0,
            told: fk_host::room(),
            opened: 0,
            history: Vec::new(alloc),
        })
    }

    /// The host.
    pub fn host(&self) -> &Host<S>
        ensures { result.now ≡ self.now.host }
    {
        &self.host
    }

    /// The moves so far.
    pub fn history(&self) -> &[Move]
        ensures { result.now ≡ self.now.history.items }
    {
        self.history.as_slice()
    }

    /// How many faults the pager has ended.
    pub fn faults(&self) -> u64
        ensures { result ≡ (moment self.now).state.faults }
    {
        self.pager.faults()
    }

    /// Whether the pager takes the pages that were home at first.
    fn is_opening(&self) -> bool
        ensures { result ≡ is_opening (moment self.now).state.phase }
    {
        matches!(
            self.pager.phase,
            Phase::Seeking { .. } | Phase::Taking { .. }
        )
    }

    // ---- whose move comes next

    /// The pager's call, with this pick, if it is ready.
    fn call(&self, pick: Option<Who>) -> Option<Move>
        requires picks { IsPick (desk self.now) (moment self.now).state (moment self.now).world (moment self.now).state.phase
            (option_map (named (moment self.now).world) pick) }
        ensures ready { IfSome result (λ m. IsPagersMove (desk self.now) (moment self.now) m) }
        ensures none { IfNone result (IsOwn (desk self.now) (moment self.now).world (moment self.now).state
            (option_map (named (moment self.now).world) pick) → ⊥) }
    {
        self.host.kernel().names();
        let m = Move {
            who: in_root(LAST_PORTER_SLOT as u8),
            pick,
        };
        if self.host.ready(&m, &self.pager.next()) {
            Some(m)
        } else {
            None
        }
    }

    /// Whether this thread has a fault of the pager's, so that its wait may pick it.
    fn may_pick(&self, who: Who) -> bool
        requires waits { (moment self.now).state.phase ≡ pagers.Waiting }
        ensures picks { OnTrue result (IsPick (desk self.now) (moment self.now).state (moment self.now).world (moment self.now).state.phase
            (Some (named (moment self.now).world who))) }
        ensures none { OnFalse result (IsOwn (desk self.now) (moment self.now).world (moment self.now).state
            (Some (place_of self.now.host.kernel.store who)) → ⊥) }
    {
        let kernel = self.host.kernel();
        kernel.names();
        let pages = self.pager.pages.as_slice();
        has_fault(kernel.store(), pages, in_root(self.port), who)
    }

    /// The wait that takes the fault of this thread, if that is one of the pager's and may be taken.
    fn take(&self, who: Who) -> Option<Move>
        requires waits { (moment self.now).state.phase ≡ pagers.Waiting }
        ensures ready { IfSome result (λ m. IsPagersMove (desk self.now) (moment self.now) m) }
        ensures none { IfNone result (IsOwn (desk self.now) (moment self.now).world (moment self.now).state
            (Some (place_of self.now.host.kernel.store who)) → ⊥) }
    {
        self.host.kernel().names();
        if self.may_pick(who) {
            return self.call(Some(who));
        }
        None
    }

    /// The wait that takes a fault of the pager's. Those that have one lead to its port.
    fn wait(&self) -> Option<Move>
        requires waits { (moment self.now).state.phase ≡ pagers.Waiting }
        ensures ready { IfSome result (λ m. IsPagersMove (desk self.now) (moment self.now) m) }
        ensures none { IfNone result (IsPagerReady (desk self.now) (moment self.now) → ⊥) }
    {
        let mut leaders = self.host.kernel().store().leaders(in_root(self.port));
        while let Some(who) = leaders.next() {
            if let Some(m) = self.take(who) {
                return Some(m);
            }
        }
        // Rings that were given up, which no well-formed store does, tell nobody: then all objects are looked at.
        if leaders.are_all() {
            return None;
        }
        self.wait_for_any()
    }

    /// The wait that takes a fault of the pager's, by a look at all objects.
    fn wait_for_any(&self) -> Option<Move>
        requires waits { (moment self.now).state.phase ≡ pagers.Waiting }
        ensures ready { IfSome result (λ m. IsPagersMove (desk self.now) (moment self.now) m) }
        ensures none { IfNone result (IsPagerReady (desk self.now) (moment self.now) → ⊥) }
    {
        let store = self.host.kernel().store();
        let mut at = store.after(None);
        while let Some(who) = at {
            if let Some(m) = self.take(who) {
                return Some(m);
            }
            at = store.after(Some(who));
        }
        None
    }

    /// The first of those that lead to its port with a fault of the pager's. Whether it may be taken tells the call.
    fn first_fault(&self) -> Option<Who>
        requires waits { (moment self.now).state.phase ≡ pagers.Waiting }
        ensures picks { IfSome result (λ who. IsPick (desk self.now) (moment self.now).state (moment self.now).world (moment self.now).state.phase
            (Some (named (moment self.now).world who))) }
    {
        let mut leaders = self.host.kernel().store().leaders(in_root(self.port));
        while let Some(who) = leaders.next() {
            if self.may_pick(who) {
                return Some(who);
            }
        }
        None
    }

    /// Whether the pager waits for a fault.
    fn is_waiting(&self) -> bool
        ensures { result ≡ is_waiting (moment self.now).state.phase }
    {
        matches!(self.pager.phase, Phase::Waiting)
    }

    /// The pager's move, if one is ready.
    fn pagers_move(&self) -> Option<Move>
        ensures ready { IfSome result (λ m. IsPagersMove (desk self.now) (moment self.now) m) }
        ensures none { IfNone result (IsPagerReady (desk self.now) (moment self.now) → ⊥) }
    {
        if self.is_waiting() {
            self.wait()
        } else {
            self.call(None)
        }
    }

    /// The move of the thread whose fault was taken last, if it is ready.
    fn resumed_move(&self) -> Option<Move>
        requires opened { is_opening (moment self.now).state.phase ≡ false }
        ensures ready { IfSome result (λ m. IsTurnReady (desk self.now) (moment self.now) (Turn.Other m)) }
    {
        let who = self.resumed?;
        self.host.kernel().names();
        let m = Move { who, pick: None };
        if self.host.ready(&m, &Ask::Run) {
            Some(m)
        } else {
            None
        }
    }

    /// A user's or a native server's move, if one is ready: that of the thread whose fault was taken last before others.
    fn others_move(&mut self) -> Option<Move>
        requires opened { is_opening (moment self.old).state.phase ≡ false }
        ensures ready { IfSome result (λ m. IsTurnReady (desk self.old) (moment self.old) (Turn.Other m)) }
        ensures none { IfNone result (IsOtherReady (moment self.old) → ⊥) }
        ensures moment { moment self.new ≡ moment self.old }
        ensures pager { self.new.pager ≡ self.old.pager }
        ensures port { self.new.port ≡ self.old.port }
        ensures history { self.new.history ≡ self.old.history }
        ensures opened { self.new.opened ≡ self.old.opened }
    {
        match self.resumed_move() {
            Some(m) => Some(m),
            None => self.any_others_move(),
        }
    }

    /// A user's or a native server's move, whoever it is, if one is ready.
    fn any_others_move(&mut self) -> Option<Move>
        requires opened { is_opening (moment self.old).state.phase ≡ false }
        ensures ready { IfSome result (λ m. IsTurnReady (desk self.old) (moment self.old) (Turn.Other m)) }
        ensures none { IfNone result (IsOtherReady (moment self.old) → ⊥) }
        ensures moment { moment self.new ≡ moment self.old }
        ensures pager { self.new.pager ≡ self.old.pager }
        ensures port { self.new.port ≡ self.old.port }
        ensures history { self.new.history ≡ self.old.history }
        ensures opened { self.new.opened ≡ self.old.opened }
    {
        self.host.kernel().names();
        self.host.choose()
    }

    /// Whose move comes next: the pager's where one is ready, but after a refusal HELD another's goes first. While it opens no other moves.
    fn choose(&mut self) -> Option<Turn>
        requires driven { IsDriven self.old }
        ensures ready { IfSome result (λ turn. IsTurnReady (desk self.old) (moment self.old) turn) }
        ensures none { IfNone result (IsAnyReady (desk self.old) (moment self.old) → ⊥) }
        ensures driven { IsDriven self.new }
        ensures moment { moment self.new ≡ moment self.old }
        ensures pager { self.new.pager ≡ self.old.pager }
        ensures port { self.new.port ≡ self.old.port }
        ensures history { self.new.history ≡ self.old.history }
    {
        if self.held && !self.is_opening() {
            return self.choose_other();
        }
        self.host.kernel().names();
        match self.pagers_move() {
            Some(m) => Some(Turn::Pager(m)),
            None => match self.others_move() {
                Some(m) => Some(Turn::Other(m)),
                None => None,
            },
        }
    }

    /// Whose move comes next where another's than the pager's goes first.
    fn choose_other(&mut self) -> Option<Turn>
        requires driven { IsDriven self.old }
        requires opened { is_opening (moment self.old).state.phase ≡ false }
        ensures ready { IfSome result (λ turn. IsTurnReady (desk self.old) (moment self.old) turn) }
        ensures none { IfNone result (IsAnyReady (desk self.old) (moment self.old) → ⊥) }
        ensures driven { IsDriven self.new }
        ensures moment { moment self.new ≡ moment self.old }
        ensures pager { self.new.pager ≡ self.old.pager }
        ensures port { self.new.port ≡ self.old.port }
        ensures history { self.new.history ≡ self.old.history }
    {
        match self.others_move() {
            Some(m) => Some(Turn::Other(m)),
            None => match self.pagers_move() {
                Some(m) => Some(Turn::Pager(m)),
                None => None,
            },
        }
    }

    /// Who goes on before anybody is chosen: the thread whose fault was taken last, once that is ended.
    fn served(&self) -> Option<Who> {
        if self.is_waiting() {
            self.resumed
        } else {
            None
        }
    }

    // ---- turns

    /// The pager's porter makes the call that it asks for, with this pick, where that is ready, and the pager hears the answer; and whether it did. Else all
    /// stays as it is.
    fn try_own(&mut self, table: &Table, pick: Option<Who>) -> Result<bool, NoMemory>
        requires driven { IsDriven self.old }
        requires picks { IsPick (desk self.old) (moment self.old).state (moment self.old).world (moment self.old).state.phase
            (option_map (named (moment self.old).world) pick) }
        requires fits { AllFit (map (λ r. r.rule) table.now.list.items) self.old.host.services.list }
        ensures drives { OnOk result (Drives self.old self.new) }
        ensures driven { OnOk result (IsDriven self.new) }
        ensures fits { OnOk result (AllFit (map (λ r. r.rule) table.now.list.items) self.new.host.services.list) }
        ensures grown { IfOk result (λ made. HasGrown made (length self.old.history.items + 1) (length self.old.history.items)
            (length self.new.history.items)) }
        ensures unready { IfOk result (λ made. OnFalse made (IsOwn (desk self.old) (moment self.old).world (moment self.old).state
            (option_map (named (moment self.old).world) pick) → ⊥)) }
    {
        self.history.reserve(1)?;
        // There is room for another, so a number of the moves can be told.
        let _room = self.history.capacity();
        let kernel = self.host.kernel();
        kernel.names();
        kernel.is_runnable();
        let m = Move {
            who: in_root(LAST_PORTER_SLOT as u8),
            pick,
        };
        let opening = self.is_opening();
        let stage = self.pager.stage();
        let none = [0; 64];
        let words = words_or(self.pager.gives(), &none);
        clear(&mut self.told);
        if !self.host.call(table, &m, &stage, words, &mut self.told)? {
            return Ok(false);
        }
        self.history.push_reserved(m);
        self.held = hear(&mut self.pager, &self.told.said);
        self.resumed = taken_last(self.resumed, pick);
        self.last = self.served();
        self.row = 0;
        self.opened = one_more_if(self.opened, opening);
        Ok(true)
    }

    /// Makes the pager's call, where it is ready with the first fault that it may take, if it takes one; and whether it did. Whether it is ready is judged as it
    /// is made. Where it does nothing, whoever chooses looks on.
    fn go_own(&mut self, table: &Table) -> Result<bool, NoMemory>
        requires driven { IsDriven self.old }
        requires fits { AllFit (map (λ r. r.rule) table.now.list.items) self.old.host.services.list }
        ensures drives { OnOk result (Drives self.old self.new) }
        ensures driven { OnOk result (IsDriven self.new) }
        ensures fits { OnOk result (AllFit (map (λ r. r.rule) table.now.list.items) self.new.host.services.list) }
        ensures grown { IfOk result (λ made. HasGrown made (length self.old.history.items + 1) (length self.old.history.items)
            (length self.new.history.items)) }
    {
        if self.held {
            return Ok(false);
        }
        if !self.is_waiting() {
            return self.try_own(table, None);
        }
        match self.first_fault() {
            Some(who) => self.try_own(table, Some(who)),
            None => Ok(false),
        }
    }

    /// The pager's porter makes the call that it asks for, which is ready.
    fn own_turn(&mut self, table: &Table, m: Move) -> Result<(), NoMemory>
        requires driven { IsDriven self.old }
        requires ready { IsPagersMove (desk self.old) (moment self.old) m }
        requires fits { AllFit (map (λ r. r.rule) table.now.list.items) self.old.host.services.list }
        ensures drives { OnOk result (Drives self.old self.new) }
        ensures driven { OnOk result (IsDriven self.new) }
        ensures fits { OnOk result (AllFit (map (λ r. r.rule) table.now.list.items) self.new.host.services.list) }
        ensures longer { OnOk result (length self.new.history.items ≡ length self.old.history.items + 1) }
    {
        if self.try_own(table, m.pick)? {
            Ok(())
        } else {
            unreachable!()
        }
    }

    /// A user or a native server makes its move.
    fn others_turn(&mut self, table: &Table, m: Move) -> Result<(), NoMemory>
        requires driven { IsDriven self.old }
        requires ready { IsTurnReady (desk self.old) (moment self.old) (Turn.Other m) }
        requires fits { AllFit (map (λ r. r.rule) table.now.list.items) self.old.host.services.list }
        ensures drives { OnOk result (Drives self.old self.new) }
        ensures driven { OnOk result (IsDriven self.new) }
        ensures fits { OnOk result (AllFit (map (λ r. r.rule) table.now.list.items) self.new.host.services.list) }
        ensures longer { OnOk result (self.new.history.items ≡ self.old.history.items ++ m ∷ []) }
    {
        self.history.reserve(1)?;
        self.host.turn(table, &m, &Ask::Run)?;
        self.history.push_reserved(m);
        self.held = false;
        self.resumed = None;
        self.last = self.unless_faulted(m.who);
        self.row = 0;
        Ok(())
    }

    /// The turn is made.
    fn make(&mut self, table: &Table, turn: Turn) -> Result<(), NoMemory>
        requires driven { IsDriven self.old }
        requires ready { IsTurnReady (desk self.old) (moment self.old) turn }
        requires fits { AllFit (map (λ r. r.rule) table.now.list.items) self.old.host.services.list }
        ensures drives { OnOk result (Drives self.old self.new) }
        ensures driven { OnOk result (IsDriven self.new) }
        ensures fits { OnOk result (AllFit (map (λ r. r.rule) table.now.list.items) self.new.host.services.list) }
        ensures longer { OnOk result (length self.new.history.items ≡ length self.old.history.items + 1) }
    {
        match turn {
            Turn::Pager(m) => self.own_turn(table, m),
            Turn::Other(m) => self.others_turn(table, m),
        }
    }

    /// The thread that moved last makes instructions one after the other, at most so many; and whether it made any.
    fn run_on(&mut self, who: Who, most: u64) -> Result<bool, NoMemory>
        requires driven { IsDriven self.old }
        requires opened { is_opening (moment self.old).state.phase ≡ false }
        ensures drives { OnOk result (Drives self.old self.new) }
        ensures driven { OnOk result (IsDriven self.new) }
        ensures services { self.new.host.services.list ≡ self.old.host.services.list }
        ensures opened { is_opening (moment self.new).state.phase ≡ false }
        ensures grown { IfOk result (λ made. HasGrown made (length self.old.history.items + most) (length self.old.history.items)
            (length self.new.history.items)) }
    {
        let made = self.host.run_on(who, most);
        push_all(&mut self.history, Move { who, pick: None }, made)?;
        self.row = self.row.saturating_add(made);
        Ok(made > 0)
    }

    /// The thread that moved last makes its next instruction, or a stage that tells nothing; and whether it did. Where it raised a fault, or did nothing, it
    /// doesn't go on.
    fn proceed_on(&mut self, who: Who) -> Result<bool, NoMemory>
        requires driven { IsDriven self.old }
        requires opened { is_opening (moment self.old).state.phase ≡ false }
        ensures drives { OnOk result (Drives self.old self.new) }
        ensures driven { OnOk result (IsDriven self.new) }
        ensures services { self.new.host.services.list ≡ self.old.host.services.list }
        ensures grown { IfOk result (λ made. HasGrown made (length self.old.history.items + 1) (length self.old.history.items)
            (length self.new.history.items)) }
    {
        self.history.reserve(1)?;
        self.host.kernel().names();
        if self.host.proceed_on(who) {
            self.history.push_reserved(Move { who, pick: None });
            self.row = self.row.saturating_add(1);
            self.last = self.unless_faulted(who);
            return Ok(true);
        }
        self.last = None;
        Ok(false)
    }

    /// Whoever this is, if it is a thread without a fault.
    fn unless_faulted(&self, who: Who) -> Option<Who> {
        match self.host.kernel().store().thread(who) {
            Some(thread) if thread.fault.is_none() => Some(who),
            _ => None,
        }
    }

    /// Whoever moved last goes on, where it can and hasn't made so many moves in a row, by moves that tell nothing; and whether it did. Nobody is chosen for
    /// these: what they leave ready of the pager's is taken once it doesn't go on.
    ///
    /// # Errors
    ///
    /// There is no memory for the places of moves in the history.
    fn go_on(&mut self, budget: u64) -> Result<bool, NoMemory>
        requires driven { IsDriven self.old }
        requires left { length self.old.history.items < budget }
        ensures drives { OnOk result (Drives self.old self.new) }
        ensures driven { OnOk result (IsDriven self.new) }
        ensures services { self.new.host.services.list ≡ self.old.host.services.list }
        ensures grown { IfOk result (λ made. HasGrown made budget (length self.old.history.items) (length self.new.history.items)) }
    {
        let Some(who) = self.last else {
            return Ok(false);
        };
        if self.is_opening() {
            return Ok(false);
        }
        if self.row >= ROW {
            return Ok(false);
        }
        let left = budget - self.history.len() as u64;
        if self.run_on(who, left.min(ROW))? {
            return Ok(true);
        }
        let made = self.proceed_on(who)?;
        Ok(made)
    }

    /// Makes moves that nobody need be chosen for; and whether there are any.
    fn go_at_once(&mut self, table: &Table, budget: u64) -> Result<bool, NoMemory>
        requires driven { IsDriven self.old }
        requires left { length self.old.history.items < budget }
        requires fits { AllFit (map (λ r. r.rule) table.now.list.items) self.old.host.services.list }
        ensures drives { OnOk result (Drives self.old self.new) }
        ensures driven { OnOk result (IsDriven self.new) }
        ensures fits { OnOk result (AllFit (map (λ r. r.rule) table.now.list.items) self.new.host.services.list) }
        ensures grown { IfOk result (λ made. HasGrown made budget (length self.old.history.items) (length self.new.history.items)) }
    {
        if self.go_on(budget)? {
            return Ok(true);
        }
        let made = self.go_own(table)?;
        Ok(made)
    }

    /// Makes moves that are ready, at least one; or none, where none is.
    fn go(&mut self, table: &Table, budget: u64) -> Result<bool, NoMemory>
        requires driven { IsDriven self.old }
        requires left { length self.old.history.items < budget }
        requires fits { AllFit (map (λ r. r.rule) table.now.list.items) self.old.host.services.list }
        ensures drives { OnOk result (Drives self.old self.new) }
        ensures driven { OnOk result (IsDriven self.new) }
        ensures fits { OnOk result (AllFit (map (λ r. r.rule) table.now.list.items) self.new.host.services.list) }
        ensures grown { IfOk result (λ made. HasGrown made budget (length self.old.history.items) (length self.new.history.items)) }
        ensures none { IfOk result (λ made. OnFalse made (IsAnyReady (desk self.new) (moment self.new) → ⊥)) }
    {
        if self.go_at_once(table, budget)? {
            return Ok(true);
        }
        let Some(turn) = self.choose() else {
            return Ok(false);
        };
        self.make(table, turn)?;
        Ok(true)
    }

    // ---- the whole

    /// How a run ends in which no move is ready.
    fn at_rest(&self) -> End
        ensures { IsAtRest (moment self.now).world result }
    {
        if all_halted(self.host.kernel().store()) {
            End::Halted
        } else {
            End::Quiet
        }
    }

    /// How it ends where the budget is used.
    fn end_used(&mut self) -> End
        requires driven { IsDriven self.old }
        ensures end { (budget : _) → budget ≤ length self.old.history.items → IsEnd (desk self.old)
            budget (length self.old.history.items) (moment self.old) result }
        ensures driven { IsDriven self.new }
        ensures moment { moment self.new ≡ moment self.old }
        ensures pager { self.new.pager ≡ self.old.pager }
        ensures port { self.new.port ≡ self.old.port }
        ensures history { self.new.history ≡ self.old.history }
    {
        match self.choose() {
            Some(_) => End::Budget,
            None => self.at_rest(),
        }
    }

    /// Makes moves until so many are made, or none is ready, and answers how the run ends. `NoMemory` where there is none for a move.
    ///
    /// # Errors
    ///
    /// There is no memory for a move or its place in the history.
    pub fn drive(&mut self, table: &Table, budget: u64) -> Result<End, NoMemory>
        requires driven { IsDriven self.old }
        requires fits { AllFit (map (λ r. r.rule) table.now.list.items) self.old.host.services.list }
        ensures drives { OnOk result (Drives self.old self.new) }
        ensures end { IfOk result (IsEnd (desk self.old) budget (length self.new.history.items) (moment self.new)) }
        ensures fits { OnOk result (AllFit (map (λ r. r.rule) table.now.list.items) self.new.host.services.list) }
        ensures within { OnOk result (length self.old.history.items ≤ budget → length self.new.history.items ≤ budget) }
    {
        while (self.history.len() as u64) < budget {
            if !self.go(table, budget)? {
                return Ok(self.at_rest());
            }
        }
        Ok(self.end_used())
    }

    /// The host, and what the run came to that has ended so.
    pub fn into_parts(self, end: End) -> (Host<S>, Paged)
        ensures host { result.0 ≡ self.host }
        ensures paged { result.1 ≡ record {
          history = self.history.items;
          opened = opened_by (length self.history.items) (moment self);
          faults = (moment self).state.faults;
          end = end;
        } }
    {
        // There is room for another, so a number past the last can be told.
        let _room = self.history.capacity();
        let opened = if self.is_opening() {
            self.history.len() as u64 + 1
        } else {
            self.opened
        };
        let faults = self.faults();
        let PagedRun { host, history, .. } = self;
        let paged = Paged {
            history: List::of(history),
            opened,
            faults,
            end,
        };
        (host, paged)
    }
}
