//! Two kernels between which a subtree moves.
ghost use Rattle.std.specs.Prelude.{◌≡◌, ◌↔◌, ◌<◌, ◌≤◌, [], None, IsTrue, IfNone, IfOk, IfSome, OnErr, OnOk, length, map, vec_capacity};
ghost use Rattle.fk_model.specs.declared.limits.TheConstants.{LAST_USER_SLOT};
ghost use Rattle.fk_model.specs.declared.moves.Move as moves;
ghost use Rattle.fk_packets.specs.declared.events.Event.TheVariants as event;
ghost use Rattle.fk_migrate.specs.Fates.{IsFate};
ghost use Rattle.fk_migrate.specs.Pairs.{shown, with_event, Counts, Start, GoesOn, IsBegun, IsNew, IsReady, IsRunOf, IsSame, IsSomeRun, LeadsTo};
ghost use Rattle.fk_migrate.specs.Promises.{ForeignWhole, IsPromised, KeepsWhole, MovesWhole};
ghost use Rattle.fk_migrate.specs.Runs.{IsReadyEvent};
ghost use Rattle.fk_served.specs.Acts.{IsReadyAsked};
ghost use Rattle.fk_served.specs.Served.{AllFit};
ghost use Rattle.fk_sides.specs.Fars.{IsFar};
ghost use Rattle.fk_sides.specs.Kept.{pieces_of, why_kept};
ghost use Rattle.fk_sides.specs.Sides.{FarSide};
ghost use Rattle.laws_handover.specs.Sent.{sent_far, sent_near};
ghost use Rattle.laws_migrate.specs.Images.{image_codec};

use crate::fates::Fate;
use crate::places::Places;
use crate::receiver::Receiver;
use crate::sender::Sender;
use fk_host::Host;
use fk_model::{Move, NoMemory};
use fk_natives::Service;
use fk_packets::Event;
use fk_responders::Table;
use std::alloc::Global;

/// Two kernels between which a subtree moves: a sender and a receiver, and the events that they have taken in their order. Packets come
/// between them as each event says, or never.
#[derive(Drop)]
pub struct Pair<S: Service + Drop> {
    sender: Sender<S>,
    receiver: Receiver<S>,
    events: Vec<Event>,
    places: Places,
}

impl<S: Service + Drop> Pair<S> {
    /// From a slot of the near root to the same slot of the far one.
    pub fn new(alloc: Global, near: Host<S>, far: Host<S>, slot: u8) -> Pair<S>
        requires { slot ≤ LAST_USER_SLOT }
        ensures near { result.sender.host ≡ near }
        ensures far { result.receiver.host ≡ far }
        ensures slot { (shown result).slot ≡ slot }
        ensures begun { IsBegun (shown result) }
    {
        let pair = Pair::of(alloc, near, far, slot);
        pair.begins();
        pair
    }

    /// A pair of two hosts that migrates a slot, by what each part has come to.
    fn of(alloc: Global, near: Host<S>, far: Host<S>, slot: u8) -> Pair<S>
        requires { slot ≤ LAST_USER_SLOT }
        ensures near { result.sender.host ≡ near }
        ensures far { result.receiver.host ≡ far }
        ensures slot { (shown result).slot ≡ slot }
        ensures new { IsNew (shown result) }
    {
        let sender = Sender::new(alloc, near, slot);
        let receiver = Receiver::new(alloc, far, slot);
        let events = Vec::new(alloc);
        let places = Places::new();
        Pair {
            sender,
            receiver,
            events,
            places,
        }
    }

    /// One that is new is the run of no events.
    fn begins(&self)
        requires { IsNew (shown self.now) }
        ensures { IsBegun (shown self.now) }
    {}

    /// The near kernel.
    pub fn near(&self) -> &Host<S>
        ensures { result.now ≡ self.now.sender.host }
    {
        self.sender.host()
    }

    /// The far kernel.
    pub fn far(&self) -> &Host<S>
        ensures { result.now ≡ self.now.receiver.host }
    {
        self.receiver.host()
    }

    /// The events that it has taken, in their order.
    pub fn events(&self) -> &[Event]
        ensures { result.now ≡ (shown self.now).events }
    {
        self.events.as_slice()
    }

    /// The events that it has taken, in their order, handed out.
    pub fn into_events(self) -> Vec<Event>
        ensures { result.items ≡ (shown self).events }
    {
        let Pair {
            sender: _,
            receiver: _,
            events,
            places: _,
        } = self;
        events
    }

    // ---- what it has come to

    /// What it has come to.
    pub fn fate(&self) -> Fate<'_>
        ensures { (from : Start) (its : IsRunOf (shown self.now) from) → IsFate its.run its.steps result }
    {
        match self.sender.kept() {
            Some(why) => Fate::Kept(why),
            None => self.moved(),
        }
    }

    /// What it has come to where the original isn't kept.
    fn moved(&self) -> Fate<'_>
        requires { why_kept (shown self.now).near.side ≡ None }
        ensures { (from : Start) (its : IsRunOf (shown self.now) from) → IsFate its.run its.steps result }
    {
        if !self.receiver.has_moved() {
            return Fate::Working;
        }
        match self.places.calls() {
            Some(calls) => Fate::Moved {
                hold: calls.hold,
                make: calls.make,
                release: calls.release,
            },
            // All three calls were made.
            None => Fate::Working,
        }
    }

    /// How many pieces the near side has sent, none before its image is gathered.
    ///
    /// # Errors
    ///
    /// There is no memory for the bytes of its image; all is as before.
    pub fn pieces(&mut self) -> Result<u64, NoMemory>
        ensures same { shown self.new ≡ shown self.old }
        ensures pieces { IfOk result (λ many. many ≡ pieces_of (shown self.old).near.side) }
    {
        self.sender.pieces()
    }

    /// How many packets the near side has sent. There may be no memory for the bytes of its image; nothing else changes.
    ///
    /// # Errors
    ///
    /// There is no memory for the bytes of its image; all is as before.
    pub fn sent_near(&mut self) -> Result<u64, NoMemory>
        ensures same { shown self.new ≡ shown self.old }
        ensures sent { IfOk result (λ many. many ≡ length (sent_near image_codec (shown self.old).near.side)) }
    {
        self.sender.sent()
    }

    /// How many the far side has.
    pub fn sent_far(&self) -> u64
        ensures { (f : FarSide) → IsFar (shown self.now).makes f → result ≡ length (sent_far f) }
    {
        self.receiver.sent()
    }

    /// A ready move of a user or a server in the near kernel; none exactly where there is none.
    pub fn choose_near(&mut self) -> Option<Move>
        ensures ready { IfSome result (λ m. IsReadyAsked (shown self.old).near.servers (shown self.old).near.world m) }
        ensures none { IfNone result ((m : moves.Move) → IsReadyAsked (shown self.old).near.servers (shown self.old).near.world m → ⊥) }
        ensures same { shown self.new ≡ shown self.old }
    {
        self.sender.choose()
    }

    /// A ready move of a user or a server in the far kernel; none exactly where there is none.
    pub fn choose_far(&mut self) -> Option<Move>
        ensures ready { IfSome result (λ m. IsReadyAsked (shown self.old).far.servers (shown self.old).far.world m) }
        ensures none { IfNone result ((m : moves.Move) → IsReadyAsked (shown self.old).far.servers (shown self.old).far.world m → ⊥) }
        ensures same { shown self.new ≡ shown self.old }
    {
        self.receiver.choose()
    }

    // ---- which events are ready

    fn near_ready(&self, m: &Move) -> bool
        ensures { (from : Start) (its : IsRunOf (shown self.now) from) → (IsTrue result ↔ IsReadyEvent from.slot its.run (event.Near m.now)) }
    {
        self.sender.ready(m)
    }

    fn far_ready(&self, m: &Move) -> bool
        ensures { (from : Start) (its : IsRunOf (shown self.now) from) → (IsTrue result ↔ IsReadyEvent from.slot its.run (event.Far m.now)) }
    {
        self.receiver.ready(m)
    }

    /// Whether the near side has sent a packet with a number.
    fn near_has_sent(&mut self, number: u64) -> Result<bool, NoMemory>
        ensures same { shown self.new ≡ shown self.old }
        ensures ready { IfOk result (λ ready. (from : Start) (its : IsRunOf (shown self.old) from)
            → (IsTrue ready ↔ IsReadyEvent from.slot its.run (event.ToFar number))) }
    {
        let packet = self.sender.packet(number)?;
        Ok(packet.is_some())
    }

    /// Whether the far side has.
    fn far_has_sent(&self, number: u64) -> bool
        ensures { (from : Start) (its : IsRunOf (shown self.now) from) → (IsTrue result ↔ IsReadyEvent from.slot its.run (event.ToNear number)) }
    {
        self.receiver.packet(number).is_some()
    }

    /// Whether the near side may give up.
    fn may_give_up(&self) -> bool
        ensures { (from : Start) (its : IsRunOf (shown self.now) from) → (IsTrue result ↔ IsReadyEvent from.slot its.run event.GiveUp) }
    {
        self.sender.waits()
    }

    /// Whether an event is ready: a move of a user or a server, a call for which its porter's side asks, a packet that was sent, giving up where
    /// the near side waits. There may be no memory for the bytes of the near image; nothing else changes.
    ///
    /// # Errors
    ///
    /// There is no memory for the bytes of its image; all is as before.
    pub fn ready(&mut self, e: &Event) -> Result<bool, NoMemory>
        ensures same { shown self.new ≡ shown self.old }
        ensures ready { IfOk result (λ ready. (from : Start) (its : IsRunOf (shown self.old) from)
            → (IsTrue ready ↔ IsReadyEvent from.slot its.run e.now)) }
    {
        match e {
            Event::Near(m) => Ok(self.near_ready(m)),
            Event::Far(m) => Ok(self.far_ready(m)),
            Event::ToFar(number) => self.near_has_sent(*number),
            Event::ToNear(number) => Ok(self.far_has_sent(*number)),
            Event::GiveUp => Ok(self.may_give_up()),
        }
    }

    // ---- each kind of event

    fn near_move(&mut self, table: &Table, m: &Move) -> Result<(), NoMemory>
        requires run { IsSomeRun (shown self.old) }
        requires ready { IsReady (shown self.old) (event.Near m.now) }
        requires fits { AllFit (map (λ r. r.rule) table.now.list.items) (shown self.old).near.servers }
        ensures leads { OnOk result (LeadsTo (shown self.old) (event.Near m.now) (shown self.new)) }
        ensures near_fits { AllFit (map (λ r. r.rule) table.now.list.items) (shown self.new).near.servers }
        ensures receiver { self.new.receiver ≡ self.old.receiver }
        ensures events { self.new.events ≡ self.old.events }
        ensures places { self.new.places ≡ self.old.places }
        ensures lacking { OnErr result (IsSame (shown self.old) (shown self.new)) }
    {
        self.sender.turn(table, m)?;
        Ok(())
    }

    fn far_move(&mut self, table: &Table, m: &Move) -> Result<(), NoMemory>
        requires run { IsSomeRun (shown self.old) }
        requires ready { IsReady (shown self.old) (event.Far m.now) }
        requires fits { AllFit (map (λ r. r.rule) table.now.list.items) (shown self.old).far.servers }
        ensures leads { OnOk result (LeadsTo (shown self.old) (event.Far m.now) (shown self.new)) }
        ensures far_fits { AllFit (map (λ r. r.rule) table.now.list.items) (shown self.new).far.servers }
        ensures sender { self.new.sender ≡ self.old.sender }
        ensures events { self.new.events ≡ self.old.events }
        ensures places { self.new.places ≡ self.old.places }
        ensures lacking { OnErr result (IsSame (shown self.old) (shown self.new)) }
    {
        self.receiver.turn(table, m)?;
        Ok(())
    }

    /// A packet of the near side comes to the far one.
    fn to_far(&mut self, number: u64) -> Result<(), NoMemory>
        requires ready { IsReady (shown self.old) (event.ToFar number) }
        ensures leads { OnOk result (LeadsTo (shown self.old) (event.ToFar number) (shown self.new)) }
        ensures near { (shown self.new).near ≡ (shown self.old).near }
        ensures far { (shown self.new).far ≡ (shown self.old).far }
        ensures events { self.new.events ≡ self.old.events }
        ensures places { self.new.places ≡ self.old.places }
        ensures lacking { OnErr result (IsSame (shown self.old) (shown self.new)) }
    {
        let packet = self.sender.packet(number)?;
        match packet {
            Some(packet) => {
                self.receiver.take(&packet)?;
                Ok(())
            }
            None => Ok(()),
        }
    }

    /// A packet of the far side comes to the near one.
    fn to_near(&mut self, number: u64) -> Result<(), NoMemory>
        requires ready { IsReady (shown self.old) (event.ToNear number) }
        ensures leads { OnOk result (LeadsTo (shown self.old) (event.ToNear number) (shown self.new)) }
        ensures near_servers { (shown self.new).near.servers ≡ (shown self.old).near.servers }
        ensures receiver { self.new.receiver ≡ self.old.receiver }
        ensures events { self.new.events ≡ self.old.events }
        ensures places { self.new.places ≡ self.old.places }
        ensures lacking { OnErr result (IsSame (shown self.old) (shown self.new)) }
    {
        match self.receiver.packet(number) {
            Some(packet) => {
                self.sender.take(packet)?;
                Ok(())
            }
            None => Ok(()),
        }
    }

    fn give_up(&mut self) -> Result<(), NoMemory>
        requires ready { IsReady (shown self.old) event.GiveUp }
        ensures leads { OnOk result (LeadsTo (shown self.old) event.GiveUp (shown self.new)) }
        ensures near_servers { (shown self.new).near.servers ≡ (shown self.old).near.servers }
        ensures receiver { self.new.receiver ≡ self.old.receiver }
        ensures events { self.new.events ≡ self.old.events }
        ensures places { self.new.places ≡ self.old.places }
        ensures lacking { OnErr result (IsSame (shown self.old) (shown self.new)) }
    {
        self.sender.give_up()?;
        Ok(())
    }

    /// The event is made. The list of events stays.
    fn make(&mut self, table: &Table, e: &Event) -> Result<(), NoMemory>
        requires run { IsSomeRun (shown self.old) }
        requires ready { IsReady (shown self.old) e.now }
        requires near_fits { AllFit (map (λ r. r.rule) table.now.list.items) (shown self.old).near.servers }
        requires far_fits { AllFit (map (λ r. r.rule) table.now.list.items) (shown self.old).far.servers }
        ensures leads { OnOk result (LeadsTo (shown self.old) e.now (shown self.new)) }
        ensures near_fits { AllFit (map (λ r. r.rule) table.now.list.items) (shown self.new).near.servers }
        ensures far_fits { AllFit (map (λ r. r.rule) table.now.list.items) (shown self.new).far.servers }
        ensures events { self.new.events ≡ self.old.events }
        ensures places { self.new.places ≡ self.old.places }
        ensures lacking { OnErr result (IsSame (shown self.old) (shown self.new)) }
    {
        match e {
            Event::Near(m) => self.near_move(table, m),
            Event::Far(m) => self.far_move(table, m),
            Event::ToFar(number) => self.to_far(*number),
            Event::ToNear(number) => self.to_near(*number),
            Event::GiveUp => self.give_up(),
        }
    }

    /// Room for one event more. Nothing else changes.
    fn make_room(&mut self) -> Result<(), NoMemory>
        ensures same { shown self.new ≡ shown self.old }
        ensures room { OnOk result (length self.new.events.items < vec_capacity self.new.events) }
    {
        self.events.reserve(1)?;
        // There is room for another, so a number of the events can be told.
        let _room = self.events.capacity();
        Ok(())
    }

    // ---- the places, which an event has once it is made

    fn count_near(&self, m: &Move) -> Places
        requires run { IsSomeRun (shown self.now) }
        requires room { length self.now.events.items < vec_capacity self.now.events }
        ensures { Counts (shown self.now) (event.Near m.now) result }
    {
        let is_own = self.sender.is_porters(m);
        self.places.near(is_own, self.events.capacity())
    }

    fn count_far(&self, m: &Move) -> Places
        requires run { IsSomeRun (shown self.now) }
        requires room { length self.now.events.items < vec_capacity self.now.events }
        ensures { Counts (shown self.now) (event.Far m.now) result }
    {
        let is_own = self.receiver.is_porters(m);
        self.places.far(is_own, self.events.capacity())
    }

    /// The places once an event, which isn't made yet, is.
    fn count(&self, e: &Event) -> Places
        requires run { IsSomeRun (shown self.now) }
        requires room { length self.now.events.items < vec_capacity self.now.events }
        ensures { Counts (shown self.now) e.now result }
    {
        match e {
            Event::Near(m) => self.count_near(m),
            Event::Far(m) => self.count_far(m),
            Event::ToFar(_) => self.places,
            Event::ToNear(_) => self.places,
            Event::GiveUp => self.places,
        }
    }

    /// An event is noted, with the places once it is made.
    fn note(&mut self, e: &Event, places: Places)
        requires { length self.old.events.items < vec_capacity self.old.events }
        ensures { shown self.new ≡ with_event (shown self.old) e.now places }
    {
        self.events.push_reserved(*e);
        self.places = places;
    }

    /// An event is made and noted.
    fn advance(&mut self, table: &Table, e: &Event) -> Result<(), NoMemory>
        requires run { IsSomeRun (shown self.old) }
        requires ready { IsReady (shown self.old) e.now }
        requires near_fits { AllFit (map (λ r. r.rule) table.now.list.items) (shown self.old).near.servers }
        requires far_fits { AllFit (map (λ r. r.rule) table.now.list.items) (shown self.old).far.servers }
        ensures goes { OnOk result (GoesOn (shown self.old) e.now (shown self.new)) }
        ensures near_fits { AllFit (map (λ r. r.rule) table.now.list.items) (shown self.new).near.servers }
        ensures far_fits { AllFit (map (λ r. r.rule) table.now.list.items) (shown self.new).far.servers }
        ensures lacking { OnErr result (IsSame (shown self.old) (shown self.new)) }
    {
        self.make_room()?;
        let places = self.count(e);
        self.make(table, e)?;
        self.note(e, places);
        Ok(())
    }

    /// Takes an event, which is ready. For want of memory all is as before.
    ///
    /// Over every list of events, with packets lost, repeated and in any order, the subtree and its copy never live both unheld; where the copy
    /// is let go it is what the subtree was, and that one is gone; where the subtree is kept it is what it was.
    ///
    /// # Errors
    ///
    /// There is no memory for what the event makes; all is as before.
    pub fn step(&mut self, table: &Table, e: &Event) -> Result<(), NoMemory>
        requires run { IsSomeRun (shown self.old) }
        requires ready { IsReady (shown self.old) e.now }
        requires near_fits { AllFit (map (λ r. r.rule) table.now.list.items) (shown self.old).near.servers }
        requires far_fits { AllFit (map (λ r. r.rule) table.now.list.items) (shown self.old).far.servers }
        ensures goes { OnOk result (GoesOn (shown self.old) e.now (shown self.new)) }
        ensures run { (from : Start) → IsRunOf (shown self.old) from → IsRunOf (shown self.new) from }
        ensures promised { IsPromised (shown self.new) }
        ensures moves { OnOk result (MovesWhole (shown self.old) (shown self.new)) }
        ensures keeps { OnOk result (KeepsWhole (shown self.old) (shown self.new)) }
        ensures foreign { OnOk result (ForeignWhole (shown self.old) (shown self.new)) }
        ensures near_fits { AllFit (map (λ r. r.rule) table.now.list.items) (shown self.new).near.servers }
        ensures far_fits { AllFit (map (λ r. r.rule) table.now.list.items) (shown self.new).far.servers }
        ensures lacking { OnErr result (IsSame (shown self.old) (shown self.new)) }
    {
        self.advance(table, e)
    }
}
