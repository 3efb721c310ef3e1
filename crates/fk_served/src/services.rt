//! The native servers of a machine, each by its port.
ghost use Rattle.std.specs.Prelude.{◌≡◌, ◌<◌, ◌≤◌, true, false, Some, None, length, map, option_map, OnOk, IfSome};
ghost use Rattle.std.specs.List.{slice_get};
ghost use Rattle.fk_model.specs.Whole.{are_words};
ghost use Rattle.laws_moves.specs.Whole.Runnable.{has_all_words};
ghost use Rattle.fk_served.specs.Served.{asked_of, serving, told, said_to, news_to, after_news, gives_words, news_at_port, told_at_port, AllFit, shown};
ghost use Rattle.fk_served.specs.Served.{grows_by, grows_told, some_told, HaveRoom, HaveRoomFor};
ghost use Rattle.fk_natives.specs.Natives as natives;
ghost use Rattle.fk_natives.specs.Natives.{gives_left, news_of, AreFew, DoesFit};
ghost use Rattle.fk_model.specs.declared.moves.Said.TheVariants as says;

use crate::told::{heard_by, is_telling, said_to};
use fk_kernel::Told;
use fk_model::{Ask, NoMemory, Said, Who};
use fk_natives::{Heard, Service, Side, ask};
use fk_responders::Table;
use std::marker::Model;

/// The native servers of a machine, each by its port. What one is told needs room, which is made before a
/// move.
#[derive(Drop)]
pub struct Services<S: Service + Drop> {
    list: Vec<(Who, S)>,
    /// Some may lack room.
    used: bool,
}

impl<S: Service + Drop> Model for Services<S> {
    ghost use Rattle.std.specs.Prelude.{◌≡◌, true, false, not, map};
    ghost use Rattle.fk_served.specs.Served as served;
    ghost use Rattle.fk_served.specs.Coding.{housed_code};

    ghost Value = { served.Housed };

    ghost coded = { housed_code };

    ghost view = { λ s. record { list = served.shown S.meaning s.list.items; ready = not s.used } };

    ghost invariant = { λ s. s.used ≡ false → served.HaveRoom S.has_room s.list.items };
}

/// The server of a port.
fn server_in<S: Service>(list: &[(Who, S)], who: Who) -> Option<&S>
    ensures { option_map (λ server. S.meaning server.now) result ≡ serving (shown S.meaning list.now) who }
{
    for (port, server) in list {
        if *port == who {
            return Some(server);
        }
    }
    None
}

/// What a server asks for. Where there is none, whoever it is runs.
fn ask_of<S: Service>(server: Option<&S>) -> Option<Ask>
    ensures { result ≡ asked_of (option_map (λ server. S.meaning server.now) server.entry) }
{
    match server {
        Some(server) => ask(server),
        None => Some(Ask::Run),
    }
}

/// Each number is a word, as its type says once it is read.
fn read_numbers(numbers: &[u64])
    ensures { are_words numbers.now ≡ true }
{
    for number in numbers {
        let _word = *number;
    }
}

/// What is given is words.
fn look_at(ask: &Ask)
    ensures { gives_words ask.now ≡ true }
{
    match ask {
        Ask::Give { words, .. } => read_numbers(words),
        _ => {}
    }
}

/// Makes room for what each may be told.
fn reserve_in<S: Service>(list: &mut Vec<(Who, S)>) -> Result<(), NoMemory>
    ensures same { shown S.meaning list.new.items ≡ shown S.meaning list.old.items }
    ensures room { OnOk result (HaveRoom S.has_room list.new.items) }
{
    for at in 0..list.len() {
        list[at].1.reserve()?;
    }
    Ok(())
}

/// Whether a server grows by what a move says at its port.
fn grows_by_said<S: Service>(entry: &(Who, S), said: &Said) -> bool
    ensures { result ≡ grows_by (said_to said.now entry.now.0) (S.meaning entry.now.1) }
{
    match said_to(said, entry.0) {
        Some(heard) => entry.1.grows(heard),
        None => false,
    }
}

/// Whether a server grows by what a move tells it.
fn grows_told<S: Service>(entry: &(Who, S), what: &Told) -> bool
    ensures { result ≡ grows_told what.now.said what.now.ended (entry.now.0, S.meaning entry.now.1) }
{
    if grows_by_said(entry, &what.said) {
        return true;
    }
    what.ended == Some(entry.0) && entry.1.grows(Heard::Ended)
}

/// Whether some server grows by what a move tells it.
fn some_told<S: Service>(list: &[(Who, S)], what: &Told) -> bool
    ensures { result ≡ some_told what.now.said what.now.ended (shown S.meaning list.now) }
{
    for entry in list {
        if grows_told(entry, what) {
            return true;
        }
    }
    false
}

/// Tells a server what a move tells it.
#[tactic(auto, using(crate::proofs::Growing::told_room))]
fn tell_one<S: Service>(entry: &mut (Who, S), table: &Table, what: &Told)
    requires fits { DoesFit (map (λ r. r.rule) table.now.list.items) (S.meaning entry.old.1) }
    requires room { grows_told what.now.said what.now.ended (entry.old.0, S.meaning entry.old.1) ≡ true → S.has_room entry.old.1 ≡ true }
    ensures who { entry.new.0 ≡ entry.old.0 }
    ensures told { S.meaning entry.new.1 ≡ after_news (news_to what.now.said what.now.ended entry.old.0) (S.meaning entry.old.1) }
{
    if let Some(heard) = heard_by(what, entry.0) {
        entry.1.absorb(table, heard);
    }
}

/// Tells each server what a move tells it. It stands apart, since most of what jobs are told is for none.
#[inline(never)]
fn tell_in<S: Service>(list: &mut Vec<(Who, S)>, table: &Table, what: &Told)
    requires fits { AllFit (map (λ r. r.rule) table.now.list.items) (shown S.meaning list.old.items) }
    requires room { HaveRoomFor S.meaning S.has_room what.now.said what.now.ended list.old.items }
    ensures { shown S.meaning list.new.items ≡ map (told what.now.said what.now.ended) (shown S.meaning list.old.items) }
{
    for at in 0..list.len() {
        tell_one(&mut list[at], table, what);
    }
}

/// Tells a server this, if its port is this one.
fn tell_at<S: Service>(entry: &mut (Who, S), table: &Table, port: Who, heard: Heard<'_>)
    requires fits { DoesFit (map (λ r. r.rule) table.now.list.items) (S.meaning entry.old.1) }
    requires few { AreFew (news_of heard) }
    requires room { S.has_room entry.old.1 ≡ true }
    ensures who { entry.new.0 ≡ entry.old.0 }
    ensures told { S.meaning entry.new.1 ≡ after_news (news_at_port port (news_of heard.entry) entry.old.0) (S.meaning entry.old.1) }
{
    if entry.0 == port {
        entry.1.absorb(table, heard);
    }
}

/// Tells the server of a port this.
fn tell_port<S: Service>(list: &mut Vec<(Who, S)>, table: &Table, port: Who, heard: Heard<'_>)
    requires fits { AllFit (map (λ r. r.rule) table.now.list.items) (shown S.meaning list.old.items) }
    requires few { AreFew (news_of heard) }
    requires room { HaveRoom S.has_room list.old.items }
    ensures { shown S.meaning list.new.items ≡ map (told_at_port port (news_of heard.entry)) (shown S.meaning list.old.items) }
{
    for at in 0..list.len() {
        tell_at(&mut list[at], table, port, heard);
    }
}

impl<S: Service + Drop> Services<S> {
    /// Servers by their ports.
    pub fn of(list: Vec<(Who, S)>) -> Services<S>
        ensures { result.list ≡ shown S.meaning list.items }
    {
        Services { list, used: true }
    }

    /// The servers with their ports.
    pub fn as_slice(&self) -> &[(Who, S)]
        ensures { shown S.meaning result.now ≡ self.now.list }
    {
        self.list.as_slice()
    }

    /// The server of a port.
    pub fn server(&self, who: Who) -> Option<&S>
        ensures { option_map (λ server. S.meaning server.now) result ≡ serving self.now.list who }
    {
        server_in(self.list.as_slice(), who)
    }

    /// What the server of a port asks for, which is words where it gives any. Everybody else runs.
    pub fn ask(&self, who: Who) -> Option<Ask>
        ensures asked { result ≡ asked_of (serving self.now.list who) }
        ensures words { IfSome result (λ ask. has_all_words ask ≡ true) }
    {
        let asked = ask_of(self.server(who));
        if let Some(ask) = &asked {
            look_at(ask);
        }
        asked
    }

    /// What the server of a port has left for its client, at its own turn: words, or the turn where there are none.
    #[tactic(auto, using(crate::proofs::Lists::asks_left))]
    pub fn left(&self, port: Who) -> Option<&[u64]>
        ensures left { IfSome result (λ left. asked_of (serving self.now.list port) ≡ Some (gives_left left.now)) }
        ensures words { IfSome result (λ left. are_words left.now ≡ true) }
        ensures few { IfSome result (λ left. length left.now ≤ 64) }
    {
        let Some(server) = self.server(port) else {
            return None;
        };
        let Side::Own = server.side() else {
            return None;
        };
        let left = server.left();
        read_numbers(left);
        Some(left)
    }

    /// Makes room for what each may be told.
    ///
    /// # Errors
    ///
    /// There is no memory for that.
    pub fn reserve(&mut self) -> Result<(), NoMemory>
        ensures same { self.new.list ≡ self.old.list }
        ensures ready { OnOk result (self.new.ready ≡ true) }
    {
        if self.used {
            reserve_in(&mut self.list)?;
            self.used = false;
        }
        Ok(())
    }

    /// Whether some server grows by what a move tells it.
    pub fn some_told(&self, what: &Told) -> bool
        ensures { result ≡ some_told what.now.said what.now.ended self.now.list }
    {
        some_told(self.list.as_slice(), what)
    }

    /// Tells each server what a move tells it. There is room, or nobody grows by that.
    pub fn hear(&mut self, table: &Table, what: &Told)
        requires fits { AllFit (map (λ r. r.rule) table.now.list.items) self.old.list }
        requires room { self.old.ready ≡ false → some_told what.now.said what.now.ended self.old.list ≡ false }
        ensures { self.new.list ≡ map (told what.now.said what.now.ended) self.old.list }
    {
        if is_telling(what) {
            self.used = true;
            tell_in(&mut self.list, table, what);
        }
    }

    /// Tells the server of a port that its client has sent these words.
    pub fn hear_slice(&mut self, table: &Table, port: Who, words: &[u64])
        requires fits { AllFit (map (λ r. r.rule) table.now.list.items) self.old.list }
        requires ready { self.old.ready ≡ true }
        requires few { length words.now ≤ 64 }
        ensures { self.new.list ≡ map (told_at_port port (natives.Words words.now)) self.old.list }
    {
        self.used = true;
        tell_port(&mut self.list, table, port, Heard::Words(words));
    }

    /// Tells the server of a port that its client has taken so many words.
    pub fn hear_given(&mut self, table: &Table, port: Who, count: u8)
        requires fits { AllFit (map (λ r. r.rule) table.now.list.items) self.old.list }
        requires ready { self.old.ready ≡ true }
        ensures { self.new.list ≡ map (told (says.Given port count) None) self.old.list }
    {
        self.used = true;
        tell_port(&mut self.list, table, port, Heard::Given(count));
    }

    /// Tells the server of a port that the turn has changed.
    pub fn hear_over(&mut self, table: &Table, port: Who)
        requires fits { AllFit (map (λ r. r.rule) table.now.list.items) self.old.list }
        requires ready { self.old.ready ≡ true }
        ensures { self.new.list ≡ map (told (says.Over port) None) self.old.list }
    {
        self.used = true;
        tell_port(&mut self.list, table, port, Heard::Over);
    }

    /// How many there are.
    pub fn len(&self) -> usize
        ensures { result ≡ length self.now.list }
    {
        self.list.len()
    }

    /// The port of the server at a place.
    pub fn port(&self, at: usize) -> Who
        requires { at < length self.now.list }
        ensures { option_map (λ served. served.0) (slice_get self.now.list at) ≡ Some result }
    {
        self.list[at].0
    }
}
