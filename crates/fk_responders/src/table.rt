//! Tables of responders and observers.
ghost use Rattle.std.specs.Prelude.{◌≡◌, ◌≤◌, Some, IfOk, length, map, string_bytes};
ghost use Rattle.std.specs.List.{slice_get};
ghost use Rattle.fk_model.specs.Answers.{answer, reply_words};
ghost use Rattle.fk_responders.specs.Notes.{all_watches, is_seen, note_of};
ghost use Rattle.fk_responders.specs.Tables.{rules_view};

use crate::note::Note;
use crate::observer::Observer;
use crate::responder::Responder;
use fk_model::{NoMemory, Reply, Rule};
use std::alloc::Global;

/// The responders by which servers reply, each at its place, and an observer for each watch, in the order of `Watch`.
#[derive(Drop)]
pub struct Table {
    pub list: Vec<Responder>,
    pub observers: Vec<Observer>,
    ghost kept: { map (λ o. o.watch) observers.items ≡ all_watches },
}

impl Table {
    /// The names and the rules of the responders, in order.
    ///
    /// # Errors
    ///
    /// There is no memory for the list.
    pub fn rules(&self, alloc: Global) -> Result<Vec<(String, Rule)>, NoMemory>
        ensures { IfOk result (λ rules. rules_view rules.items ≡ map (λ r. (string_bytes r.name, r.rule)) self.now.list.items) }
    {
        let mut rules = Vec::new(alloc);
        for responder in &self.list {
            rules.push((String::from_str(alloc, responder.name())?, responder.rule()))?;
        }
        Ok(rules)
    }

    /// The answer of the responder at a place, which has this rule, to a request of at most 64 words.
    pub fn answer(
        &self,
        index: u32,
        rule: Rule,
        config: &[u64],
        position: u64,
        request: &[u64],
    ) -> Reply
        requires there { slice_get (map (λ r. r.rule) self.now.list.items) index ≡ Some rule }
        requires few { length request.now ≤ 64 }
        ensures { reply_words result ≡ answer rule config.now position request.now }
    {
        self.list[index as usize].call(config, position, request)
    }

    /// Whether the observer at a place sees a note. Where there is none, no note is seen.
    pub fn sees(&self, at: u8, note: &Note) -> bool
        ensures { result ≡ is_seen at (note_of note.now) }
    {
        match self.observers.get(usize::from(at)) {
            Some(observer) => observer.sees(note),
            None => false,
        }
    }
}
