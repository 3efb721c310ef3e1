//! The replies of a record, by the place of their server.
ghost use Rattle.std.specs.Prelude.{◌≡◌, IfOk, OnOk};
ghost use Rattle.std.specs.Option.{option_map};
ghost use Rattle.fk_model.specs.Answers.{reply_words};
ghost use Rattle.laws_pair.specs.Notes.{reply_of};
ghost use Rattle.fk_record_text.specs.Lines.{entry_of, entries_of};
ghost use Rattle.fk_recorded.specs.Lists.{with_reply, none_of};
ghost use Rattle.fk_trace.specs.Posts.{words_of_all};
ghost use Rattle.laws_pair.specs.Pair as pair;

use fk_model::{NoMemory, Reply};
use fk_record_text::Entry;
use fk_responders::Note;
use std::alloc::Global;

/// Empty lists, one for each of the first so many places.
fn empty_lists(alloc: Global, count: usize) -> Result<Vec<Vec<Reply>>, NoMemory>
    ensures { IfOk result (λ lists. words_of_all lists.items ≡ none_of count) }
{
    let mut lists = Vec::new(alloc);
    for _ in 0..count {
        let Ok(()) = lists.push(Vec::new(alloc)) else {
            return Err(NoMemory);
        };
    }
    Ok(lists)
}

/// The reply that an entry has.
fn reply_in(entry: &Entry) -> Option<Reply>
    ensures { option_map (λ reply. reply_words reply) result ≡ reply_of (entry_of entry.now).note }
{
    match &entry.note {
        Note::Reply(reply) => Some(*reply),
        Note::Taken { .. } => None,
        Note::Said(_) => None,
        Note::Over => None,
        Note::Ended => None,
    }
}

/// Adds the reply of an entry to the list of its place, where it has one and there is one.
#[tactic(auto, using(crate::proofs::Replies::silent, crate::proofs::Replies::too_far))]
fn add(lists: &mut Vec<Vec<Reply>>, entry: &Entry) -> Result<(), NoMemory>
    ensures { OnOk result (words_of_all lists.new.items ≡ with_reply (entry_of entry.now) (words_of_all lists.old.items)) }
{
    let Some(reply) = reply_in(entry) else {
        return Ok(());
    };
    if lists.len() <= entry.place {
        return Ok(());
    }
    match lists[entry.place].push(reply) {
        Ok(()) => Ok(()),
        Err(_) => Err(NoMemory),
    }
}

/// The replies of each of the first so many places, in order.
///
/// # Errors
///
/// There is no memory for the lists.
pub fn lists_of(alloc: Global, entries: &[Entry], count: usize) -> Result<Vec<Vec<Reply>>, NoMemory>
    ensures { IfOk result (λ lists. words_of_all lists.items ≡ pair.lists_of (entries_of entries.now) 0 count) }
{
    let mut lists = empty_lists(alloc, count)?;
    for entry in entries {
        add(&mut lists, entry)?;
    }
    Ok(lists)
}
