//! Observers: closures that say which notes are seen.
ghost use Rattle.std.specs.Prelude.{◌≡◌, Bool};
ghost use Rattle.fk_responders.specs.Notes.{watches, note_of};

use crate::note::{Note, Watch};

/// Whether a watch sees a note.
pub fn watches(watch: Watch, note: &Note) -> bool
    ensures { result ≡ watches watch (note_of note.now) }
{
    match watch {
        Watch::All => true,
        Watch::Replies => matches!(note, Note::Reply(_)),
        Watch::Said => matches!(note, Note::Said(_)),
    }
}

/// Answers whether a note is seen.
pub type Sight = Box<dyn Fn(&Note) -> bool + Send + Sync>;

/// A watch, with a closure that answers whether the watch sees a note.
#[derive(Drop)]
pub struct Observer {
    watch: Watch,
    call: Sight,
    ghost may: { (note : _) → Sight.pre call note },
    ghost tells: { (note : _) (seen : _) → Sight.post call note seen → seen ≡ watches watch (note_of note.now) },
}

impl Observer {
    /// An observer by a closure that may be called with any note and answers whether the watch sees it.
    pub fn new(watch: Watch, call: Sight) -> Observer
        requires may { (note : _) → Sight.pre call note }
        requires tells { (note : _) (seen : _) → Sight.post call note seen → seen ≡ watches watch (note_of note.now) }
        ensures { result.watch ≡ watch }
    {
        Observer { watch, call }
    }

    /// Whether its watch sees a note.
    pub fn sees(&self, note: &Note) -> bool
        ensures { result ≡ watches self.now.watch (note_of note.now) }
    {
        (self.call)(note)
    }

    /// Its watch.
    pub fn watch(&self) -> Watch
        ensures { result ≡ self.now.watch }
    {
        self.watch
    }
}
