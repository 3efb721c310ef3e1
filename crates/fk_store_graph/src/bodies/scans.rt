//! Who plays a part.
ghost use Rattle.std.specs.Prelude.{◌≡◌, ◌<◌, ℕ, IfSome, Some, None, true, false};
ghost use Rattle.fk_model.specs.declared.body.Body.{Body};
ghost use Rattle.fk_store_graph.specs.Linked.Shapes.{Entry};
ghost use Rattle.fk_store_graph.specs.Linked.Filed.{entry_under};
ghost use Rattle.fk_store_graph.specs.Linked.Bodied.{body_under, Tells, told_by};
ghost use Rattle.fk_store_graph.specs.Linked.Parts.{plays, sort_of};
ghost use Rattle.fk_store_graph.specs.Bodies.Playing.{IsPlayer, NobodyPlays};

use crate::leads::Part;
use crate::linked::told_of;
use fk_model::Who;
use fk_store_cells::objects::{Objects, Told};

/// An object that plays this part, where those who may are told; nothing where none does.
pub fn first_told(objects: &Objects, part: Part, told: Told) -> Option<Who>
    requires { (j : ℕ) (b : Body) → body_under objects.now j ≡ Some b → plays part b ≡ true → Tells told j }
    ensures some { IfSome result (IsPlayer objects.now part) }
    ensures none { result ≡ None → NobodyPlays objects.now part }
{
    match told {
        Told::Nobody => None,
        Told::One(other) => played_by(objects, part, other),
        Told::Many => first_among(objects, part),
    }
}

/// Who may play a part for the object under a key.
pub fn told_of_part(objects: &Objects, part: Part, key: u32) -> Told
    ensures { (e : Entry) → entry_under objects.now key ≡ Some e → result ≡ told_by (sort_of part) e.hints }
{
    match objects.entry(key) {
        None => Told::Many,
        Some(entry) => told_of(entry.hints, part.sort()),
    }
}

/// The object under a key, if it plays this part.
fn played_by(objects: &Objects, part: Part, key: u32) -> Option<Who>
    ensures some { IfSome result (IsPlayer objects.now part) }
    ensures none { result ≡ None → (b : Body) → body_under objects.now key ≡ Some b → plays part b ≡ false }
{
    let entry = objects.entry(key)?;
    if part.is_played_by(&entry.body) {
        Some(entry.who)
    } else {
        None
    }
}

/// An object that plays this part; nothing where none does.
fn first_among(objects: &Objects, part: Part) -> Option<Who>
    ensures some { IfSome result (IsPlayer objects.now part) }
    ensures none { result ≡ None → NobodyPlays objects.now part }
{
    for key in 0..objects.bound() {
        let player = played_by(objects, part, key);
        if player.is_some() {
            return player;
        }
    }
    None
}
