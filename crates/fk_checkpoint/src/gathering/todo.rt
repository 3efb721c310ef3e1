//! The objects whose pointers are asked for, one after the other: of each space who holds it, and then its objects.
ghost use Rattle.std.specs.Prelude.{◌≡◌, suc, ◌<◌, drop, take, length, slice_get, slice_index, Some, IfSome, IfNone};
ghost use Rattle.fk_model.specs.Records.{word};
ghost use Rattle.laws_checkpoint.specs.Assembly.{gathered_tasks, pointers_by};
ghost use Rattle.fk_checkpoint.specs.Seeking.Fields.{fields_in};
ghost use Rattle.laws_checkpoint.specs.Gather as gathers;
ghost use Rattle.fk_checkpoint.specs.Gathering.Gathering.{item_of, contents_of};
ghost use Rattle.fk_checkpoint.specs.Gathering.Todos.{path_at, objects_at, behind, later_spaces, found};

use crate::gathering::content::{Content, Item};
use crate::seeking::{Fields, pointers_by};

/// An object whose pointers are asked for.
#[derive(Clone, Copy)]
pub struct Todo {
    /// The place of its space, and how many objects of that are behind it or are it.
    pub space: usize,
    pub next: usize,
    /// Its slot, so many steps below the subtree's root, and its fields.
    pub slot: u8,
    pub deep: usize,
    pub fields: Fields,
}

/// The first word of a record: the number of a kind.
pub fn kind_of(item: &Item) -> u64
    ensures { result ≡ word (item_of item.now).words 0 }
{
    if item.len == 0 {
        return 0;
    }
    item.words[0]
}

/// The path of the space at a place.
pub fn path_at(contents: &[Content], space: usize) -> &[u8]
    ensures { result.now ≡ path_at contents.now space }
{
    match contents.get(space) {
        None => &[],
        Some(content) => content.path.as_slice(),
    }
}

/// The objects of the space at a place.
fn objects_at(contents: &[Content], space: usize) -> &[Item]
    ensures { result.now ≡ objects_at contents.now space }
{
    match contents.get(space) {
        None => &[],
        Some(content) => content.objects.as_slice(),
    }
}

/// The slots down to an object's space.
#[tactic(auto, using(crate::proofs::InGathering::Todos::take_most))]
pub fn place_of<'a>(contents: &'a [Content], todo: &Todo) -> &'a [u8]
    ensures { result.now ≡ take todo.now.deep (path_at contents.now todo.now.space) }
{
    let path = path_at(contents, todo.space);
    &path[..todo.deep.min(path.len())]
}

/// The fields of an object that an image keeps, by its record.
fn fields_of(item: &Item) -> Fields
    ensures { fields_in result ≡ pointers_by (word (item_of item.now).words 0) }
{
    pointers_by(kind_of(item))
}

/// An object of a space that stands at a place, where it has pointers.
fn todo_for(
    contents: &[Content],
    space: usize,
    place: usize,
    next: usize,
    item: &Item,
) -> Option<Todo>
    requires after { next ≡ suc place }
    requires there { slice_get (objects_at contents.now space) place ≡ Some item.now }
    ensures some { IfSome result (λ todo. (slot : _) (got : _) → gathers.begin slot (behind contents.now space place) got
        ≡ found slot contents.now got (Some todo)) }
    ensures none { IfNone result ((slot : _) (got : _) → gathers.begin slot (behind contents.now space place) got
        ≡ gathers.begin slot (behind contents.now space (suc place)) got) }
{
    let fields = fields_of(item);
    if fields.is_empty() {
        return None;
    }
    Some(Todo {
        space,
        next,
        slot: item.number,
        deep: path_at(contents, space).len(),
        fields,
    })
}

/// The object of a space at a place, where it has pointers.
fn todo_at(contents: &[Content], space: usize, place: usize) -> Option<Todo>
    ensures some { IfSome result (λ todo. (slot : _) (got : _) → gathers.begin slot (behind contents.now space place) got
        ≡ found slot contents.now got (Some todo)) }
    ensures none { IfNone result (place < length (objects_at contents.now space)
        → (slot : _) (got : _) → gathers.begin slot (behind contents.now space place) got ≡ gathers.begin slot (behind contents.now space (suc place)) got) }
{
    match objects_at(contents, space).get(place) {
        Some(item) => todo_for(contents, space, place, place + 1, item),
        None => None,
    }
}

/// The last slot of a path, and how many are before it.
fn last_of(path: &[u8]) -> Option<(usize, u8)>
    ensures long { IfSome result (λ last. length path.now ≡ suc last.0) }
    ensures slot { IfSome result (λ last. last.1 ≡ slice_index path.now last.0) }
    ensures none { IfNone result (length path.now ≡ 0) }
{
    if path.is_empty() {
        return None;
    }
    let deep = path.len() - 1;
    Some((deep, path[deep]))
}

/// Who holds a space below the root.
#[tactic(auto, using(crate::proofs::InGathering::Todos::holder_found, crate::proofs::InGathering::Todos::holder_passed))]
fn holder(contents: &[Content], space: usize) -> Option<Todo>
    requires { space < length contents.now }
    ensures some { IfSome result (λ todo. (slot : _) (got : _) → gathers.begin slot (gathered_tasks (contents_of (drop space contents.now))) got
        ≡ found slot contents.now got (Some todo)) }
    ensures none { IfNone result ((slot : _) (got : _) → gathers.begin slot (gathered_tasks (contents_of (drop space contents.now))) got
        ≡ gathers.begin slot (behind contents.now space 0) got) }
{
    let (deep, slot) = last_of(path_at(contents, space))?;
    Some(Todo {
        space,
        next: 0,
        slot,
        deep,
        fields: Fields::Zero,
    })
}

/// The first object with pointers in a space, from one of its objects on.
fn in_space(contents: &[Content], space: usize, next: usize) -> Option<Todo>
    ensures some { IfSome result (λ todo. (slot : _) (got : _) → gathers.begin slot (behind contents.now space next) got
        ≡ found slot contents.now got (Some todo)) }
    ensures none { IfNone result ((slot : _) (got : _) → gathers.begin slot (behind contents.now space next) got
        ≡ gathers.begin slot (later_spaces contents.now space) got) }
{
    for place in next..objects_at(contents, space).len() {
        if let Some(todo) = todo_at(contents, space, place) {
            return Some(todo);
        }
    }
    None
}

/// The first object with pointers, from a space on.
fn from_space(contents: &[Content], first: usize) -> Option<Todo>
    ensures { (slot : _) (got : _) → gathers.begin slot (gathered_tasks (contents_of (drop first contents.now))) got ≡ found slot contents.now got result }
{
    for space in first..contents.len() {
        if let Some(todo) = holder(contents, space) {
            return Some(todo);
        }
        if let Some(todo) = in_space(contents, space, 0) {
            return Some(todo);
        }
    }
    None
}

/// The first object with pointers behind another.
pub fn following(contents: &[Content], todo: &Todo) -> Option<Todo>
    ensures { (slot : _) (got : _) → gathers.begin slot (behind contents.now todo.now.space todo.now.next) got ≡ found slot contents.now got result }
{
    match in_space(contents, todo.space, todo.next) {
        Some(next) => Some(next),
        None => from_space(contents, todo.space.checked_add(1)?),
    }
}

/// The first object with pointers.
pub fn first(contents: &[Content]) -> Option<Todo>
    ensures { (slot : _) (got : _) → gathers.begin slot (gathered_tasks (contents_of contents.now)) got ≡ found slot contents.now got result }
{
    from_space(contents, 0)
}
