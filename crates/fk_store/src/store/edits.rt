//! What an edit makes of a body. A body of another kind than the edit's stays as it is.
ghost use Rattle.std.specs.Prelude.{◌≡◌, ℕ, true, option_map};
ghost use Rattle.fk_model.specs.Places.{Path};
ghost use Rattle.fk_model.specs.Places.Ptr.{At};
ghost use Rattle.fk_model.specs.Records.{is_page_range};
ghost use Rattle.fk_model.specs.World.{edited};
ghost use Rattle.fk_model.specs.World.Edit.{SetPointer, SetHolder, SetMember, SetWindow, SetExtent};
ghost use Rattle.fk_model.specs.declared.names.Who.{Who};
ghost use Rattle.fk_store.specs.Store.Bodies.{body_by, pointer_by};
ghost use Rattle.fk_store.specs.Store.Contents.{Contents};
ghost use Rattle.fk_store.specs.Store.Edits.{Keeps};
ghost use Rattle.fk_store.specs.Store.WellFormed.{IsSized};
ghost use Rattle.fk_store.specs.Store.Named.{OnNamed, OnPointer, Each};
ghost use Rattle.fk_store.specs.Store.Paths.{place};
ghost use Rattle.fk_store.specs.Store.World.{IsLive};

use fk_model::{Body, Ptr, Who};

/// The pointer of a mapping, a region or a reference is `to`.
#[tactic(auto, unfolding(fk_model::specs::World::edited))]
pub fn with_pointer(body: Body, to: Ptr) -> Body
    ensures edit { (p : ℕ → Path) → edited (SetPointer (pointer_by p to)) (body_by p body) ≡ body_by p result }
    ensures keeps { (p : ℕ → Path) → Keeps p body result }
    ensures named { (m : Contents) → OnPointer (IsLive m) to → OnNamed (IsLive m) body → OnNamed (IsLive m) result }
    ensures sized { IsSized body → IsSized result }
{
    match body {
        Body::Mapping {
            first,
            count,
            offset,
            write,
            ..
        } => Body::Mapping {
            first,
            count,
            offset,
            write,
            region: to,
        },
        Body::Region {
            first,
            count,
            write,
            ..
        } => Body::Region {
            first,
            count,
            write,
            keeper: to,
        },
        Body::Reference { .. } => Body::Reference { to },
        Body::Mutex { .. }
        | Body::Cond
        | Body::Port { .. }
        | Body::Portset
        | Body::Space { .. }
        | Body::Thread(_) => body,
    }
}

/// The holder of a space is `holder`.
#[tactic(auto, unfolding(fk_model::specs::World::edited))]
pub fn with_holder(body: Body, holder: Option<Who>) -> Body
    ensures edit { (p : ℕ → Path) → edited (SetHolder (option_map (λ who. At (place p who)) holder)) (body_by p body) ≡ body_by p result }
    ensures keeps { (p : ℕ → Path) → Keeps p body result }
    ensures named { (m : Contents) → Each (IsLive m) holder → OnNamed (IsLive m) body → OnNamed (IsLive m) result }
    ensures sized { IsSized body → IsSized result }
{
    match body {
        Body::Space { birth, .. } => Body::Space { birth, holder },
        Body::Mutex { .. }
        | Body::Cond
        | Body::Mapping { .. }
        | Body::Region { .. }
        | Body::Port { .. }
        | Body::Portset
        | Body::Thread(_)
        | Body::Reference { .. } => body,
    }
}

/// The set of a port is `set`.
#[tactic(auto, unfolding(fk_model::specs::World::edited))]
pub fn with_set(body: Body, set: Option<u8>) -> Body
    ensures edit { (p : ℕ → Path) → edited (SetMember set) (body_by p body) ≡ body_by p result }
    ensures keeps { (p : ℕ → Path) → Keeps p body result }
    ensures named { (m : Contents) → OnNamed (IsLive m) body → OnNamed (IsLive m) result }
    ensures sized { IsSized body → IsSized result }
{
    match body {
        Body::Port { served, .. } => Body::Port { set, served },
        Body::Mutex { .. }
        | Body::Cond
        | Body::Mapping { .. }
        | Body::Region { .. }
        | Body::Portset
        | Body::Space { .. }
        | Body::Thread(_)
        | Body::Reference { .. } => body,
    }
}

/// A mapping is of these pages of its space, and leads to its region's pages from `offset` on.
#[tactic(auto, unfolding(fk_model::specs::World::edited))]
pub fn with_window(body: Body, first: u8, count: u16, offset: u8, write: bool) -> Body
    ensures edit { (p : ℕ → Path) → edited (SetWindow first count offset write) (body_by p body) ≡ body_by p result }
    ensures keeps { (p : ℕ → Path) → Keeps p body result }
    ensures named { (m : Contents) → OnNamed (IsLive m) body → OnNamed (IsLive m) result }
    ensures sized { is_page_range first count ≡ true → IsSized body → IsSized result }
{
    match body {
        Body::Mapping { region, .. } => Body::Mapping {
            first,
            count,
            offset,
            write,
            region,
        },
        Body::Mutex { .. }
        | Body::Cond
        | Body::Region { .. }
        | Body::Port { .. }
        | Body::Portset
        | Body::Space { .. }
        | Body::Thread(_)
        | Body::Reference { .. } => body,
    }
}

/// A region is of these pages of its space.
#[tactic(auto, unfolding(fk_model::specs::World::edited))]
pub fn with_extent(body: Body, first: u8, count: u16, write: bool) -> Body
    ensures edit { (p : ℕ → Path) → edited (SetExtent first count write) (body_by p body) ≡ body_by p result }
    ensures keeps { (p : ℕ → Path) → Keeps p body result }
    ensures named { (m : Contents) → OnNamed (IsLive m) body → OnNamed (IsLive m) result }
    ensures sized { is_page_range first count ≡ true → IsSized body → IsSized result }
{
    match body {
        Body::Region { keeper, .. } => Body::Region {
            first,
            count,
            write,
            keeper,
        },
        Body::Mutex { .. }
        | Body::Cond
        | Body::Mapping { .. }
        | Body::Port { .. }
        | Body::Portset
        | Body::Space { .. }
        | Body::Thread(_)
        | Body::Reference { .. } => body,
    }
}
