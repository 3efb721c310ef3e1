//! Sets of places, and what an image's spaces are asked for while its pointers are followed.
ghost use Rattle.std.specs.Prelude.{◌≡◌, ◌<◌, ◌+◌, ℕ, length, drop, OnOk, IfOk};
ghost use Rattle.std.specs.List.{list_any};
ghost use Rattle.fk_image.specs.Image.Links.{lies_in, has_space_at, end_of, is_space_within};
ghost use Rattle.fk_image.specs.Format.Offsets.{with_thread};
ghost use Rattle.fk_image.specs.Pointers.Places as words;

use crate::image::SpaceRec;
use fk_model::NoMemory;
use std::alloc::Global;
use std::collections::BTreeSet;

/// A slot of the space with a number.
#[derive(Clone, Copy, PartialEq, Eq, PartialOrd, Ord)]
pub struct Place {
    pub space: u32,
    pub slot: u8,
}

/// A set of places.
#[derive(Drop)]
pub struct Places {
    set: BTreeSet<Place>,
}

impl Places {
    pub fn new(alloc: Global) -> Places
        ensures { words.IsEmptySet result }
    {
        Places {
            set: BTreeSet::new(alloc),
        }
    }

    pub fn contains(&self, place: Place) -> bool
        ensures { result ≡ words.has_place self.now place.space place.slot }
    {
        self.set.contains(&place)
    }

    /// # Errors
    ///
    /// There is no memory for one place more.
    pub fn insert(&mut self, place: Place) -> Result<(), NoMemory>
        ensures { OnOk result (words.has_place self.new ≡ with_thread place.space place.slot (words.has_place self.old)) }
    {
        self.set.insert(place)?;
        Ok(())
    }
}

/// What is known of an image's spaces: for each the number behind those of all spaces beneath it, and
/// once it was asked for, the places in which spaces lie.
#[derive(Drop)]
pub struct Index {
    places: Option<Places>,
    ends: Vec<usize>,
}

fn places_of(alloc: Global, spaces: &[SpaceRec]) -> Result<Places, NoMemory>
    ensures { IfOk result (λ places. (space slot : ℕ) → words.has_place places space slot ≡ list_any (lies_in space slot) spaces.now) }
{
    let mut places = Places::new(alloc);
    for space in spaces {
        places.insert(Place {
            space: space.parent,
            slot: space.slot,
        })?;
    }
    Ok(places)
}

fn behind_first(spaces: &[SpaceRec]) -> &[SpaceRec]
    ensures { result.now ≡ drop 1 spaces.now }
{
    match spaces {
        [] => spaces,
        [_, others @ ..] => others,
    }
}

/// The number behind those of a space and of all beneath it, where these numbers are known for the spaces
/// behind it. Over all spaces it takes one step for each.
fn end_of(spaces: &[SpaceRec], ends: &[usize], space: usize) -> usize
    requires space { space < length spaces.now }
    requires ends { words.KnowsFrom (space + 1) spaces.now ends.now }
    ensures { result ≡ end_of spaces.now space }
{
    let mut end = space + 1;
    while end < spaces.len() && space <= spaces[end].parent as usize {
        end = ends[end];
    }
    end
}

fn ends_of(alloc: Global, spaces: &[SpaceRec]) -> Result<Vec<usize>, NoMemory>
    ensures { IfOk result (λ ends. words.KnowsFrom 0 spaces.now ends.items) }
{
    let mut ends = vec![in alloc; 0usize; spaces.len()]?;
    let mut space = spaces.len();
    while space > 0 {
        space -= 1;
        ends[space] = end_of(spaces, &ends, space);
    }
    Ok(ends)
}

impl Index {
    /// # Errors
    ///
    /// There is no memory for the ends of the spaces.
    pub fn of(alloc: Global, spaces: &[SpaceRec]) -> Result<Index, NoMemory>
        ensures { IfOk result (λ index. words.IsIndex spaces.now index) }
    {
        Ok(Index {
            places: None,
            ends: ends_of(alloc, spaces)?,
        })
    }

    /// Whether a space lies in a slot of a space. Few images ask; the first question takes a step for each
    /// space.
    ///
    /// # Errors
    ///
    /// There is no memory for the places, at the first question.
    pub fn has_space_at(
        &mut self,
        spaces: &[SpaceRec],
        space: u32,
        slot: u8,
    ) -> Result<bool, NoMemory>
        requires { words.IsIndex spaces.now self.old }
        ensures lies { IfOk result (λ lies. lies ≡ has_space_at spaces.now space slot) }
        ensures index { words.IsIndex spaces.now self.new }
    {
        let place = Place { space, slot };
        if let Some(places) = &self.places {
            return Ok(places.contains(place));
        }
        let places = places_of(*self.ends.allocator(), behind_first(spaces))?;
        let lies = places.contains(place);
        self.places = Some(places);
        Ok(lies)
    }

    /// Whether a space is another one or lies beneath it.
    pub fn is_space_within(&self, spaces: &[SpaceRec], space: usize, other: u32) -> bool
        requires index { words.IsIndex spaces.now self.now }
        requires space { space < length spaces.now }
        ensures { result ≡ is_space_within spaces.now space other }
    {
        space <= other as usize && (other as usize) < self.ends[space]
    }
}
