//! Lists whose entries are found by a key.
ghost use Rattle.std.specs.Prelude.{◌≡◌, ℕ, ◌++◌, ◌∷◌, List as Items, [], length, option_copied, IfOk};
ghost use Rattle.std.specs.List.{find, list_any, position_from};
ghost use Rattle.std.specs.Str.{bytes_eq};
ghost use Rattle.fk_scenario.specs.Fields.Entries as definitions;

use fk_model::{List, NoMemory, Text};
use std::alloc::Global;
use std::collections::BTreeMap;
use std::marker::Model;

/// What has a key.
pub trait Keyed {
    /// The key.
    ghost key: { Self → Items ℕ };

    /// The bytes of the key.
    fn key(&self) -> &[u8]
        ensures { result.now ≡ key self.now };
}

impl Keyed for List<u8> {
    ghost key = { λ s. s };

    fn key(&self) -> &[u8] {
        self.as_slice()
    }
}

impl Keyed for Text {
    ghost key = { λ s. s };

    fn key(&self) -> &[u8] {
        self.as_str().as_bytes()
    }
}

fn place_at(places: &BTreeMap<Vec<u8>, usize>, key: &[u8]) -> Option<usize>
    ensures { result ≡ definitions.place_in places.now key.now }
{
    match places.get(key) {
        Some(place) => Some(*place),
        None => None,
    }
}

/// The places with that of one more key, unless they have it already.
fn with_place(
    alloc: Global,
    mut places: BTreeMap<Vec<u8>, usize>,
    key: &[u8],
    place: usize,
) -> Result<BTreeMap<Vec<u8>, usize>, NoMemory>
    ensures { IfOk result (λ more. (q : Items ℕ) → definitions.place_in more q ≡ definitions.with_place key.now place (definitions.place_in places) q) }
{
    if place_at(&places, key).is_some() {
        return Ok(places);
    }
    let key = Vec::from_slice(alloc, key)?;
    match places.insert(key, place) {
        Ok(_) => Ok(places),
        Err(_) => Err(NoMemory),
    }
}

/// Entries in the order in which they were added. The place of each key stands in a map besides, so that
/// finding one among many takes little time.
#[derive(Drop)]
pub struct Entries<T: Keyed + Drop> {
    list: List<T>,
    places: BTreeMap<Vec<u8>, usize>,
}

impl<T: Keyed + Drop> Model for Entries<T> {
    ghost use Rattle.std.specs.Prelude.{◌≡◌, ℕ, List as Items};
    ghost use Rattle.std.specs.List.{position_from};
    ghost use Rattle.std.specs.Str.{bytes_eq};
    ghost use Rattle.fk_scenario.specs.Fields.Entries as definitions;

    ghost Value = { Items T };

    ghost view = { λ s. s.list };

    ghost invariant = { λ s. (key : Items ℕ) → definitions.place_in s.places key ≡ position_from (λ x. bytes_eq (T.key x) key) 0 s.list };
}

impl<T: Keyed + Drop> Entries<T> {
    /// No entries.
    pub fn new(alloc: Global) -> Entries<T>
        ensures { result ≡ [] }
    {
        Entries {
            list: List::new(alloc),
            places: BTreeMap::new(alloc),
        }
    }

    /// How many there are.
    pub fn len(&self) -> usize
        ensures { result ≡ length self.now }
    {
        self.list.len()
    }

    /// The entries in their order.
    pub fn as_slice(&self) -> &[T]
        ensures { result.now ≡ self.now }
    {
        self.list.as_slice()
    }

    /// The index of the first entry with a key.
    pub fn position(&self, key: &[u8]) -> Option<usize>
        ensures { result ≡ position_from (λ x. bytes_eq (T.key x) key.now) 0 self.now }
    {
        place_at(&self.places, key)
    }

    /// The first entry with a key.
    pub fn find(&self, key: &[u8]) -> Option<&T>
        ensures { option_copied result ≡ find (λ x. bytes_eq (T.key x) key.now) self.now }
    {
        match self.position(key) {
            Some(place) => self.list.as_slice().get(place),
            None => None,
        }
    }

    /// Whether an entry has a key.
    pub fn has(&self, key: &[u8]) -> bool
        ensures { result ≡ list_any (λ x. bytes_eq (T.key x) key.now) self.now }
    {
        self.position(key).is_some()
    }

    /// These and one more at the end.
    ///
    /// # Errors
    ///
    /// There is no memory for one entry more.
    pub fn with(self, alloc: Global, entry: T) -> Result<Entries<T>, NoMemory>
        ensures { IfOk result (λ more. more ≡ self ++ entry ∷ []) }
    {
        let Entries { mut list, places } = self;
        let places = with_place(alloc, places, entry.key(), list.len())?;
        list.push(entry)?;
        Ok(Entries { list, places })
    }

    /// The list of them.
    pub fn into_list(self) -> List<T>
        ensures { result ≡ self }
    {
        self.list
    }
}
