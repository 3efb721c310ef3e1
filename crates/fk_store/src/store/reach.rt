//! Where a page of a space is read or written.
ghost use Rattle.std.specs.Prelude.{◌≡◌, ℕ, suc, zero, option_map};
ghost use Rattle.fk_model.specs.Places.{Path};
ghost use Rattle.fk_model.specs.Objects as objects;
ghost use Rattle.fk_model.specs.Objects.{mapping_of, region_of, and_then};
ghost use Rattle.fk_model.specs.Reach as definition;
ghost use Rattle.fk_store.specs.Store.Paths.{path, place};
ghost use Rattle.fk_store.specs.Store.Bodies.{body_by, pointer_by};
ghost use Rattle.fk_store.specs.Store.World.{world};
ghost use Rattle.fk_store.specs.Store.Reaches.{window_by, extent_by, place_by, keeper_by, reach_by, hop_by, covering_mapping, covering_region};

use crate::store::Store;
use fk_model::{Body, Ptr, Who};

/// What an access to a page of a space comes to.
#[derive(Clone, Copy)]
pub enum Reach {
    /// This page is there.
    Home {
        space: u32,
        page: u8,
    },
    /// This page is missing. The port `keeper` takes the faults on it.
    Missing {
        space: u32,
        page: u8,
        keeper: Option<Who>,
    },
    /// It leads nowhere, or by more than 16 mappings.
    Bad,
}

/// The state of a mapping.
#[derive(Clone, Copy)]
struct Window {
    first: u8,
    count: u16,
    offset: u8,
    write: bool,
    region: Ptr,
}

/// The state of a region.
#[derive(Clone, Copy)]
struct Extent {
    first: u8,
    count: u16,
    write: bool,
    keeper: Ptr,
}

/// What one page of a space comes to.
#[derive(Clone, Copy)]
enum Hop {
    Home,
    Missing(Option<Who>),
    Broken,
    /// A mapping leads to this page of this space.
    On(u32, u8),
}

/// A page is among the `count` pages from `first` on.
fn covers(first: u8, count: u16, page: u8) -> bool
    ensures { result ≡ objects.covers first count page }
{
    first <= page && u32::from(page) < u32::from(first) + u32::from(count)
}

/// The state of a mapping, if the object is one.
fn window_of(body: &Body) -> Option<Window>
    ensures { (path : ℕ → Path) → option_map (window_by path) result ≡ mapping_of (body_by path body.now) }
{
    match *body {
        Body::Mapping {
            first,
            count,
            offset,
            write,
            region,
        } => Some(Window {
            first,
            count,
            offset,
            write,
            region,
        }),
        _ => None,
    }
}

/// The state of a region, if the object is one.
fn extent_of(body: &Body) -> Option<Extent>
    ensures { (path : ℕ → Path) → option_map (extent_by path) result ≡ region_of (body_by path body.now) }
{
    match *body {
        Body::Region {
            first,
            count,
            write,
            keeper,
        } => Some(Extent {
            first,
            count,
            write,
            keeper,
        }),
        _ => None,
    }
}

impl Store {
    /// Where a page of a space is read or written. A page that is there answers. Otherwise the
    /// mapping in the lowest slot that covers the page leads on, by at most 16 mappings; where
    /// nothing leads on the page is missing, and the region in the lowest slot that covers it names
    /// the keeper.
    #[tactic(auto, using(crate::proofs::InStore::finding::ReachLaws::hops))]
    pub fn reach(&self, space: u32, page: u8, write: bool) -> Reach
        ensures { reach_by (path self.now) result
            ≡ definition.reach (world self.now) (path self.now space) page write }
    {
        let mut at = space;
        let mut here = page;
        for _followed in 0..16u8 {
            match self.hop(at, here, write) {
                Hop::Home => {
                    return Reach::Home {
                        space: at,
                        page: here,
                    };
                }
                Hop::Missing(keeper) => {
                    return Reach::Missing {
                        space: at,
                        page: here,
                        keeper,
                    };
                }
                Hop::Broken => return Reach::Bad,
                Hop::On(next, there) => {
                    at = next;
                    here = there;
                }
            }
        }
        self.last(at, here, write)
    }

    /// What a page comes to after 16 mappings.
    fn last(&self, space: u32, page: u8, write: bool) -> Reach
        ensures { reach_by (path self.now) result
            ≡ definition.reach_within zero (world self.now) (path self.now space) page write }
    {
        match self.hop(space, page, write) {
            Hop::Home => Reach::Home { space, page },
            Hop::Missing(keeper) => Reach::Missing {
                space,
                page,
                keeper,
            },
            Hop::Broken | Hop::On(_, _) => Reach::Bad,
        }
    }

    /// What one page of a space comes to.
    #[tactic(auto, unfolding(fk_model::specs::Reach::reach_within))]
    fn hop(&self, space: u32, page: u8, write: bool) -> Hop
        ensures more { (n : ℕ) → let on = λ (s : Path) (other : ℕ). definition.reach_within n (world self.now) s other write in
            definition.reach_within (suc n) (world self.now) (path self.now space) page write
            ≡ hop_by (path self.now) on (path self.now space) page result }
        ensures last { definition.reach_within zero (world self.now) (path self.now space) page write
            ≡ hop_by (path self.now) (λ s other. definition.Reach.Bad) (path self.now space) page result }
    {
        if self.page(space, page).is_some() {
            return Hop::Home;
        }
        match self.mapping_at(space, page) {
            None => Hop::Missing(self.keeper(space, page)),
            Some(mapping) => match self.led_by(&mapping, page, write) {
                None => Hop::Broken,
                Some((next, other)) => Hop::On(next, other),
            },
        }
    }

    /// The mapping in the lowest slot that covers a page.
    fn mapping_at(&self, space: u32, page: u8) -> Option<Window>
        ensures { option_map (window_by (path self.now)) result
            ≡ definition.mapping_at (world self.now) (path self.now space) page }
    {
        let mut slot = 0u16;
        while slot < 256 {
            if self.is_bare(space, slot) {
                slot += 16;
            } else {
                let found = self.mapping_in(space, slot as u8, page);
                if found.is_some() {
                    return found;
                }
                slot += 1;
            }
        }
        None
    }

    /// The mapping in a slot, where there is one that covers a page.
    fn mapping_in(&self, space: u32, slot: u8, page: u8) -> Option<Window>
        ensures { option_map (window_by (path self.now)) result
            ≡ covering_mapping (world self.now) (path self.now space) page slot }
    {
        let mapping = window_of(self.at(Who { space, slot })?)?;
        if covers(mapping.first, mapping.count, page) {
            Some(mapping)
        } else {
            None
        }
    }

    /// The region in the lowest slot that covers a page.
    fn region_at(&self, space: u32, page: u8) -> Option<Extent>
        ensures { option_map (extent_by (path self.now)) result
            ≡ definition.region_at (world self.now) (path self.now space) page }
    {
        let mut slot = 0u16;
        while slot < 256 {
            if self.is_bare(space, slot) {
                slot += 16;
            } else {
                let found = self.region_in(space, slot as u8, page);
                if found.is_some() {
                    return found;
                }
                slot += 1;
            }
        }
        None
    }

    /// The region in a slot, where there is one that covers a page.
    fn region_in(&self, space: u32, slot: u8, page: u8) -> Option<Extent>
        ensures { option_map (extent_by (path self.now)) result
            ≡ covering_region (world self.now) (path self.now space) page slot }
    {
        let region = extent_of(self.at(Who { space, slot })?)?;
        if covers(region.first, region.count, page) {
            Some(region)
        } else {
            None
        }
    }

    /// The keeper of a page that is missing in a space.
    #[tactic(auto, unfolding(fk_model::specs::Reach::keeper))]
    fn keeper(&self, space: u32, page: u8) -> Option<Who>
        ensures { keeper_by (path self.now) result ≡ definition.keeper (world self.now) (path self.now space) page }
    {
        match self.region_at(space, page) {
            Some(
                Extent {
                    keeper: Ptr::At(port),
                    ..
                },
            ) => Some(port),
            _ => None,
        }
    }

    /// The page of another space to which a mapping leads.
    fn led_by(&self, mapping: &Window, page: u8, write: bool) -> Option<(u32, u8)>
        ensures { let m = window_by (path self.now) mapping.now in
            option_map (place_by (path self.now)) result
            ≡ definition.led_by (world self.now) m page write m.region }
    {
        match mapping.region {
            Ptr::At(to) => self.led_to(mapping, page, write, to),
            Ptr::Null | Ptr::Dead => None,
        }
    }

    /// The page of another space to which a mapping leads, where it leads to this object.
    fn led_to(&self, mapping: &Window, page: u8, write: bool, to: Who) -> Option<(u32, u8)>
        ensures { let region = place (path self.now) to in
            option_map (place_by (path self.now)) result
            ≡ and_then
            (definition.page_of_region (window_by (path self.now) mapping.now) page write region)
            (and_then region_of ((world self.now).body region)) }
    {
        let body = self.at(to)?;
        let region = extent_of(body)?;
        let place = u32::from(mapping.offset) + u32::from(page.saturating_sub(mapping.first));
        if place < u32::from(region.count) && (!write || (mapping.write && region.write)) {
            Some((to.space, (u32::from(region.first) + place) as u8))
        } else {
            None
        }
    }
}
