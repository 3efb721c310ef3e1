//! Before which of its kernel's moves each porter has made the calls on which a fate hangs.
ghost use Rattle.std.specs.Prelude.{◌≡◌, ◌<◌};
ghost use Rattle.fk_migrate.specs.Fates.{calls_of};
ghost use Rattle.fk_migrate.specs.Places.{far_counted, first_at, last_at, near_counted, no_places};

/// How many moves each kernel has made, and how many of them before some calls of its porter.
#[derive(Clone, Copy)]
pub struct Places {
    pub near: u64,
    pub far: u64,
    /// The near porter's first call.
    pub hold: Option<u64>,
    /// The far porter's first call.
    pub make: Option<u64>,
    /// The far porter's last call.
    pub release: Option<u64>,
}

/// The places of the three calls on which a fate hangs.
#[derive(Clone, Copy)]
pub struct Calls {
    pub hold: u64,
    pub make: u64,
    pub release: u64,
}

/// The place of the first call, once there is another move.
fn first_at(was: Option<u64>, is_own: bool, at: u64) -> Option<u64>
    ensures { result ≡ first_at was is_own at }
{
    match was {
        Some(place) => Some(place),
        None => if is_own { Some(at) } else { None },
    }
}

/// The place of the last one.
fn last_at(was: Option<u64>, is_own: bool, at: u64) -> Option<u64>
    ensures { result ≡ last_at was is_own at }
{
    if is_own { Some(at) } else { was }
}

impl Places {
    pub fn new() -> Places
        ensures { result ≡ no_places }
    {
        Places {
            near: 0,
            far: 0,
            hold: None,
            make: None,
            release: None,
        }
    }

    /// With a move of the near kernel, which is its porter's or isn't. There were fewer moves than so many.
    pub fn near(self, is_own: bool, most: usize) -> Places
        requires { self.near < most }
        ensures { result ≡ near_counted self is_own }
    {
        Places {
            near: self.near + 1,
            hold: first_at(self.hold, is_own, self.near),
            ..self
        }
    }

    /// With a move of the far kernel, which is its porter's or isn't. There were fewer moves than so many.
    pub fn far(self, is_own: bool, most: usize) -> Places
        requires { self.far < most }
        ensures { result ≡ far_counted self is_own }
    {
        Places {
            far: self.far + 1,
            make: first_at(self.make, is_own, self.far),
            release: last_at(self.release, is_own, self.far),
            ..self
        }
    }

    /// All three places, once there are all of them.
    pub fn calls(self) -> Option<Calls>
        ensures { result ≡ calls_of self }
    {
        let Some(hold) = self.hold else {
            return None;
        };
        let Some(make) = self.make else {
            return None;
        };
        let Some(release) = self.release else {
            return None;
        };
        Some(Calls {
            hold,
            make,
            release,
        })
    }
}
