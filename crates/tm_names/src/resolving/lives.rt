ghost use Rattle.std.specs.Prelude.{◌≡◌, IfOk, map};
ghost use Rattle.tm_names.specs.Resolutions.{bound_of, region_of};
ghost use Rattle.tm_names.specs.Sights.{life_in};
ghost use Rattle.tm_names.specs.Source.{names_in};

use crate::adding::add;
use crate::resolved::Life;
use crate::resolving::resolver::Resolver;
use crate::resolving::sight::{Names, Sight};
use crate::source::Source;
use tm_base::{Bound, List, Memory, RegionId};
use tm_parse::DeclBound;

impl Resolver<'_, '_> {
    /// What the lifetime at a place means, where it is in sight.
    pub fn life(&self, place: u32) -> Life
        ensures { result ≡ life_in (names_in self.now.file.source) self.now.sight place }
    {
        let source = self.file.source;
        if source.is_static(place) {
            return Life::Static;
        }
        match self.sight {
            Sight::Params(params, _) => match source.first_among(params.places, place) {
                None => Life::Static,
                Some(number) => Life::Param(number as u32),
            },
            Sight::Declared(lifetimes) => match source.first_among(lifetimes.places, place) {
                None => Life::Static,
                Some(number) => Life::Declared(number as u32 + 1),
            },
        }
    }

    /// What lifetimes mean.
    pub fn lives(&self, places: &[u32]) -> Result<List<Life>, Memory>
        ensures { IfOk result (λ lives. lives ≡ map
            (life_in (names_in self.now.file.source) self.now.sight) places.now) }
    {
        let mut lives = List::new(self.file.alloc);
        for place in places {
            add(&mut lives, self.life(*place))?;
        }
        Ok(lives)
    }
}

impl Source<'_> {
    /// The region of the declared lifetime at a place, or of `'static`.
    fn region(&self, lifetimes: &Names, place: u32) -> RegionId
        ensures { result ≡ region_of (names_in self.now) lifetimes.now.places.now place }
    {
        if self.is_static(place) {
            return RegionId(0);
        }
        match self.first_among(lifetimes.places, place) {
            None => RegionId(0),
            Some(number) => RegionId(number as u32 + 1),
        }
    }

    /// The regions of an item `outlives`.
    pub fn bound(&self, lifetimes: &Names, bound: &DeclBound) -> Bound
        ensures { result ≡ bound_of (names_in self.now) lifetimes.now.places.now bound.now }
    {
        Bound {
            longer: self.region(lifetimes, bound.longer),
            shorter: self.region(lifetimes, bound.shorter),
        }
    }
}
