ghost use Rattle.std.specs.Prelude.{◌≡◌, ◌↔◌, IsTrue};

use smallvec::SmallVec;
use tm_auto::StateSet;
use tm_base::Cell;

/// The numbers of a source's and a target's set.
#[derive(Clone, Copy, PartialEq, Eq, Hash, Debug)]
pub struct Pair {
    pub source: usize,
    pub target: usize,
}

/// How a pair was first reached: the number of a pair of the layer before, and a cell behind it.
#[derive(Clone, Copy, PartialEq, Eq, Debug)]
pub struct Way {
    pub parent: usize,
    pub cell: Cell,
}

impl Default for Way {
    /// The way of a pair to which nothing leads. It says nothing.
    fn default() -> Way {
        Way {
            parent: 0,
            cell: Cell::Uninit,
        }
    }
}

/// The ways of a layer's pairs, in their order. Most layers have one pair, for which no memory is taken.
pub type Ways = SmallVec<Way, 1>;

/// A source's and a target's set that were reached, and how they first were.
#[derive(Drop)]
pub struct Reached {
    pub src: StateSet,
    pub dst: StateSet,
    pub way: Way,
}

impl Reached {
    /// Whether the sets are those of another pair.
    pub fn has_sets_of(&self, other: &Reached) -> bool
        ensures { IsTrue result
            ↔ ((self.now.src ≡ other.now.src) × (self.now.dst ≡ other.now.dst)) }
    {
        self.src.as_slice() == other.src.as_slice() && self.dst.as_slice() == other.dst.as_slice()
    }
}
