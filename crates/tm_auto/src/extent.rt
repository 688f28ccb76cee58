ghost use Rattle.std.specs.Prelude.{◌≡◌};
ghost use Rattle.tm_auto.specs.Shapes.{extent_of, in_turn, one_of, both_extents, either_extent};

use tm_base::Tree;

/// What words a tree has, where they all have one size: none, the empty one, or such as have cells.
#[derive(Clone, Copy, PartialEq, Eq, Debug)]
pub(crate) enum Extent {
    Dead,
    Empty,
    Long,
}

impl Extent {
    /// That of a tree.
    #[cycle(extent)]
    pub(crate) fn of(tree: &Tree) -> Extent
        ensures { result ≡ extent_of tree.now }
    {
        match tree {
            Tree::Never => Extent::Dead,
            Tree::Range(low, high) => {
                if *low <= *high {
                    Extent::Long
                } else {
                    Extent::Dead
                }
            }
            Tree::Pad => Extent::Long,
            Tree::Ref(_) => Extent::Long,
            Tree::Seq(trees) => Extent::in_turn(trees.as_slice()),
            Tree::Alt(trees) => Extent::one_of(trees.as_slice()),
            Tree::Repeat(count, part) => {
                if *count == 0 {
                    Extent::Empty
                } else {
                    Extent::of(part.get())
                }
            }
            Tree::Private(_) => Extent::Dead,
        }
    }

    // That of trees one after another.
    #[cycle(extent)]
    fn in_turn(trees: &[Tree]) -> Extent
        ensures { result ≡ in_turn trees.now }
    {
        let mut whole = Extent::Empty;
        for tree in trees {
            whole = whole.and(Extent::of(tree));
        }
        whole
    }

    // That of one of some trees.
    #[cycle(extent)]
    fn one_of(trees: &[Tree]) -> Extent
        ensures { result ≡ one_of trees.now }
    {
        let mut whole = Extent::Dead;
        for tree in trees {
            whole = whole.or(Extent::of(tree));
        }
        whole
    }

    // That of two trees one after the other.
    fn and(self, other: Extent) -> Extent
        ensures { result ≡ both_extents self other }
    {
        match (self, other) {
            (Extent::Dead, _) => Extent::Dead,
            (Extent::Empty, other) => other,
            (Extent::Long, Extent::Dead) => Extent::Dead,
            (Extent::Long, _) => Extent::Long,
        }
    }

    // That of one tree or another.
    fn or(self, other: Extent) -> Extent
        ensures { result ≡ either_extent self other }
    {
        match self {
            Extent::Dead => other,
            Extent::Empty => Extent::Empty,
            Extent::Long => Extent::Long,
        }
    }
}
