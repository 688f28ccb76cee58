ghost use Rattle.std.specs.Prelude.{◌≡◌, ℕ, ◌≤◌, ◌+◌, Bool, IfOk};
ghost use Rattle.tm_base.specs.declared.assume.Assume.{Assume};
ghost use Rattle.tm_base.specs.declared.ground.Ground.{Ground};
ghost use Rattle.tm_base.specs.Tables.{Tables};
ghost use Rattle.tm_base.specs.Worlds.{tables_of};
ghost use Rattle.tm_layout.specs.Made.{IsMadeFor};
ghost use Rattle.tm_refs.specs.Looks.{IsCompatibility, most_looks};
ghost use Rattle.tm_refs.specs.Serves.{HoldsReference, ServesFor};
ghost use Rattle.tm_refs.specs.Solved.{IsDepthAnswer, IsSolvedFor, IsWhyAnswer, compatible_in, depth_in, why_in};
ghost use Rattle.tm_region.specs.Order.{IsOrderOf};

use crate::first::first_table;
use crate::leaves::Leaves;
use crate::pointees::Pointees;
use crate::rounds::Rounds;
use crate::table::Table;
use std::alloc::Global;
use std::sync::ledger::Ledger;
use tm_base::{Assume, LocalRule, Memory, RefId, RefTest, Steps, World};
use tm_layout::Layouts;
use tm_region::Order;

/// Which references of a world may be taken as which, at every depth, under some assumptions.
#[derive(Debug, Drop)]
pub struct Compat {
    assume: Assume,
    table: Table,
}

impl RefTest for Compat {
    ghost test = { λ compat source target. compatible_in compat source target };

    /// Whether the source reference may be taken as the target reference, at every depth. It may
    /// not where the world has no such reference.
    fn holds(&self, source: RefId, target: RefId) -> bool {
        self.table.standing(source, target).depth().is_none()
    }
}

impl Compat {
    /// The table of a world's references under some assumptions.
    ///
    /// A look at a pair asks whether its pointees' values go together, once or twice, and is counted
    /// in `looks`: each pair is looked at once, and again at most once for each pair that it depends on
    /// and that isn't compatible. `Memory`: there wasn't enough memory.
    pub fn solve<L: Ledger>(
        alloc: Global,
        world: &World,
        layouts: &Layouts,
        order: &Order,
        assume: Assume,
        looks: &mut Steps<L>,
    ) -> Result<Compat, Memory>
        requires made { IsMadeFor (tables_of world.now) layouts.now }
        requires order { IsOrderOf world.now.bounds order.now }
        ensures solved { IfOk result (IsSolvedFor (tables_of world.now) assume) }
        ensures serves { IfOk result (λ compat. (g : Ground)
            → ServesFor (tables_of world.now) assume g compat) }
        ensures looks { (compatible : ℕ → ℕ → Bool)
            → IsCompatibility (tables_of world.now) assume compatible
            → looks.new ≤ looks.old + most_looks (tables_of world.now) compatible }
    {
        let pointees = Pointees::new(alloc, world, layouts, assume)?;
        let first = first_table(alloc, world, layouts, order, assume, &pointees)?;
        let leaves = Leaves::new(alloc, world)?;
        let rounds = Rounds {
            alloc,
            world,
            assume,
            pointees,
            leaves,
        };
        let table = rounds.solve(first, looks)?;
        Ok(Compat { assume, table })
    }

    /// The table of no references, for some assumptions. It serves for each type that holds no
    /// reference by value.
    pub fn empty(alloc: Global, assume: Assume) -> Compat
        ensures { (tables : Tables) (g : Ground) → ¬ HoldsReference tables g
            → ServesFor tables assume g result }
    {
        let table = Table {
            rows: Vec::new(alloc),
            depth: 0,
        };
        Compat { assume, table }
    }

    /// How many levels of pointees it takes to see that the source reference may not be taken as
    /// the target reference: 0 where the two by themselves show it. `None` where it may.
    pub fn depth(&self, source: RefId, target: RefId) -> Option<u32>
        ensures is { result ≡ depth_in self.now source.0 target.0 }
        ensures answer { (tables : Tables) (assume : Assume) → IsSolvedFor tables assume self.now
            → IsDepthAnswer tables assume source.0 target.0 result }
    {
        self.table.standing(source, target).depth()
    }

    /// The first local rule that the two break. `None` where they break none, where one of their
    /// pointees isn't judged, and where the world has no such reference.
    pub fn why(&self, source: RefId, target: RefId) -> Option<LocalRule>
        ensures is { result ≡ why_in self.now source.0 target.0 }
        ensures answer { (tables : Tables) (assume : Assume) → IsSolvedFor tables assume self.now
            → IsWhyAnswer tables assume source.0 target.0 result }
    {
        self.table.standing(source, target).rule()
    }

    /// The assumptions that the table was solved for.
    pub fn assume(&self) -> Assume
        ensures { (tables : Tables) (assume : Assume) → IsSolvedFor tables assume self.now
            → result ≡ assume }
    {
        self.assume
    }
}
