//! The values of a type as an automaton.
ghost use Rattle.std.specs.Prelude.{◌≡◌, IfOk};
ghost use Rattle.tm_auto.specs.Automata.{HasOneStateALayer};
ghost use Rattle.tm_base.specs.Parts.{HasNoAlternatives};
ghost use Rattle.tm_base.specs.Profiles.{pointer_size};
ghost use Rattle.tm_base.specs.Reaches.{IsJudged};
ghost use Rattle.tm_base.specs.Tables.{expanded_in};
ghost use Rattle.tm_base.specs.Worlds.{IsTypeOver, tables_of};
ghost use Rattle.tm_layout.specs.Made.{IsMadeFor};
ghost use Rattle.tm_refs.specs.Pointees.{IsAutomatonOf};

use crate::laid_out::layout;
use std::alloc::Global;
use tm_auto::Auto;
use tm_base::{Ground, Memory, Profile, World};
use tm_layout::Layouts;
use tm_tree::{prune, tree_of};

/// The automaton of the values of a judged type, where private types keep theirs or have none. Where the type
/// has no alternatives, it has one state at each place at most. `Memory`: there wasn't enough memory.
pub fn automaton_of(
    alloc: Global,
    world: &World,
    layouts: &Layouts,
    g: &Ground,
    keep_private: bool,
) -> Result<Auto, Memory>
    requires made { IsMadeFor (tables_of world.now) layouts.now }
    requires over { IsTypeOver (tables_of world.now) g.now }
    requires judged { IsJudged (tables_of world.now) g.now }
    ensures automaton { IfOk result (IsAutomatonOf (tables_of world.now) keep_private g.now) }
    ensures single { HasNoAlternatives (expanded_in (tables_of world.now) g.now)
        → IfOk result (λ auto. HasOneStateALayer auto) }
{
    let size = layout(world, layouts, g).size;
    let tree = prune(alloc, tree_of(alloc, world, layouts, g)?, keep_private)?;
    Auto::build(alloc, &tree, size, pointer_size(world.profile))
}

/// The size of a reference, in bytes.
fn pointer_size(profile: Profile) -> u32
    ensures { result ≡ pointer_size profile }
{
    match profile {
        Profile::Le64 | Profile::Be64 => 8,
        Profile::Le32 => 4,
    }
}
