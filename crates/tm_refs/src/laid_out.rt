ghost use Rattle.std.specs.Prelude.{◌≡◌};
ghost use Rattle.tm_base.specs.Layout.{align_of, size_of};
ghost use Rattle.tm_base.specs.Tables.{expanded_in};
ghost use Rattle.tm_base.specs.Worlds.{tables_of};
ghost use Rattle.tm_layout.specs.Made.{IsMadeFor};
ghost use Rattle.tm_layout.specs.LaidOut.{IsLaidOut};

use tm_base::{Ground, World};
use tm_layout::{Layout, Layouts};

/// The layout of a type that has one.
pub fn layout(world: &World, layouts: &Layouts, g: &Ground) -> Layout
    requires made { IsMadeFor (tables_of world.now) layouts.now }
    requires has { IsLaidOut (tables_of world.now) g.now }
    ensures size { result.size ≡ size_of (expanded_in (tables_of world.now) g.now) }
    ensures align { result.align ≡ align_of (expanded_in (tables_of world.now) g.now) }
{
    let _ = world;
    match layouts.of(g) {
        Ok(layout) => layout,
        Err(_) => unreachable!(),
    }
}
