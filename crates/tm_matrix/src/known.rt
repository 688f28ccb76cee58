ghost use Rattle.std.specs.Prelude.{◌≡◌, ◌↔◌, All, IfOk, IsTrue};
ghost use Rattle.tm_base.specs.Reaches.{IsJudged};
ghost use Rattle.tm_base.specs.Worlds.{IsTypeOver, tables_of};
ghost use Rattle.tm_layout.specs.Made.{IsMadeFor};
ghost use Rattle.tm_matrix.specs.Known.{IsKnown, IsBytesAnswer, grounds};
ghost use Rattle.tm_matrix.specs.Matrix.{bytes};

use std::alloc::Global;
use tm_base::{Boxed, Ground, List, Memory, Primitive, World};
use tm_layout::{Layouts, first_refused};

/// A type of the world, and whether it can be judged.
#[derive(Debug, Drop)]
pub struct Known {
    pub ground: Ground,
    pub judged: bool,
}

/// Whether a type can be judged: it reaches no type at fault.
fn is_judged(alloc: Global, world: &World, layouts: &Layouts, g: &Ground) -> Result<bool, Memory>
    requires layouts_are { IsMadeFor (tables_of world.now) layouts.now }
    requires type_is { IsTypeOver (tables_of world.now) g.now }
    ensures { IfOk result (λ judged. IsTrue judged ↔ IsJudged (tables_of world.now) g.now) }
{
    let refused = first_refused(alloc, world, layouts, g)?;
    Ok(refused.is_none())
}

/// A type with whether it can be judged.
fn known_of(
    alloc: Global,
    world: &World,
    layouts: &Layouts,
    ground: Ground,
) -> Result<Known, Memory>
    requires layouts_are { IsMadeFor (tables_of world.now) layouts.now }
    requires type_is { IsTypeOver (tables_of world.now) ground }
    ensures is { IfOk result (IsKnown (tables_of world.now)) }
    ensures same { IfOk result (λ known. known.ground ≡ ground) }
{
    let judged = is_judged(alloc, world, layouts, &ground)?;
    Ok(Known { ground, judged })
}

/// Copies of some types, in order, each with whether it can be judged.
pub fn known_types(
    alloc: Global,
    world: &World,
    layouts: &Layouts,
    types: &[Ground],
) -> Result<List<Known>, Memory>
    requires layouts_are { IsMadeFor (tables_of world.now) layouts.now }
    requires types_are { All (IsTypeOver (tables_of world.now)) types.now }
    ensures are { IfOk result (All (IsKnown (tables_of world.now))) }
    ensures same { IfOk result (λ knowns. grounds knowns ≡ types.now) }
{
    let mut knowns = List::new(alloc);
    for g in types {
        let copy = g.copy(alloc)?;
        knowns.add(known_of(alloc, world, layouts, copy)?)?;
    }
    Ok(knowns)
}

/// An array of so many bytes.
fn bytes(alloc: Global, size: u32) -> Result<Ground, Memory>
    ensures { IfOk result (λ array. array ≡ bytes size) }
{
    let byte = Boxed::new(alloc, Ground::Prim(Primitive::U8))?;
    Ok(Ground::Array(byte, size))
}

/// The array of as many bytes as a type has, with whether it can be judged. `None` exactly where the type
/// has no layout.
pub fn known_bytes(
    alloc: Global,
    world: &World,
    layouts: &Layouts,
    g: &Ground,
) -> Result<Option<Known>, Memory>
    requires layouts_are { IsMadeFor (tables_of world.now) layouts.now }
    requires type_is { IsTypeOver (tables_of world.now) g.now }
    ensures { IfOk result (IsBytesAnswer (tables_of world.now) g.now) }
{
    let layout = match layouts.of(g) {
        Ok(layout) => layout,
        Err(_) => return Ok(None),
    };
    let array = bytes(alloc, layout.size)?;
    Ok(Some(known_of(alloc, world, layouts, array)?))
}
