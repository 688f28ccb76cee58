ghost use Rattle.std.specs.Prelude.{◌≡◌, ◌++◌, ◌∷◌, [], All, List, if◌then◌else◌, IfOk};
ghost use Rattle.tm_base.specs.declared.ground.Ground.{Ground, out-Ground};
ghost use Rattle.tm_base.specs.Orders.{text_less};
ghost use Rattle.tm_base.specs.Reaches.{IsAtFault};
ghost use Rattle.tm_base.specs.Worlds.{IsTypeOver, tables_of};
ghost use Rattle.tm_layout.specs.Least.{IsLeastAnswer, IsRefused, is_seen};
ghost use Rattle.tm_layout.specs.Made.{IsMadeFor};
ghost use Rattle.tm_layout.specs.Named.{IsRefusedAnswer};
ghost use Rattle.tm_layout.specs.Reached.{named_after, types_at};

use crate::layouts::Layouts;
use crate::reached::{mark, no_marks, reached_types};
use std::alloc::Global;
use std::cmp::Ordering;
use tm_base::{Ground, Memory, Text, Why, World, text_of};

/// A type at fault, with its cause and its canonical text.
#[derive(Debug, Drop)]
struct Refused {
    why: Why,
    found: Ground,
    text: Text,
}

/// A type with its cause and its text.
fn with_text(alloc: Global, world: &World, why: Why, g: &Ground) -> Result<Refused, Memory>
    requires { IsAtFault (tables_of world.now) g.now why }
    ensures is { IfOk result (IsRefused (tables_of world.now)) }
    ensures found { IfOk result (λ refused. refused.found ≡ g.now) }
{
    let found = g.copy(alloc)?;
    let text = text_of(alloc, world, g)?;
    Ok(Refused { why, found, text })
}

/// Whether a text stands before another in byte order.
fn stands_before(text: &str, other: &str) -> bool
    ensures { result ≡ text_less text.now other.now }
{
    text.cmp(other) == Ordering::Less
}

/// The second where its text is less, else the first.
fn lesser(first: Refused, second: Refused) -> Refused
    ensures { result ≡ (if text_less second.text first.text then second else first) }
{
    if stands_before(second.text.as_str(), first.text.as_str()) {
        second
    } else {
        first
    }
}

/// The least of some types at fault and of one type more, where that is at fault.
fn least_with(
    alloc: Global,
    world: &World,
    layouts: &Layouts,
    least: Option<Refused>,
    g: &Ground,
) -> Result<Option<Refused>, Memory>
    requires layouts_are { IsMadeFor (tables_of world.now) layouts.now }
    requires type_is { IsTypeOver (tables_of world.now) g.now }
    ensures { IfOk result
        (λ next. (types : List Ground) → IsLeastAnswer (tables_of world.now) types least
        → IsLeastAnswer (tables_of world.now) (types ++ g.now ∷ []) next) }
{
    let why = match layouts.fault(g) {
        None => return Ok(least),
        Some(why) => why,
    };
    let refused = with_text(alloc, world, why, g)?;
    match least {
        None => Ok(Some(refused)),
        Some(other) => Ok(Some(lesser(other, refused))),
    }
}

/// Whether a type is a named one that was seen before. From now on it was.
fn was_seen(seen: &mut Vec<bool>, g: &Ground) -> bool
    ensures was { result ≡ is_seen seen.old.items (out-Ground g.now) }
    ensures now { seen.new.items ≡ named_after seen.old.items (out-Ground g.now) }
{
    match g {
        Ground::Named(id) => mark(seen, id.0 as usize),
        _ => false,
    }
}

/// The least of some types at fault. However often a named type stands among them, it is looked at once.
fn least_of(
    alloc: Global,
    world: &World,
    layouts: &Layouts,
    types: &[&Ground],
) -> Result<Option<Refused>, Memory>
    requires layouts_are { IsMadeFor (tables_of world.now) layouts.now }
    requires types_are { All (IsTypeOver (tables_of world.now)) (types_at types.now) }
    ensures { IfOk result (IsLeastAnswer (tables_of world.now) (types_at types.now)) }
{
    let mut seen = no_marks(alloc, world.named.len())?;
    let mut least = None;
    for g in types {
        if !was_seen(&mut seen, g) {
            least = least_with(alloc, world, layouts, least, g)?;
        }
    }
    Ok(least)
}

/// A type at fault that a type reaches, with its cause: the one with the least canonical text, in byte
/// order. `None` exactly where it reaches none. `Memory`: there wasn't enough memory.
pub fn first_refused(
    alloc: Global,
    world: &World,
    layouts: &Layouts,
    g: &Ground,
) -> Result<Option<(Why, Ground)>, Memory>
    requires layouts_are { IsMadeFor (tables_of world.now) layouts.now }
    requires type_is { IsTypeOver (tables_of world.now) g.now }
    ensures { IfOk result (IsRefusedAnswer (tables_of world.now) g.now) }
{
    let types = reached_types(alloc, world, g)?;
    let least = least_of(alloc, world, layouts, types.as_slice())?;
    match least {
        Some(refused) => Ok(Some((refused.why, refused.found))),
        None => Ok(None),
    }
}
