ghost use Rattle.std.specs.Prelude.{◌≡◌, All, map, IfOk};
ghost use Rattle.std.specs.List.Sorted.{IsPermutation};
ghost use Rattle.tm_base.specs.Whole.{AreDistinct};
ghost use Rattle.tm_ground.specs.Closed.{closed};
ghost use Rattle.tm_ground.specs.ClosedTexts.{AreInOrder};
ghost use Rattle.tm_ground.specs.Found.{AreRowsIn, AreSortedIn, HasItsTextIn, HasNumbersIn, HaveNumbersIn, IsAllOf};
ghost use Rattle.tm_ground.specs.Limits.{PassesDepth};
ghost use Rattle.tm_ground.specs.Sets.{closed_types};
ghost use Rattle.tm_ground.specs.Texted.{type_of_texted};
ghost use Rattle.tm_names.specs.InForm.{IsInForm};

use crate::found::Found;
use crate::numbering::numbered;
use crate::regions::fixed;
use crate::rows::Rows;
use crate::type_set::TypeSet;
use crate::worlds::make_world;
use std::alloc::Global;
use tm_base::{List, Memory, Text, World, text_of};
use tm_names::{Open, Resolved};

/// A type and its canonical text.
#[derive(Debug, Drop)]
pub struct Texted {
    text: Text,
    ty: Open,
}

/// A type with its canonical text, where numbers are those of a world.
fn with_text(alloc: Global, found: &Found, world: &World, ty: &Open) -> Result<Texted, Memory>
    requires { HasNumbersIn found.now (closed ty.now) }
    ensures text { IfOk result (HasItsTextIn found.now world.now) }
    ensures same { IfOk result (λ texted. type_of_texted texted ≡ closed ty.now) }
{
    let number = numbered(alloc, found, &[], &[], ty)?;
    Ok(Texted {
        text: text_of(alloc, world, &number)?,
        ty: fixed(alloc, &[], &[], ty)?,
    })
}

/// Types, each with its canonical text.
fn with_texts(
    alloc: Global,
    found: &Found,
    world: &World,
    types: &[Open],
) -> Result<Vec<Texted>, Memory>
    requires { HaveNumbersIn found.now (closed_types types.now) }
    ensures types { IfOk result (λ all. map type_of_texted all.items ≡ closed_types types.now) }
    ensures texts { IfOk result (λ all. All (HasItsTextIn found.now world.now) all.items) }
{
    let mut all = Vec::new(alloc);
    for ty in types {
        all.push(with_text(alloc, found, world, ty)?)?;
    }
    Ok(all)
}

/// The types, without their texts.
fn without_texts(alloc: Global, all: Vec<Texted>) -> Result<List<Open>, Memory>
    ensures { IfOk result (λ types. types ≡ map (λ texted. texted.ty) all.items) }
{
    let mut types = List::new(alloc);
    for texted in all {
        types.add(texted.ty)?;
    }
    Ok(types)
}

/// The types of a set, in byte order of their canonical texts.
fn in_text_order(
    alloc: Global,
    found: &Found,
    world: &World,
    set: &TypeSet,
) -> Result<TypeSet, Memory>
    requires numbers { HaveNumbersIn found.now (closed_types set.now) }
    requires distinct { AreDistinct (closed_types set.now) }
    ensures moved { IfOk result
        (λ ordered. IsPermutation (closed_types set.now) (closed_types ordered)) }
    ensures sorted { IfOk result
        (λ ordered. AreSortedIn found.now world.now (closed_types ordered)) }
{
    let mut all = with_texts(alloc, found, world, set.types())?;
    all.sort_unstable_by(|some, other| some.text.as_str().cmp(other.text.as_str()));
    TypeSet::of(alloc, without_texts(alloc, all)?)
}

/// The types that occur, the named types and the references each in byte order of their canonical
/// texts.
pub fn in_order(
    alloc: Global,
    resolved: &Resolved,
    found: &Found,
    rows: Rows,
) -> Result<Found, Memory>
    requires form { IsInForm resolved.now }
    requires whole { IsAllOf found.now resolved.now }
    requires rows { AreRowsIn found.now resolved.now rows }
    requires shallow { ¬ PassesDepth resolved.now }
    ensures whole { IfOk result (λ ordered. IsAllOf ordered resolved.now) }
    ensures named { IfOk result (λ ordered. AreInOrder resolved.now (closed_types ordered.named)) }
    ensures refs { IfOk result (λ ordered. AreInOrder resolved.now (closed_types ordered.refs)) }
{
    let world = make_world(alloc, resolved, rows)?;
    Ok(Found {
        named: in_text_order(alloc, found, &world, &found.named)?,
        refs: in_text_order(alloc, found, &world, &found.refs)?,
    })
}
