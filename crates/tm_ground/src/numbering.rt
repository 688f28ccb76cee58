ghost use Rattle.std.specs.Prelude.{◌≡◌, ◌<◌, ◌^◌, Contains, IfOk, length, map, Some, slice_get};
ghost use Rattle.std.specs.List.{AllZip};
ghost use Rattle.tm_ground.specs.Closed.{as_elements, put_in, tuple};
ghost use Rattle.tm_ground.specs.Found.{HasNumbersIn, HaveNumbersIn, IsNumberedIn};
ghost use Rattle.tm_ground.specs.Sets.{closed_types};

use crate::found::Found;
use crate::type_set::TypeSet;
use std::alloc::Global;
use tm_base::{Boxed, Ground, List, Memory, NamedId, RefId, RegionId};
use tm_names::Open;

/// The place of a type with its regions and arguments put in, which is in a set.
fn place(
    alloc: Global,
    set: &TypeSet,
    regions: &[RegionId],
    args: &[Open],
    ty: &Open,
) -> Result<u32, Memory>
    requires few { length (closed_types set.now) < 2 ^ 32 }
    requires there { Contains (closed_types set.now)
        (put_in regions.now (closed_types args.now) ty.now) }
    ensures { IfOk result (λ k. slice_get (closed_types set.now) k
        ≡ Some (put_in regions.now (closed_types args.now) ty.now)) }
{
    match set.place_of(alloc, regions, args, ty)? {
        Some(place) => Ok(place as u32),
        None => unreachable!(),
    }
}

/// A type with its numbers, where these are the regions and the arguments of its parameters.
#[cycle(numbered)]
pub fn numbered(
    alloc: Global,
    found: &Found,
    regions: &[RegionId],
    args: &[Open],
    ty: &Open,
) -> Result<Ground, Memory>
    requires { HasNumbersIn found.now (put_in regions.now (closed_types args.now) ty.now) }
    ensures { IfOk result
        (IsNumberedIn found.now (put_in regions.now (closed_types args.now) ty.now)) }
{
    match ty {
        Open::Prim(primitive) => Ok(Ground::Prim(*primitive)),
        Open::Never => Ok(Ground::Never),
        Open::Tuple(elements) => numbered_tuple(alloc, found, regions, args, elements.as_slice()),
        Open::Array(element, length) => {
            let element = numbered(alloc, found, regions, args, element.get())?;
            Ok(Ground::Array(Boxed::new(alloc, element)?, *length))
        }
        Open::NonZero(primitive) => Ok(Ground::NonZero(*primitive)),
        Open::Wrap(wrapper, argument) => {
            let argument = numbered(alloc, found, regions, args, argument.get())?;
            Ok(Ground::Wrap(*wrapper, Boxed::new(alloc, argument)?))
        }
        Open::Named(_, _, _) => {
            let place = place(alloc, &found.named, regions, args, ty)?;
            Ok(Ground::Named(NamedId(place)))
        }
        Open::Ref(_, _, _) => {
            let place = place(alloc, &found.refs, regions, args, ty)?;
            Ok(Ground::Ref(RefId(place)))
        }
        Open::Param(place) => match args.get(*place as usize) {
            Some(arg) => numbered(alloc, found, &[], &[], arg),
            None => Ok(Ground::Never),
        },
    }
}

/// A tuple with its numbers.
#[cycle(numbered)]
fn numbered_tuple(
    alloc: Global,
    found: &Found,
    regions: &[RegionId],
    args: &[Open],
    elements: &[Open],
) -> Result<Ground, Memory>
    requires { HaveNumbersIn found.now
        (map (put_in regions.now (closed_types args.now)) elements.now) }
    ensures { IfOk result (IsNumberedIn found.now
        (tuple (as_elements (map (put_in regions.now (closed_types args.now)) elements.now)))) }
{
    if elements.is_empty() {
        return Ok(Ground::Unit);
    }
    let elements = all_numbered(alloc, found, regions, args, elements)?;
    Ok(Ground::Tuple(elements))
}

/// Types with their numbers, in order.
#[cycle(numbered)]
pub fn all_numbered(
    alloc: Global,
    found: &Found,
    regions: &[RegionId],
    args: &[Open],
    types: &[Open],
) -> Result<List<Ground>, Memory>
    requires { HaveNumbersIn found.now
        (map (put_in regions.now (closed_types args.now)) types.now) }
    ensures { IfOk result (AllZip (IsNumberedIn found.now)
        (map (put_in regions.now (closed_types args.now)) types.now)) }
{
    let mut all = List::new(alloc);
    for ty in types {
        all.add(numbered(alloc, found, regions, args, ty)?)?;
    }
    Ok(all)
}
