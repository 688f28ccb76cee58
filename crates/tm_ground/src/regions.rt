ghost use Rattle.std.specs.Prelude.{◌≡◌, [], map, IfOk};
ghost use Rattle.tm_ground.specs.Closed.{closed, put_in, region_of};
ghost use Rattle.tm_ground.specs.Sets.{closed_types};

use std::alloc::Global;
use tm_base::{Boxed, List, Memory, RegionId};
use tm_names::{Life, Open};

/// The region that a lifetime stands for, where these are those of the parameters.
pub fn region(regions: &[RegionId], life: Life) -> RegionId
    ensures { result ≡ region_of regions.now life }
{
    match life {
        Life::Static => RegionId(0),
        Life::Declared(number) => RegionId(number),
        Life::Param(place) => match regions.get(place as usize) {
            Some(region) => *region,
            None => RegionId(0),
        },
    }
}

/// The regions that lifetimes without parameters stand for.
pub fn regions(alloc: Global, lives: &[Life]) -> Result<List<RegionId>, Memory>
    ensures { IfOk result (λ regions. regions ≡ map (region_of []) lives.now) }
{
    let mut regions = List::new(alloc);
    for life in lives {
        regions.add(region(&[], *life))?;
    }
    Ok(regions)
}

/// The same lifetimes, each as the region that it stands for.
fn fixed_lives(alloc: Global, regions: &[RegionId], lives: &[Life]) -> Result<List<Life>, Memory>
    ensures { IfOk result (λ fixed.
        map (region_of []) fixed ≡ map (region_of regions.now) lives.now) }
{
    let mut fixed = List::new(alloc);
    for life in lives {
        fixed.add(Life::Declared(region(regions, *life).0))?;
    }
    Ok(fixed)
}

/// The same type, with the regions and the arguments put in.
#[cycle(fixed)]
pub fn fixed(
    alloc: Global,
    regions: &[RegionId],
    args: &[Open],
    written: &Open,
) -> Result<Open, Memory>
    ensures { IfOk result (λ fixed.
        closed fixed ≡ put_in regions.now (closed_types args.now) written.now) }
{
    match written {
        Open::Prim(primitive) => Ok(Open::Prim(*primitive)),
        Open::Never => Ok(Open::Never),
        Open::Tuple(elements) => {
            let elements = all_fixed(alloc, regions, args, elements.as_slice())?;
            Ok(Open::Tuple(elements))
        }
        Open::Array(element, length) => {
            let element = Boxed::new(alloc, fixed(alloc, regions, args, element.get())?)?;
            Ok(Open::Array(element, *length))
        }
        Open::NonZero(primitive) => Ok(Open::NonZero(*primitive)),
        Open::Wrap(wrapper, argument) => {
            let argument = Boxed::new(alloc, fixed(alloc, regions, args, argument.get())?)?;
            Ok(Open::Wrap(*wrapper, argument))
        }
        Open::Named(def, lives, given) => {
            let lives = fixed_lives(alloc, regions, lives.as_slice())?;
            let given = all_fixed(alloc, regions, args, given.as_slice())?;
            Ok(Open::Named(*def, lives, given))
        }
        Open::Ref(life, mutable, pointee) => {
            let pointee = Boxed::new(alloc, fixed(alloc, regions, args, pointee.get())?)?;
            let life = Life::Declared(region(regions, *life).0);
            Ok(Open::Ref(life, *mutable, pointee))
        }
        Open::Param(place) => match args.get(*place as usize) {
            Some(arg) => fixed(alloc, &[], &[], arg),
            None => Ok(Open::Never),
        },
    }
}

/// The same types, in order, with the regions and the arguments put in.
#[cycle(fixed)]
pub fn all_fixed(
    alloc: Global,
    regions: &[RegionId],
    args: &[Open],
    types: &[Open],
) -> Result<List<Open>, Memory>
    ensures { IfOk result (λ fixed.
        closed_types fixed ≡ map (put_in regions.now (closed_types args.now)) types.now) }
{
    let mut all = List::new(alloc);
    for item in types {
        let item = fixed(alloc, regions, args, item)?;
        all.add(item)?;
    }
    Ok(all)
}
