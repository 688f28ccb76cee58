ghost use Rattle.std.specs.Prelude.{◌≡◌, List, map};
ghost use Rattle.tm_base.specs.declared.definition.RegionId.{RegionId};
ghost use Rattle.tm_ground.specs.Closed.{as_elements, nodes, nodes_in, put_in};
ghost use Rattle.tm_ground.specs.Occurs.{is_small};
ghost use Rattle.tm_ground.specs.Rooms.{left_after};
ghost use Rattle.tm_ground.specs.Sets.{closed_types};

use crate::limits::node_limit;
use tm_names::Open;

/// How many nodes are left of so many behind a type with the arguments put in; `None` where it has more.
#[cycle(left)]
fn left(room: usize, args: &[Open], written: &Open) -> Option<usize>
    ensures { (regions : List RegionId) → result
        ≡ left_after room (nodes (put_in regions (closed_types args.now) written.now)) }
{
    if room == 0 {
        return None;
    }
    match written {
        Open::Prim(_) | Open::Never | Open::NonZero(_) => Some(room - 1),
        Open::Tuple(elements) => all_left(room - 1, args, elements.as_slice()),
        Open::Array(element, _) => left(room - 1, args, element.get()),
        Open::Wrap(_, argument) => left(room - 1, args, argument.get()),
        Open::Named(_, _, given) => all_left(room - 1, args, given.as_slice()),
        Open::Ref(_, _, pointee) => left(room - 1, args, pointee.get()),
        Open::Param(place) => match args.get(*place as usize) {
            Some(arg) => left(room, &[], arg),
            None => Some(room - 1),
        },
    }
}

/// How many nodes are left of so many behind types with the arguments put in; `None` where they have more.
#[cycle(left)]
fn all_left(room: usize, args: &[Open], types: &[Open]) -> Option<usize>
    ensures { (regions : List RegionId) → result ≡ left_after room
        (nodes_in (as_elements (map (put_in regions (closed_types args.now)) types.now))) }
{
    let mut room = room;
    for item in types {
        room = left(room, args, item)?;
    }
    Some(room)
}

/// Whether a type with the arguments put in has no more nodes than a type may have.
pub fn is_small(args: &[Open], written: &Open) -> bool
    ensures { (regions : List RegionId) → result
        ≡ is_small (put_in regions (closed_types args.now) written.now) }
{
    left(node_limit(), args, written).is_some()
}
