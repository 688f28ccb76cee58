//! The types that a type reaches.
ghost use Rattle.std.specs.Prelude.{◌≡◌, ◌++◌, Some, slice_get, slice_set, replicate, true, false, IfOk, OnOk};
ghost use Rattle.tm_base.specs.declared.ground.Ground.{out-Ground};
ghost use Rattle.tm_base.specs.Reaches.{row_parts, row_pointee};
ghost use Rattle.tm_base.specs.Worlds.{tables_of};
ghost use Rattle.tm_layout.specs.Reached.{AreReached, is_marked, named_after, newly_entered, parts_written, refs_after, types_at, unlisted};

use std::alloc::Global;
use tm_base::{Ground, Memory, NamedId, NamedRow, RefId, World, Wrapper};

/// Marks a place, and says whether it was marked. What is past the marks counts as marked.
pub(crate) fn mark(marks: &mut Vec<bool>, place: usize) -> bool
    ensures was { result ≡ is_marked marks.old.items place }
    ensures now { marks.new.items ≡ slice_set marks.old.items place true }
{
    if place >= marks.len() {
        return true;
    }
    let was = marks[place];
    marks[place] = true;
    was
}

/// Adds some types.
fn add_types<'a>(types: &mut Vec<&'a Ground>, more: &'a [Ground]) -> Result<(), Memory>
    ensures { OnOk result (types_at types.new.items ≡ types_at types.old.items ++ more.now) }
{
    for g in more {
        types.push(g)?;
    }
    Ok(())
}

/// Adds the types of a named type's fields.
fn add_fields<'a>(types: &mut Vec<&'a Ground>, row: &'a NamedRow) -> Result<(), Memory>
    ensures { OnOk result
        (types_at types.new.items ≡ types_at types.old.items ++ row_parts (Some row.now)) }
{
    for variant in row.types.as_slice() {
        add_types(types, variant.as_slice())?;
    }
    Ok(())
}

/// Adds the types of a named type's fields, where it wasn't marked.
fn add_named<'a>(
    world: &'a World,
    id: NamedId,
    marks: &mut Vec<bool>,
    types: &mut Vec<&'a Ground>,
) -> Result<(), Memory>
    ensures types { OnOk result
        (types_at types.new.items
        ≡ types_at types.old.items ++ unlisted (is_marked marks.old.items id.0)
        (row_parts (slice_get world.now.named id.0))) }
    ensures marks { marks.new.items ≡ slice_set marks.old.items id.0 true }
{
    if mark(marks, id.0 as usize) {
        return Ok(());
    }
    match world.named.get(id.0 as usize) {
        Some(row) => add_fields(types, row),
        None => Ok(()),
    }
}

/// Adds the pointee of a reference, where it wasn't marked.
fn add_pointee<'a>(
    world: &'a World,
    id: RefId,
    marks: &mut Vec<bool>,
    types: &mut Vec<&'a Ground>,
) -> Result<(), Memory>
    ensures types { OnOk result
        (types_at types.new.items
        ≡ types_at types.old.items ++ unlisted (is_marked marks.old.items id.0)
        (row_pointee (slice_get world.now.refs id.0))) }
    ensures marks { marks.new.items ≡ slice_set marks.old.items id.0 true }
{
    if mark(marks, id.0 as usize) {
        return Ok(());
    }
    match world.refs.get(id.0 as usize) {
        Some(row) => add_types(types, std::slice::from_ref(&row.pointee)),
        None => Ok(()),
    }
}

/// The parts by value that are written in a type itself.
fn parts_written(g: &Ground) -> &[Ground]
    ensures { result.now ≡ parts_written (out-Ground g.now) }
{
    match g {
        Ground::Tuple(elements) => elements.as_slice(),
        Ground::Array(element, _) => std::slice::from_ref(element.get()),
        Ground::Wrap(Wrapper::PhantomData, _) => &[],
        Ground::Wrap(_, argument) => std::slice::from_ref(argument.get()),
        Ground::Prim(_) | Ground::Never | Ground::Unit => &[],
        Ground::Named(_) | Ground::NonZero(_) | Ground::Ref(_) => &[],
    }
}

/// Adds the types that a type enters, without what the marked ones enter.
fn add_entered<'a>(
    world: &'a World,
    g: &'a Ground,
    named: &mut Vec<bool>,
    refs: &mut Vec<bool>,
    types: &mut Vec<&'a Ground>,
) -> Result<(), Memory>
    ensures types { OnOk result
        (types_at types.new.items
        ≡ types_at types.old.items ++ newly_entered
        (tables_of world.now) named.old.items refs.old.items (out-Ground g.now)) }
    ensures named { named.new.items ≡ named_after named.old.items (out-Ground g.now) }
    ensures refs { refs.new.items ≡ refs_after refs.old.items (out-Ground g.now) }
{
    match g {
        Ground::Named(id) => add_named(world, *id, named, types),
        Ground::Ref(id) => add_pointee(world, *id, refs, types),
        _ => add_types(types, parts_written(g)),
    }
}

/// So many marks, none set.
pub(crate) fn no_marks(alloc: Global, count: usize) -> Result<Vec<bool>, Memory>
    ensures { IfOk result (λ marks. marks.items ≡ replicate count false) }
{
    Ok(vec![in alloc; false; count]?)
}

/// All types that a type reaches: itself, its parts by value, the pointees of its references, and what
/// these reach. The fields of each named type and the pointee of each reference are gone through once.
pub fn reached_types<'a>(
    alloc: Global,
    world: &'a World,
    g: &'a Ground,
) -> Result<Vec<&'a Ground>, Memory>
    ensures { IfOk result (λ types. AreReached (tables_of world.now) g.now (types_at types.items)) }
{
    let mut named = no_marks(alloc, world.named.len())?;
    let mut refs = no_marks(alloc, world.refs.len())?;
    let mut types = Vec::new(alloc);
    types.push(g)?;
    let mut place = 0;
    while place < types.len() {
        add_entered(world, types[place], &mut named, &mut refs, &mut types)?;
        place += 1;
    }
    Ok(types)
}
