//! The canonical texts of types.
ghost use Rattle.std.specs.Prelude.{◌≡◌, ◌<◌, ◌+◌, ◌↔◌, ◌++◌, if◌then◌else◌, codes, decimal, length, map, slice_get, IsTrue, IfOk, OnOk};
ghost use Rattle.tm_base.specs.declared.ground.Ground.{Named, Ref};
ghost use Rattle.tm_base.specs.Texts.{applied, prim_text, wrapper_text, behind_commas, separated, tuple_text, region_text, def_text, text_within, text_of};
ghost use Rattle.tm_base.specs.Worlds.{tables_of};

use crate::cell::RefId;
use crate::definition::{NamedRow, RefRow, RegionId};
use crate::ground::{Ground, NamedId, Primitive, Wrapper};
use crate::limit::LimitKind;
use crate::memory::Memory;
use crate::text::Text;
use crate::world::World;
use std::alloc::Global;

/// The canonical text of a type of the world, as Rust writes it: regions by their declared names or
/// as `'static`, and one space behind each comma and semicolon. A number that names nothing in the
/// world is written as nothing.
///
/// `Memory`: there wasn't enough memory for the text.
pub fn text_of(alloc: Global, world: &World, g: &Ground) -> Result<Text, Memory>
    ensures { IfOk result (λ text. text ≡ text_of (tables_of world.now) g.now) }
{
    let mut text = Text::new(alloc);
    let most = LimitKind::NamedTypes.number() + LimitKind::References.number();
    write_type(alloc, world, most, g, &mut text)?;
    Ok(text)
}

/// The word that a primitive is written as.
fn primitive_word(primitive: Primitive) -> &'static str
    ensures { result.now ≡ prim_text primitive }
{
    match primitive {
        Primitive::Bool => "bool",
        Primitive::Char => "char",
        Primitive::U8 => "u8",
        Primitive::U16 => "u16",
        Primitive::U32 => "u32",
        Primitive::U64 => "u64",
        Primitive::U128 => "u128",
        Primitive::Usize => "usize",
        Primitive::I8 => "i8",
        Primitive::I16 => "i16",
        Primitive::I32 => "i32",
        Primitive::I64 => "i64",
        Primitive::I128 => "i128",
        Primitive::Isize => "isize",
        Primitive::F32 => "f32",
        Primitive::F64 => "f64",
    }
}

/// The word that a wrapper is written as.
fn wrapper_word(wrapper: Wrapper) -> &'static str
    ensures { result.now ≡ wrapper_text wrapper }
{
    match wrapper {
        Wrapper::Option => "Option",
        Wrapper::MaybeUninit => "MaybeUninit",
        Wrapper::ManuallyDrop => "ManuallyDrop",
        Wrapper::Wrapping => "Wrapping",
        Wrapper::Cell => "Cell",
        Wrapper::UnsafeCell => "UnsafeCell",
        Wrapper::PhantomData => "PhantomData",
    }
}

/// Writes a region's name.
fn write_region(world: &World, region: RegionId, text: &mut Text) -> Result<(), Memory>
    ensures { OnOk result (text.new ≡ text.old ++ region_text (tables_of world.now) region) }
{
    match world.regions.get(region.0 as usize) {
        None => Ok(()),
        Some(name) => text.push_str(name.as_str()),
    }
}

/// Writes some regions' names, each behind a comma.
fn write_other_regions(world: &World, regions: &[RegionId], text: &mut Text) -> Result<(), Memory>
    ensures { OnOk result (
        let names = map (region_text (tables_of world.now)) regions.now in
        text.new ≡ text.old ++ behind_commas names) }
{
    for region in regions {
        text.push_str(", ")?;
        write_region(world, *region, text)?;
    }
    Ok(())
}

/// Whether a named type has regions or arguments.
fn is_given(row: &NamedRow) -> bool
    ensures { IsTrue result ↔ (0 < length row.now.regions + length row.now.args) }
{
    row.regions.len() > 0 || row.args.len() > 0
}

/// Writes a number in decimal.
fn write_number(alloc: Global, number: u32, text: &mut Text) -> Result<(), Memory>
    ensures { OnOk result (text.new ≡ text.old ++ decimal number) }
{
    let digits = format!(in alloc; "{number}")?;
    text.push_str(digits.as_str())
}

/// Writes `NonZero` of a primitive.
fn write_nonzero(primitive: Primitive, text: &mut Text) -> Result<(), Memory>
    ensures { OnOk result (text.new ≡ text.old ++ applied (codes "NonZero") (prim_text primitive)) }
{
    text.push_str("NonZero<")?;
    text.push_str(primitive_word(primitive))?;
    text.push_str(">")
}

/// Writes a type in which at most `left` names and references are followed behind one another.
#[cycle(spelling)]
fn write_type(
    alloc: Global,
    world: &World,
    left: u32,
    g: &Ground,
    text: &mut Text,
) -> Result<(), Memory>
    ensures { OnOk result (text.new ≡ text.old ++ text_within (tables_of world.now) left g.now) }
{
    match g {
        Ground::Prim(primitive) => text.push_str(primitive_word(*primitive)),
        Ground::Never => text.push_str("!"),
        Ground::Unit => text.push_str("()"),
        Ground::Tuple(elements) => write_tuple(alloc, world, left, elements.as_slice(), text),
        Ground::Array(element, length) => {
            write_array(alloc, world, left, element.get(), *length, text)
        }
        Ground::Named(id) => write_named(alloc, world, left, *id, text),
        Ground::NonZero(primitive) => write_nonzero(*primitive, text),
        Ground::Wrap(wrapper, argument) => {
            write_wrap(alloc, world, left, *wrapper, argument.get(), text)
        }
        Ground::Ref(id) => write_ref(alloc, world, left, *id, text),
    }
}

/// Writes a tuple. One element alone has a comma behind it.
#[cycle(spelling)]
fn write_tuple(
    alloc: Global,
    world: &World,
    left: u32,
    elements: &[Ground],
    text: &mut Text,
) -> Result<(), Memory>
    ensures { OnOk result (
        let texts = map (text_within (tables_of world.now) left) elements.now in
        text.new ≡ text.old ++ tuple_text texts) }
{
    text.push_str("(")?;
    write_types(alloc, world, left, elements, text)?;
    text.push_str(if elements.len() == 1 { ",)" } else { ")" })
}

/// Writes some types, with commas between them.
#[cycle(spelling)]
fn write_types(
    alloc: Global,
    world: &World,
    left: u32,
    types: &[Ground],
    text: &mut Text,
) -> Result<(), Memory>
    ensures { OnOk result (
        let texts = map (text_within (tables_of world.now) left) types.now in
        text.new ≡ text.old ++ separated texts) }
{
    let Some((first, others)) = types.split_first() else {
        return Ok(());
    };
    write_type(alloc, world, left, first, text)?;
    write_other_types(alloc, world, left, others, text)
}

/// Writes some types, each behind a comma.
#[cycle(spelling)]
fn write_other_types(
    alloc: Global,
    world: &World,
    left: u32,
    types: &[Ground],
    text: &mut Text,
) -> Result<(), Memory>
    ensures { OnOk result (
        let texts = map (text_within (tables_of world.now) left) types.now in
        text.new ≡ text.old ++ behind_commas texts) }
{
    for item in types {
        text.push_str(", ")?;
        write_type(alloc, world, left, item, text)?;
    }
    Ok(())
}

/// Writes an array.
#[cycle(spelling)]
fn write_array(
    alloc: Global,
    world: &World,
    left: u32,
    element: &Ground,
    length: u32,
    text: &mut Text,
) -> Result<(), Memory>
    ensures { OnOk result (
        let inside = text_within (tables_of world.now) left element.now in
        text.new ≡ text.old ++ (codes "[" ++ inside ++ codes "; " ++ decimal length ++ codes "]")) }
{
    text.push_str("[")?;
    write_type(alloc, world, left, element, text)?;
    text.push_str("; ")?;
    write_number(alloc, length, text)?;
    text.push_str("]")
}

/// Writes a generic type with its argument.
#[cycle(spelling)]
fn write_wrap(
    alloc: Global,
    world: &World,
    left: u32,
    wrapper: Wrapper,
    argument: &Ground,
    text: &mut Text,
) -> Result<(), Memory>
    ensures { OnOk result (
        let inside = text_within (tables_of world.now) left argument.now in
        text.new ≡ text.old ++ applied (wrapper_text wrapper) inside) }
{
    text.push_str(wrapper_word(wrapper))?;
    text.push_str("<")?;
    write_type(alloc, world, left, argument, text)?;
    text.push_str(">")
}

/// Writes the named type with a number; nothing where no name may be followed here.
#[cycle(spelling)]
fn write_named(
    alloc: Global,
    world: &World,
    left: u32,
    id: NamedId,
    text: &mut Text,
) -> Result<(), Memory>
    ensures { OnOk result (
        text.new ≡ text.old ++ text_within (tables_of world.now) left (Named id)) }
{
    if left == 0 {
        return Ok(());
    }
    match world.named.get(id.0 as usize) {
        None => Ok(()),
        Some(row) => write_row(alloc, world, left - 1, row, text),
    }
}

/// Writes a named type: its definition's name, and its regions and arguments where it has some.
#[cycle(spelling)]
fn write_row(
    alloc: Global,
    world: &World,
    left: u32,
    row: &NamedRow,
    text: &mut Text,
) -> Result<(), Memory>
    ensures { OnOk result (
        let tables = tables_of world.now in
        let regions = map (region_text tables) row.now.regions in
        let args = map (text_within tables left) row.now.args in
        let def = slice_get world.now.defs row.now.def.0 in
        text.new ≡ text.old ++ def_text def (regions ++ args)) }
{
    let Some(def) = world.defs.get(row.def.0 as usize) else {
        return Ok(());
    };
    text.push_str(def.name.as_str())?;
    if !is_given(row) {
        return Ok(());
    }
    text.push_str("<")?;
    write_given(
        alloc,
        world,
        left,
        row.regions.as_slice(),
        row.args.as_slice(),
        text,
    )?;
    text.push_str(">")
}

/// Writes what a definition is given, with commas between: regions first, then types.
#[cycle(spelling)]
fn write_given(
    alloc: Global,
    world: &World,
    left: u32,
    regions: &[RegionId],
    args: &[Ground],
    text: &mut Text,
) -> Result<(), Memory>
    ensures { OnOk result (
        let tables = tables_of world.now in
        let names = map (region_text tables) regions.now in
        text.new ≡ text.old ++ separated (names ++ map (text_within tables left) args.now)) }
{
    let Some((first, others)) = regions.split_first() else {
        return write_types(alloc, world, left, args, text);
    };
    write_region(world, *first, text)?;
    write_other_regions(world, others, text)?;
    write_other_types(alloc, world, left, args, text)
}

/// Writes the reference type with a number; nothing where no reference may be followed here.
#[cycle(spelling)]
fn write_ref(
    alloc: Global,
    world: &World,
    left: u32,
    id: RefId,
    text: &mut Text,
) -> Result<(), Memory>
    ensures { OnOk result (text.new ≡ text.old ++ text_within (tables_of world.now) left (Ref id)) }
{
    if left == 0 {
        return Ok(());
    }
    match world.refs.get(id.0 as usize) {
        None => Ok(()),
        Some(row) => write_row_of_ref(alloc, world, left - 1, row, text),
    }
}

/// Writes a reference, its pointee with at most `left` names and references behind one another.
#[cycle(spelling)]
fn write_row_of_ref(
    alloc: Global,
    world: &World,
    left: u32,
    row: &RefRow,
    text: &mut Text,
) -> Result<(), Memory>
    ensures { OnOk result (
        let tables = tables_of world.now in
        let region = region_text tables row.now.region in
        let word = if row.now.mutable then codes " mut " else codes " " in
        let pointee = text_within tables left row.now.pointee in
        text.new ≡ text.old ++ (codes "&" ++ region ++ word ++ pointee)) }
{
    text.push_str("&")?;
    write_region(world, row.region, text)?;
    text.push_str(if row.mutable { " mut " } else { " " })?;
    write_type(alloc, world, left, &row.pointee, text)
}
