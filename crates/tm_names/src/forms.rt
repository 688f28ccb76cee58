ghost use Rattle.std.specs.Prelude.{◌≡◌, ◌==◌, IfOk, not};
ghost use Rattle.std.specs.List.{list_any};
ghost use Rattle.tm_base.specs.Integers.{is_tag_type};
ghost use Rattle.tm_base.specs.Whole.{is_alignment};
ghost use Rattle.tm_names.specs.Found.{first_repr, repr_faults};
ghost use Rattle.tm_names.specs.Least.{earliest};
ghost use Rattle.tm_names.specs.Representations.{has_field, is_enum_form, is_form, is_struct_form, is_union_form, items_of, tag_in, tag_of_item};

use crate::adding::add;
use crate::faults::least::Faults;
use std::alloc::Global;
use tm_base::{Kind, List, Memory, NameWhy, Primitive};
use tm_parse::{Decl, DeclRepr, DeclVariant, ReprItem};

/// The powers of two from 1 to 2^29.
const ALIGNMENTS: [u128; 30] = [
    1, 2, 4, 8, 16, 32, 64, 128, 256, 512, 1024, 2048, 4096, 8192, 16384, 32768, 65536, 131072,
    262144, 524288, 1048576, 2097152, 4194304, 8388608, 16777216, 33554432, 67108864, 134217728,
    268435456, 536870912,
];

/// Whether a number is one of these.
fn is_one_of(numbers: &[u128], number: u128) -> bool
    ensures { result ≡ list_any (λ k. number == k) numbers.now }
{
    for other in numbers {
        if number == *other {
            return true;
        }
    }
    false
}

/// Whether a number is a power of two from 1 to 2^29.
fn is_alignment(number: u128) -> bool
    ensures { result ≡ is_alignment number }
{
    is_one_of(&ALIGNMENTS, number)
}

/// Whether these items go together on a union.
fn is_union_form(items: &[ReprItem]) -> bool
    ensures { result ≡ is_union_form items.now }
{
    match items {
        [] | [ReprItem::C] => true,
        [ReprItem::Packed(number)] | [ReprItem::Align(number)] => is_alignment(*number),
        [ReprItem::C, ReprItem::Packed(number)] => is_alignment(*number),
        [ReprItem::Packed(number), ReprItem::C] => is_alignment(*number),
        [ReprItem::C, ReprItem::Align(number)] => is_alignment(*number),
        [ReprItem::Align(number), ReprItem::C] => is_alignment(*number),
        _ => false,
    }
}

/// Whether these items go together on a struct.
fn is_struct_form(items: &[ReprItem]) -> bool
    ensures { result ≡ is_struct_form items.now }
{
    match items {
        [ReprItem::Transparent] => true,
        _ => is_union_form(items),
    }
}

/// Whether some variant has a field.
fn has_field(variants: &[DeclVariant]) -> bool
    ensures { result ≡ has_field variants.now }
{
    for variant in variants {
        if variant.fields.len() > 0 {
            return true;
        }
    }
    false
}

/// Whether an enum may have the integer type as its representation.
fn is_tag_type(primitive: Primitive) -> bool
    ensures { result ≡ is_tag_type primitive }
{
    match primitive {
        Primitive::Bool | Primitive::Char | Primitive::F32 | Primitive::F64 => false,
        Primitive::U128 | Primitive::I128 => false,
        _ => true,
    }
}

/// Whether these items go together on an enum.
fn is_enum_form(variants: &[DeclVariant], items: &[ReprItem]) -> bool
    ensures { result ≡ is_enum_form variants.now items.now }
{
    match items {
        [] => true,
        [ReprItem::C] => variants.len() > 0,
        [ReprItem::Int(primitive)] => is_tag_type(*primitive) && variants.len() > 0,
        [ReprItem::C, ReprItem::Int(primitive)] => is_tag_type(*primitive) && has_field(variants),
        [ReprItem::Int(primitive), ReprItem::C] => is_tag_type(*primitive) && has_field(variants),
        _ => false,
    }
}

/// Whether these items go together on a definition of the kind.
fn is_form(kind: Kind, variants: &[DeclVariant], items: &[ReprItem]) -> bool
    ensures { result ≡ is_form kind variants.now items.now }
{
    match kind {
        Kind::Struct => is_struct_form(items),
        Kind::Union => is_union_form(items),
        Kind::Enum => is_enum_form(variants, items),
    }
}

/// The items of all `repr` attributes of a definition.
pub fn items(alloc: Global, decl: &Decl) -> Result<List<ReprItem>, Memory>
    ensures { IfOk result (λ items. items ≡ items_of decl.now) }
{
    let mut items = List::new(alloc);
    for repr in decl.reprs.as_slice() {
        add(&mut items, repr.item)?;
    }
    Ok(items)
}

/// The integer representation that an item gives an enum.
fn tag_of_item(item: ReprItem) -> Option<Primitive>
    ensures { result ≡ tag_of_item item }
{
    match item {
        ReprItem::Int(primitive) if is_tag_type(primitive) => Some(primitive),
        _ => None,
    }
}

/// The integer representation of an enum with these items.
pub fn tag(items: &[ReprItem]) -> Option<Primitive>
    ensures { result ≡ tag_in items.now }
{
    for item in items {
        if let Some(primitive) = tag_of_item(*item) {
            return Some(primitive);
        }
    }
    None
}

impl Faults<'_, '_> {
    /// Takes note of a fault at the first item, if there is one and something is wrong.
    fn note_first(&mut self, wrong: bool, reprs: &[DeclRepr])
        ensures first { self.new.first ≡ earliest self.old.first (first_repr wrong reprs.now) }
        ensures file { self.new.file ≡ self.old.file }
    {
        match reprs {
            [] => {}
            [repr, ..] => self.note(wrong, NameWhy::BadRepr, repr.token),
        }
    }

    /// Takes note of the fault of a definition's representation, where these are its items.
    pub fn note_repr(&mut self, decl: &Decl, items: &[ReprItem])
        requires { items.now ≡ items_of decl.now }
        ensures first { self.new.first ≡ earliest self.old.first (repr_faults decl.now) }
        ensures file { self.new.file ≡ self.old.file }
    {
        let wrong = !is_form(decl.kind, decl.variants.as_slice(), items);
        self.note_first(wrong, decl.reprs.as_slice());
    }
}
