ghost use Rattle.std.specs.Prelude.{◌≡◌};
ghost use Rattle.tm_base.specs.Layout.{end_of, filled, greatest_align, lowered, place_at, raised, round_up, struct_layout};
ghost use Rattle.tm_layout.specs.Capped.{capped};
ghost use Rattle.tm_layout.specs.Reckoned.{IsCapped, end_at, layout_in, layouts_in, only_fields, shape};

use crate::facts::Facts;
use crate::layouts::Layout;
use tm_base::List;

/// The least multiple of an alignment that isn't below a number, or the greatest `u32` where that is less.
pub fn round_up(n: u32, align: u32) -> u32
    ensures { result ≡ capped (round_up n align) }
{
    match n.checked_rem(align) {
        None | Some(0) => n,
        Some(past) => n.saturating_add(align - past),
    }
}

/// The alignment that a field has under `packed(N)`.
pub fn lowered(packed: Option<u32>, align: u32) -> u32
    ensures { result ≡ lowered packed align }
{
    match packed {
        None => align,
        Some(most) => most.min(align),
    }
}

/// The alignment that a type has under `align(N)`.
pub fn raised(written: Option<u32>, align: u32) -> u32
    ensures { result ≡ raised written align }
{
    match written {
        None => align,
        Some(least) => least.max(align),
    }
}

/// The size and the alignment of a field.
pub fn layout_in(field: &Facts) -> Layout
    ensures { shape result ≡ layout_in field.now }
{
    Layout {
        size: field.size,
        align: field.align,
    }
}

/// Where a field stands, at or past a place.
pub fn place_at(packed: Option<u32>, at: u32, field: Layout) -> u32
    ensures { result ≡ capped (place_at packed at (shape field)) }
{
    round_up(at, lowered(packed, field.align))
}

/// Where a field ends that stands at or past a place.
pub fn end_at(packed: Option<u32>, at: u32, field: Layout) -> u32
    ensures { result ≡ capped (end_at packed at (shape field)) }
{
    place_at(packed, at, field).saturating_add(field.size)
}

/// Where the last of some fields ends, the first of which is at or past a place.
pub fn end_of(packed: Option<u32>, at: u32, fields: &[Facts]) -> u32
    ensures { result ≡ capped (end_of packed at (layouts_in fields.now)) }
{
    let mut end = at;
    for field in fields {
        end = end_at(packed, end, layout_in(field));
    }
    end
}

/// The greatest alignment of some fields.
pub fn greatest_align(packed: Option<u32>, fields: &[Facts]) -> u32
    ensures { result ≡ greatest_align packed (layouts_in fields.now) }
{
    let mut greatest = 1;
    for field in fields {
        greatest = lowered(packed, field.align).max(greatest);
    }
    greatest
}

/// A size that is rounded up to the alignment.
pub fn filled(size: u32, align: u32) -> Layout
    ensures { IsCapped (filled size align) result }
{
    Layout {
        size: round_up(size, align),
        align,
    }
}

/// The layout of a `repr(C)` struct of some fields.
pub fn struct_layout(packed: Option<u32>, align: Option<u32>, fields: &[Facts]) -> Layout
    ensures { IsCapped (struct_layout packed align (layouts_in fields.now)) result }
{
    let end = end_of(packed, 0, fields);
    filled(end, raised(align, greatest_align(packed, fields)))
}

/// The fields of a struct or a union.
pub fn only(variants: &[List<Facts>]) -> &[Facts]
    ensures { result.now ≡ only_fields variants.now }
{
    match variants {
        [] => &[],
        [fields, ..] => fields.as_slice(),
    }
}
