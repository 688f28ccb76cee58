ghost use Rattle.std.specs.Prelude.{◌≡◌, ◌∷◌, [], None};
ghost use Rattle.tm_base.specs.Layout.{enum_layout, struct_layout, structs, tag_layout, union_layout};
ghost use Rattle.tm_layout.specs.Capped.{capped};
ghost use Rattle.tm_layout.specs.Placed.{begin_in};
ghost use Rattle.tm_layout.specs.Reckoned.{IsCapped, layouts_in, shape, variant_layouts_in};

use crate::facts::{Facts, primitive_size};
use crate::fields::{end_at, end_of, filled, greatest_align, round_up};
use crate::layouts::Layout;
use tm_base::{Kind, List, Primitive, Profile, Repr};

/// The layout of an enum's tag.
pub fn tag_layout(profile: Profile, tag: Option<Primitive>) -> Layout
    ensures { shape result ≡ tag_layout profile tag }
{
    let size = match tag {
        None => 4,
        Some(p) => primitive_size(profile, p),
    };
    Layout { size, align: size }
}

/// The layout of a `repr(C)` struct of some fields behind another.
fn behind(front: Layout, fields: &[Facts]) -> Layout
    ensures { IsCapped (struct_layout None None (shape front ∷ layouts_in fields.now)) result }
{
    let end = end_of(None, front.size, fields);
    filled(end, front.align.max(greatest_align(None, fields)))
}

/// The layout of a `repr(C)` union of structs, one for the fields of each variant behind another field.
fn variants_behind(front: Layout, variants: &[List<Facts>]) -> Layout
    ensures { IsCapped (union_layout None None
        (structs (shape front ∷ []) (variant_layouts_in variants.now))) result }
{
    let mut size = 0;
    let mut align = 1;
    for fields in variants {
        let layout = behind(front, fields.as_slice());
        size = layout.size.max(size);
        align = layout.align.max(align);
    }
    filled(size, align)
}

/// The layout of a `repr(C)` struct of two fields.
fn pair(first: Layout, second: Layout) -> Layout
    ensures { IsCapped (struct_layout None None (shape first ∷ shape second ∷ [])) result }
{
    let end = end_at(None, first.size, second);
    filled(end, first.align.max(second.align.max(1)))
}

/// The layout of an enum.
pub fn enum_layout(profile: Profile, repr: Repr, variants: &[List<Facts>]) -> Layout
    ensures { IsCapped (enum_layout profile repr (variant_layouts_in variants.now)) result }
{
    let tag = tag_layout(profile, repr.tag);
    if repr.c {
        let fields = variants_behind(Layout { size: 0, align: 1 }, variants);
        pair(tag, fields)
    } else {
        variants_behind(tag, variants)
    }
}

/// Where the fields of an enum's variants begin; 0 of a struct or a union.
pub fn fields_begin(profile: Profile, kind: Kind, repr: Repr, variants: &[List<Facts>]) -> u32
    ensures { result ≡ capped (begin_in profile kind repr (variant_layouts_in variants.now)) }
{
    match kind {
        Kind::Enum => {
            let tag = tag_layout(profile, repr.tag).size;
            if repr.c {
                let fields = variants_behind(Layout { size: 0, align: 1 }, variants);
                round_up(tag, fields.align)
            } else {
                tag
            }
        }
        _ => 0,
    }
}
