ghost use Rattle.std.specs.Prelude.{◌≡◌, nat_le};
ghost use Rattle.tm_base.specs.Faults.{sized_count};
ghost use Rattle.tm_base.specs.Layout.{is_trivial, transparent_layout};
ghost use Rattle.tm_layout.specs.Reckoned.{layouts_in, shape};

use crate::facts::Facts;
use crate::fields::layout_in;
use crate::layouts::Layout;

/// Whether a layout is of size 0 and alignment 1.
fn is_trivial(layout: Layout) -> bool
    ensures { result ≡ is_trivial (shape layout) }
{
    layout.size == 0 && layout.align == 1
}

/// The layout of a `repr(transparent)` struct: that of its first field that isn't of size 0 and alignment 1.
pub fn transparent_layout(fields: &[Facts]) -> Layout
    ensures { shape result ≡ transparent_layout (layouts_in fields.now) }
{
    for field in fields {
        let layout = layout_in(field);
        if !is_trivial(layout) {
            return layout;
        }
    }
    Layout { size: 0, align: 1 }
}

/// Whether two fields or more aren't of size 0 and alignment 1.
pub fn has_two_sized(fields: &[Facts]) -> bool
    ensures { result ≡ nat_le 2 (sized_count (layouts_in fields.now)) }
{
    let mut found = false;
    for field in fields {
        if !is_trivial(layout_in(field)) {
            if found {
                return true;
            }
            found = true;
        }
    }
    false
}
