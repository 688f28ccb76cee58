ghost use Rattle.std.specs.Prelude.{◌≡◌};
ghost use Rattle.tm_base.specs.Layout.{greatest_size, union_layout};
ghost use Rattle.tm_layout.specs.Reckoned.{IsCapped, layouts_in};

use crate::facts::Facts;
use crate::fields::{filled, greatest_align, raised};
use crate::layouts::Layout;

/// The greatest size of some fields.
fn greatest_size(fields: &[Facts]) -> u32
    ensures { result ≡ greatest_size (layouts_in fields.now) }
{
    let mut greatest = 0;
    for field in fields {
        greatest = field.size.max(greatest);
    }
    greatest
}

/// The layout of a `repr(C)` union of some fields.
pub fn union_layout(packed: Option<u32>, align: Option<u32>, fields: &[Facts]) -> Layout
    ensures { IsCapped (union_layout packed align (layouts_in fields.now)) result }
{
    filled(
        greatest_size(fields),
        raised(align, greatest_align(packed, fields)),
    )
}
