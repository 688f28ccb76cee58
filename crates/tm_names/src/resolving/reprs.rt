ghost use Rattle.std.specs.Prelude.{◌≡◌, All};
ghost use Rattle.tm_names.specs.Narrow.{IsItemNarrow};
ghost use Rattle.tm_names.specs.Representations.{items_of};
ghost use Rattle.tm_names.specs.Resolutions.{no_repr, repr_of, with_item};

use tm_base::Repr;
use tm_parse::{Decl, ReprItem};

/// What an item of a `repr` attribute adds to the others.
fn with_item(repr: Repr, item: ReprItem) -> Repr
    requires { IsItemNarrow item }
    ensures { result ≡ with_item repr item }
{
    let mut found = repr;
    match item {
        ReprItem::C => found.c = true,
        ReprItem::Transparent => found.transparent = true,
        ReprItem::Int(primitive) => found.tag = Some(primitive),
        ReprItem::Packed(number) => found.packed = Some(number as u32),
        ReprItem::Align(number) => found.align = Some(number as u32),
    }
    found
}

/// What the items of all `repr` attributes of a definition say together.
pub fn repr(decl: &Decl) -> Repr
    requires { All (λ placed. IsItemNarrow placed.item) decl.now.reprs }
    ensures { result ≡ repr_of (items_of decl.now) }
{
    let mut found = Repr {
        c: false,
        transparent: false,
        tag: None,
        packed: None,
        align: None,
    };
    for placed in decl.reprs.as_slice() {
        found = with_item(found, placed.item);
    }
    found
}
