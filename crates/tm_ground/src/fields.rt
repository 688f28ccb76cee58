ghost use Rattle.std.specs.Prelude.{◌≡◌};
ghost use Rattle.tm_ground.specs.Occurs.{written_fields};

use tm_base::{DefId, List};
use tm_names::{Open, Resolved};

/// The types of a definition's fields, a list for each variant; none where the number names no definition.
pub fn written_fields<'a>(resolved: &'a Resolved, def: DefId) -> &'a [List<Open>]
    ensures { result.now ≡ written_fields resolved.now def }
{
    match resolved.types.get(def.0 as usize) {
        Some(variants) => variants.as_slice(),
        None => &[],
    }
}
