ghost use Rattle.std.specs.Prelude.{◌≡◌, ◌++◌, ◌∷◌, [], OnOk};

use tm_base::{List, Memory};

/// Puts an item behind the others.
pub fn add<T: Drop>(list: &mut List<T>, item: T) -> Result<(), Memory>
    ensures { OnOk result (list.new ≡ list.old ++ item ∷ []) }
{
    match list.push(item) {
        Ok(()) => Ok(()),
        Err(_) => Err(Memory),
    }
}
