ghost use Rattle.std.specs.Prelude.{◌≡◌, ℕ, Some, option_and_then, slice_get};
ghost use Rattle.std.specs.Option.{option_copied};
ghost use Rattle.tm_layout.specs.Made.{row_at};

use crate::facts::Facts;
use tm_base::{List, NamedId};

/// What is known of a named type, and for each variant where each of its fields stands, in bytes from the
/// type's first. Of a type without a layout the places say nothing.
#[derive(Debug, Drop)]
pub struct RowFacts {
    pub facts: Facts,
    pub places: List<List<u32>>,
}

/// The row of a named type, where the table has it.
pub fn row_at(rows: &[Option<RowFacts>], id: NamedId) -> Option<&RowFacts>
    ensures { option_copied result ≡ row_at rows.now id.0 }
{
    match rows.get(id.0 as usize) {
        Some(Some(row)) => Some(row),
        _ => None,
    }
}

impl RowFacts {
    /// Where a field of a variant stands; 0 where there is no such field.
    pub fn place(&self, variant: u32, field: u32) -> u32
        ensures { (at : ℕ) → option_and_then (λ fields. slice_get fields field)
            (slice_get self.now.places variant) ≡ Some at → result ≡ at }
    {
        match self.places.get(variant as usize) {
            Some(fields) => place_in(fields.as_slice(), field),
            None => 0,
        }
    }
}

/// The place of a field; 0 where there is none.
fn place_in(fields: &[u32], field: u32) -> u32
    ensures { (at : ℕ) → slice_get fields.now field ≡ Some at → result ≡ at }
{
    match fields.get(field as usize) {
        Some(place) => *place,
        None => 0,
    }
}
