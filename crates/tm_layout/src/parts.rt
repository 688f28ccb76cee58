ghost use Rattle.std.specs.Prelude.{◌≡◌, ◌||◌};
ghost use Rattle.tm_layout.specs.Together.{fields_together, joined, no_parts, part_of, variants_together};

use crate::facts::Facts;
use tm_base::{List, Why};

/// What is known of some types together.
///
/// `refusal`: the cause of the first that has no layout. The others say whether some type is nullable, is or
/// holds by value a type with `align`, and is or holds by value a cell.
#[derive(Clone, Copy, Debug)]
pub struct Parts {
    pub refusal: Option<Why>,
    pub nullable: bool,
    pub aligned: bool,
    pub interior: bool,
}

/// What is known of no types.
fn none() -> Parts
    ensures { result ≡ no_parts }
{
    Parts {
        refusal: None,
        nullable: false,
        aligned: false,
        interior: false,
    }
}

/// What is known of one type.
fn part(facts: Facts) -> Parts
    ensures { result ≡ part_of facts }
{
    Parts {
        refusal: facts.refusal,
        nullable: facts.nullable,
        aligned: facts.aligned,
        interior: facts.interior,
    }
}

/// What is known of some types and of those behind them.
fn joined(first: Parts, others: Parts) -> Parts
    ensures { result ≡ joined first others }
{
    Parts {
        refusal: first.refusal.or(others.refusal),
        nullable: first.nullable | others.nullable,
        aligned: first.aligned | others.aligned,
        interior: first.interior | others.interior,
    }
}

/// What is known of the fields together.
fn fields_together(fields: &[Facts]) -> Parts
    ensures { result ≡ fields_together fields.now }
{
    let mut together = none();
    for field in fields {
        together = joined(together, part(*field));
    }
    together
}

/// What is known of the fields of all variants together.
pub fn together(variants: &[List<Facts>]) -> Parts
    ensures { result ≡ variants_together variants.now }
{
    let mut together = none();
    for fields in variants {
        together = joined(together, fields_together(fields.as_slice()));
    }
    together
}
