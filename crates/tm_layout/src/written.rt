//! The facts of types, from those of the named types that they hold by value.
ghost use Rattle.std.specs.Prelude.{◌≡◌};
ghost use Rattle.tm_base.specs.declared.ground.Ground.{Named};
ghost use Rattle.tm_base.specs.Expanded.{elements, tuple};
ghost use Rattle.tm_base.specs.Tables.{Tables, expanded_in};
ghost use Rattle.tm_layout.specs.Known.{IsFactsOf};
ghost use Rattle.tm_layout.specs.Made.{AreRowsOf, EachIs, IsKnown, OfKnown};

use crate::facts::{Facts, array, empty, nonzero, primitive, reference, tuple, wrapped};
use crate::row::{RowFacts, row_at};
use tm_base::{Ground, NamedId, Profile, Wrapper};

/// The facts of a named type, from the table of those that are made.
fn facts_of_named(rows: &[Option<RowFacts>], id: NamedId) -> Facts
    ensures { (tables : Tables) → AreRowsOf tables rows.now → IsKnown tables rows.now (Named id)
        → IsFactsOf (expanded_in tables (Named id)) result }
{
    match row_at(rows, id) {
        Some(row) => row.facts,
        None => empty(),
    }
}

/// The facts of a type, where each named type that it holds by value has its row.
#[cycle(written)]
pub fn facts_of(profile: Profile, rows: &[Option<RowFacts>], g: &Ground) -> Facts
    ensures { OfKnown profile rows.now g.now (λ t. IsFactsOf t result) }
{
    match g {
        Ground::Prim(p) => primitive(profile, *p),
        Ground::Never => empty(),
        Ground::Unit => empty(),
        Ground::Tuple(elements) => facts_of_tuple(profile, rows, elements.as_slice()),
        Ground::Array(element, length) => array(facts_of(profile, rows, element.get()), *length),
        Ground::Named(id) => facts_of_named(rows, *id),
        Ground::NonZero(p) => nonzero(profile, *p),
        Ground::Wrap(wrapper, argument) => match *wrapper {
            Wrapper::PhantomData => empty(),
            other => wrapped(other, facts_of(profile, rows, argument.get())),
        },
        Ground::Ref(_) => reference(profile),
    }
}

/// The facts of a tuple.
#[cycle(written)]
fn facts_of_tuple(profile: Profile, rows: &[Option<RowFacts>], members: &[Ground]) -> Facts
    ensures { (tables : Tables) → profile ≡ tables.profile → AreRowsOf tables rows.now
        → EachIs (IsKnown tables rows.now) members.now
        → IsFactsOf (tuple (elements (expanded_in tables) members.now)) result }
{
    let mut aligned = false;
    let mut interior = false;
    for member in members {
        let facts = facts_of(profile, rows, member);
        aligned |= facts.aligned;
        interior |= facts.interior;
    }
    tuple(aligned, interior)
}
