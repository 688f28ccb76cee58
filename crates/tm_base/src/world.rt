ghost use Rattle.std.specs.Prelude.{◌≤◌, ◌+◌, IsTrue, length};
ghost use Rattle.tm_base.specs.declared.limit.LimitKind.TheVariants.{Definitions, Questions, Lifetimes, NamedTypes, References};
ghost use Rattle.tm_base.specs.Limits.{limit_number};
ghost use Rattle.tm_base.specs.Whole.{are_defs_in_form, are_regions_known, are_rows_in_form, are_types_in_form, AreDistinct, AreValuesDistinct};

use crate::ask::Ask;
use crate::definition::{Bound, Def, NamedRow, RefRow};
use crate::list::List;
use crate::profile::Profile;
use crate::text::Text;

/// All that the answers to some questions rest on, with the questions.
///
/// A [`crate::DefId`] is a place in `defs`, a [`crate::RegionId`] one in `regions`, a
/// [`crate::NamedId`] one in `named`, and a [`crate::RefId`] one in `refs`. What always holds of a
/// world stands below its lists.
#[derive(Debug, Drop)]
pub struct World {
    /// The machine that sizes and bytes are asked for.
    pub profile: Profile,
    /// The definitions, in the file's order; at most 256.
    pub defs: List<Def>,
    /// The regions' names with their quotes: `'static`, and then the declared lifetimes in the
    /// file's order; at most 17.
    pub regions: List<Text>,
    /// Which region outlives which, as the items `outlives` say, in the file's order.
    pub bounds: List<Bound>,
    /// The named types, each once, in any order; at most 1024.
    pub named: List<NamedRow>,
    /// The reference types, each once; at most 64.
    pub refs: List<RefRow>,
    /// The questions, in the file's order; at most 256.
    pub questions: List<Ask>,
    // Each list is within its limit.
    pub ghost few_defs: { length defs ≤ limit_number Definitions },
    pub ghost few_regions: { length regions ≤ limit_number Lifetimes + 1 },
    pub ghost few_named: { length named ≤ limit_number NamedTypes },
    pub ghost few_refs: { length refs ≤ limit_number References },
    pub ghost few_questions: { length questions ≤ limit_number Questions },
    // Each number of a region, in bounds, named types and references, names one.
    pub ghost regions_known: { IsTrue (are_regions_known (length regions) bounds named refs) },
    // Each definition has a representation that goes with it, alignments that are powers of two,
    // discriminants within their type, and no more variants and fields than the limits.
    pub ghost defs_in_form: { IsTrue (are_defs_in_form profile defs) },
    // No two variants of a definition have one discriminant.
    pub ghost values_distinct: { AreValuesDistinct defs },
    // Each named type is one of a definition that there is, with a type for each of its fields.
    pub ghost rows_in_form: { IsTrue (are_rows_in_form defs named) },
    // In each type that is written as an argument, a field, a pointee and in a question, numbers
    // name rows, a `NonZero` holds an integer and a tuple has an element. No type holds itself by
    // value, none is deeper by value than the limit, and none comes back to itself through
    // elements, arguments and pointees.
    pub ghost types_in_form: { IsTrue (are_types_in_form profile defs named refs questions) },
    // No named type and no reference type stands twice.
    pub ghost named_distinct: { AreDistinct named },
    pub ghost refs_distinct: { AreDistinct refs },
}
