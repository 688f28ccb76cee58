//! Laws of the definitions that need more than their words. Each is the contract of a function that does
//! nothing, so that it is proved with the crate.
#![tactic(auto)]

mod answers;
mod places;
mod words;

ghost use Rattle.tm_laws.specs.Laws.{TypesAreSettled, MoreMayBeAssumed, CompatibilityIsKnown, QuestionsHaveAnswers, QuestionsHaveOneAnswer};

pub use answers::{answers_mean_what_they_say, noes_show_why};
pub use places::{
    enums_hold_their_fields, expansion_keeps_parts, places_of_judged_types_stand_apart,
    places_stand_apart, structs_hold_their_fields,
};
use tm_base::World;
pub use words::{
    a_word_is_refused_at_one_offset, source_words_have_whole_references,
    values_are_refused_where_unfit,
};

/// Each type has no value, or one is known.
pub fn types_are_settled()
    ensures { TypesAreSettled }
{}

/// What may be taken may be taken under more assumptions.
pub fn more_may_be_assumed()
    ensures { MoreMayBeAssumed }
{}

/// It is known of two references of a world whether the one may be taken as the other.
pub fn compatibility_is_known(world: &World)
    ensures { CompatibilityIsKnown world.now }
{}

/// Each question whose types are over a world has an answer, and no other where no two types at fault
/// that one side reaches share their text.
pub fn each_question_has_an_answer(world: &World)
    ensures some { QuestionsHaveAnswers world.now }
    ensures only { QuestionsHaveOneAnswer world.now }
{}
