//! Where a target refuses a word, and how references stand in the words of a source.

ghost use Rattle.tm_laws.specs.WordLaws.{RefusedAtOneOffset, RefusedWhereUnfit, WordsHaveWholeReferences, ValuesRefusedWhereUnfit};

use tm_base::World;

/// A target refuses a word at one offset at most, and one that has a word refuses a word of a source at an
/// offset inside of the target exactly where that, fitted, is none of the target's.
pub fn a_word_is_refused_at_one_offset()
    ensures only { RefusedAtOneOffset }
    ensures some { RefusedWhereUnfit }
{}

/// In a question over a world whose target has a word, a value of the source is refused at an offset inside of
/// the target exactly where it isn't accepted.
pub fn values_are_refused_where_unfit(world: &World)
    ensures { ValuesRefusedWhereUnfit world.now }
{}

/// In a word of a source each reference stands with all its cells, from the first to the last.
pub fn source_words_have_whole_references()
    ensures { WordsHaveWholeReferences }
{}
