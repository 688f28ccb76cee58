//! A law of the definitions, which is the contract of a function that does nothing.
ghost use Rattle.tm_tree.specs.Laws.{AlternativesAreKept, LeavesAreFew, WordsAreValid};

/// The tree that is described for a type of a world that has a layout has exactly its valid words, no more
/// leaves than 80 times its weight, and no alternative where the type has none.
pub fn type_trees_are_exact()
    ensures words { WordsAreValid }
    ensures leaves { LeavesAreFew }
    ensures single { AlternativesAreKept }
{}
