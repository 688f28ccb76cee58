//! Laws of the definitions that contracts speak in. Each is the contract of a function that does
//! nothing, so that it is proved with the crate.

ghost use Rattle.tm_base.specs.Laws.{RoundsUp, FieldsStandApart, WordsHaveTheirSize, ValidityGrows, TestIsExact, DepthsAgree, WordsCompare, AnswersAreUnique, OwnIsTested, TreesAreRead, FaultsAreFound};

/// Rounding up gives the least multiple that isn't below a number.
pub fn rounding_up_is_least()
    ensures { RoundsUp }
{}

/// The fields of a `repr(C)` struct don't overlap, and stay inside it.
pub fn fields_stand_apart()
    ensures { FieldsStandApart }
{}

/// A word of a type has the type's size.
pub fn words_have_their_size()
    ensures { WordsHaveTheirSize }
{}

/// More words are valid where references may hold more, or more private types keep their words.
pub fn validity_grows()
    ensures { ValidityGrows }
{}

/// The test of validity is exact.
pub fn the_test_is_exact()
    ensures { TestIsExact }
{}

/// References that are compatible to a depth are so to each lesser one.
pub fn depths_agree()
    ensures { DepthsAgree }
{}

/// Of two words that aren't one, one is less.
pub fn words_compare()
    ensures { WordsCompare }
{}

/// A question has one answer at most.
pub fn answers_are_unique()
    ensures { AnswersAreUnique }
{}

/// A target reference may hold itself by a test exactly where it may by the relation of that test.
pub fn own_is_tested()
    ensures { OwnIsTested }
{}

/// What the words of each kind of tree are.
pub fn trees_are_read()
    ensures { TreesAreRead }
{}

/// A type has no layout exactly where it is at fault or holds by value a type at fault.
pub fn faults_are_found()
    ensures { FaultsAreFound }
{}
