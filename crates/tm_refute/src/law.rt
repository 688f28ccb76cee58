ghost use Rattle.tm_refute.specs.ChosenLaws.{AreAlone, AreGood};
ghost use Rattle.tm_refute.specs.Law.{RefutationsAreTrue};
ghost use Rattle.tm_refute.specs.TextForms.{TextsAreReadOneWay};

/// Where a refutation holds, the answer to its question isn't yes, and each pair of references that it
/// names fails at the depth that it names.
pub fn refutations_are_true()
    ensures { RefutationsAreTrue }
{}

/// A text is that of one refutation of one question, and ends at one place. Bytes that are none have one bad
/// line at most, and bytes that are one have none.
pub fn texts_are_read_one_way()
    ensures { TextsAreReadOneWay }
{}

/// A question has one refutation at most.
pub fn questions_have_one_refutation()
    ensures { AreAlone }
{}

/// The refutation of a question about types of a world holds, and the question is one that is to have it. It has
/// 4,096 entries at most, and can be written where its words aren't too long together.
pub fn refutations_of_questions_hold()
    ensures { AreGood }
{}
