ghost use Rattle.std.specs.Prelude.{◌≡◌};
ghost use Rattle.tm_laws.specs.AnswerKinds.{is_no, is_refusal, is_yes};

use tm_base::Answer;

pub fn is_yes(answer: &Answer) -> bool
    ensures { result ≡ is_yes answer.now }
{
    matches!(answer, Answer::Yes | Answer::YesBecause(_))
}

pub fn is_no(answer: &Answer) -> bool
    ensures { result ≡ is_no answer.now }
{
    matches!(answer, Answer::No(_) | Answer::NoAt(_, _, _, _))
}

pub fn is_refusal(answer: &Answer) -> bool
    ensures { result ≡ is_refusal answer.now }
{
    matches!(answer, Answer::Refused(_, _, _))
}
