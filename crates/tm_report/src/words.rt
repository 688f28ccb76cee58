ghost use Rattle.std.specs.Prelude.{◌≡◌};
ghost use Rattle.tm_report.specs.AnswerLines.{cause_word, rule_word, side_word};
ghost use Rattle.tm_report.specs.FaultLines.{name_word};

use tm_base::{NameWhy, Rule, Side, Why};

/// The word of a name fault.
pub fn name_word(why: NameWhy) -> &'static str
    ensures { result.now ≡ name_word why }
{
    match why {
        NameWhy::Twice => "twice",
        NameWhy::Unknown => "unknown",
        NameWhy::Arity => "arity",
        NameWhy::Lifetime => "lifetime",
        NameWhy::Discriminant => "discriminant",
        NameWhy::Infinite => "infinite",
        NameWhy::BadRepr => "bad-repr",
    }
}

/// The word of a rule.
pub fn rule_word(rule: Rule) -> &'static str
    ensures { result.now ≡ rule_word rule }
{
    match rule {
        Rule::TargetUninhabited => "target-uninhabited",
        Rule::TargetPrivate => "target-private",
        Rule::NoCommonValue => "no-common-value",
        Rule::TooBig => "too-big",
        Rule::NeedsInit => "needs-init",
        Rule::ByteValue => "byte-value",
        Rule::BytesForReference => "bytes-for-reference",
        Rule::ReferenceForBytes => "reference-for-bytes",
        Rule::RefMoreUnique => "ref-more-unique",
        Rule::RefTooBig => "ref-too-big",
        Rule::RefAlignment => "ref-alignment",
        Rule::RefInterior => "ref-interior",
        Rule::RefLifetime => "ref-lifetime",
        Rule::RefPointee => "ref-pointee",
    }
}

/// The word of a side.
pub fn side_word(side: Side) -> &'static str
    ensures { result.now ≡ side_word side }
{
    match side {
        Side::Source => "source",
        Side::Target => "target",
    }
}

/// The word of a cause.
pub fn cause_word(why: Why) -> &'static str
    ensures { result.now ≡ cause_word why }
{
    match why {
        Why::NoRepr => "no-repr",
        Why::Tuple => "tuple",
        Why::OptionNotListed => "option-not-listed",
        Why::CEnumRange => "c-enum-range",
        Why::TransparentFields => "transparent-fields",
        Why::PackedHoldsAlign => "packed-holds-align",
        Why::TooLarge => "too-large",
    }
}
