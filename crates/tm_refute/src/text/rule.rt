//! The words of local rules.
ghost use Rattle.std.specs.Prelude.{◌≡◌};
ghost use Rattle.tm_refute.specs.Taken.{ReadsAll};
ghost use Rattle.tm_refute.specs.TextForms.{local_text};

use tm_base::LocalRule;

/// The word of a local rule.
pub fn local_word(rule: LocalRule) -> &'static str
    ensures { result.now ≡ local_text rule }
{
    match rule {
        LocalRule::MoreUnique => "ref-more-unique",
        LocalRule::TooBig => "ref-too-big",
        LocalRule::Alignment => "ref-alignment",
        LocalRule::Interior => "ref-interior",
        LocalRule::Lifetime => "ref-lifetime",
    }
}

/// The local rule that a text names.
pub fn local_rule(text: &[u8]) -> Option<LocalRule>
    ensures { ReadsAll (λ rule bytes. bytes ≡ local_text rule) text.now result }
{
    if text == local_word(LocalRule::MoreUnique).as_bytes() {
        return Some(LocalRule::MoreUnique);
    }
    if text == local_word(LocalRule::TooBig).as_bytes() {
        return Some(LocalRule::TooBig);
    }
    if text == local_word(LocalRule::Alignment).as_bytes() {
        return Some(LocalRule::Alignment);
    }
    if text == local_word(LocalRule::Interior).as_bytes() {
        return Some(LocalRule::Interior);
    }
    if text == local_word(LocalRule::Lifetime).as_bytes() {
        return Some(LocalRule::Lifetime);
    }
    None
}
