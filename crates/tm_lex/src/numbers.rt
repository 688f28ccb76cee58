ghost use Rattle.std.specs.Prelude.{◌≡◌, ℕ, ◌+◌, ◌*◌, ◌<◌, ◌^◌, ◌≤◌};
ghost use Rattle.std.specs.Char.{digit_value};
ghost use Rattle.std.specs.Option.{SomeIff};
ghost use Rattle.std.specs.Str.{chars};
ghost use Rattle.tm_lex.specs.Characters.{run_of};
ghost use Rattle.tm_lex.specs.Words.{continues_word};
ghost use Rattle.tm_lex.specs.Numbers.{spelled_in, number_of};

use crate::front::front;
use unicode_ident::is_xid_continue;

/// A value with one more digit of a base behind it, where the character is one and it stays below 2^128.
fn with_digit(base: u32, value: u128, c: char) -> Option<u128>
    requires least { 2 ≤ base }
    requires most { base ≤ 16 }
    ensures { SomeIff result ((digit_value c < base) × (value * base + digit_value c < 2 ^ 128))
        (value * base + digit_value c) }
{
    let digit = c.to_digit(base)?;
    let shifted = value.checked_mul(u128::from(base))?;
    shifted.checked_add(u128::from(digit))
}

/// The number that the run of word characters at the front spells in a base, if it spells one.
#[tactic(auto, using(crate::proofs::NumberLemmas::past_underscore, crate::proofs::NumberLemmas::past_digit, crate::proofs::NumberLemmas::at_no_digit, crate::proofs::NumberLemmas::at_stop, crate::proofs::NumberLemmas::at_end))]
fn spelled_in(base: u32, text: &str) -> Option<u128>
    requires least { 2 ≤ base }
    requires most { base ≤ 16 }
    ensures { result ≡ spelled_in base (run_of continues_word (chars text.now)) }
{
    let mut value: u128 = 0;
    let mut some = false;
    let mut rest = text;
    'digits: while let Some((c, after)) = front(rest) {
        if !is_xid_continue(c) {
            return some.then_some(value);
        }
        rest = after;
        if c == '_' {
            continue;
        }
        let Some(longer) = with_digit(base, value, c) else {
            return None;
        };
        value = longer;
        some = true;
    }
    some.then_some(value)
}

/// The number that the run of word characters at the front spells, if it spells one.
pub fn number_of(text: &str) -> Option<u128>
    ensures { result ≡ number_of (run_of continues_word (chars text.now)) }
{
    let Some((first, rest)) = front(text) else {
        return None;
    };
    if first != '0' {
        return spelled_in(10, text);
    }
    let Some((second, digits)) = front(rest) else {
        return spelled_in(10, text);
    };
    match second {
        'x' => spelled_in(16, digits),
        'o' => spelled_in(8, digits),
        'b' => spelled_in(2, digits),
        _ => spelled_in(10, text),
    }
}
