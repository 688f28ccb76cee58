ghost use Rattle.std.specs.Prelude.{◌≡◌, IsTrue};
ghost use Rattle.tm_names.specs.Narrow.{is_value_narrow};
ghost use Rattle.tm_names.specs.Values.{int_of, next_of, signed_value, value_in};

use crate::value::Value;
use tm_parse::DeclVariant;

/// The value behind this one; behind the greatest comes the greatest.
pub fn next(value: Value) -> Value
    ensures { result ≡ next_of value }
{
    match value {
        Value::AtLeastZero(number) => Value::AtLeastZero(number.saturating_add(1)),
        Value::BelowZero(0) => Value::AtLeastZero(0),
        Value::BelowZero(number) => Value::BelowZero(number - 1),
    }
}

/// A number with its sign.
fn signed(negative: bool, number: u128) -> Value
    ensures { result ≡ signed_value negative number }
{
    if negative && number > 0 {
        Value::BelowZero(number - 1)
    } else {
        Value::AtLeastZero(number)
    }
}

/// The discriminant of a variant, where so much is implied.
pub fn value_in(implied: Value, variant: &DeclVariant) -> Value
    ensures { result ≡ value_in implied variant.now }
{
    match variant.value {
        None => implied,
        Some(number) => signed(variant.negative, number),
    }
}

/// A value that has at most 64 bits behind its sign, as a number.
pub fn narrow(value: Value) -> i128
    requires { IsTrue (is_value_narrow (int_of value)) }
    ensures { result ≡ int_of value }
{
    match value {
        Value::AtLeastZero(number) => number as i128,
        Value::BelowZero(number) => -1 - number as i128,
    }
}
