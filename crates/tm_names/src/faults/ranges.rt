ghost use Rattle.std.specs.Prelude.{◌≡◌, OnOk, []};
ghost use Rattle.std.specs.Ordering.{int_eq};
ghost use Rattle.tm_base.specs.Integers.{fits_integer};
ghost use Rattle.tm_names.specs.Discriminants.{is_in_range};
ghost use Rattle.tm_names.specs.Found.{fault_at, is_wrong, value_faults};
ghost use Rattle.tm_names.specs.Least.{earliest};
ghost use Rattle.tm_names.specs.Values.{int_of, is_below, is_small};
ghost use Rattle.tm_names.specs.declared.value.Value.TheVariants as value_is;

use crate::adding::add;
use crate::counting::{next, value_in};
use crate::faults::least::Faults;
use crate::value::Value;
use tm_base::{List, Memory, NameWhy, Primitive, Profile};
use tm_parse::DeclVariant;

/// Whether a number, or what stands for it below zero, is below a bound.
fn is_below(value: Value, bound: u128) -> bool
    ensures { result ≡ is_below bound value }
{
    match value {
        Value::AtLeastZero(number) => number < bound,
        Value::BelowZero(number) => number < bound,
    }
}

/// Whether a value is at least zero and below a bound.
fn is_small(value: Value, bound: u128) -> bool
    ensures { result ≡ is_small bound value }
{
    match value {
        Value::AtLeastZero(number) => number < bound,
        Value::BelowZero(_) => false,
    }
}

/// Whether an integer type holds a value.
fn fits(profile: Profile, primitive: Primitive, value: Value) -> bool
    ensures { result ≡ fits_integer profile primitive (int_of value) }
{
    match primitive {
        Primitive::Bool | Primitive::U8 => is_small(value, 0x100),
        Primitive::I8 => is_below(value, 0x80),
        Primitive::U16 => is_small(value, 0x1_0000),
        Primitive::I16 => is_below(value, 0x8000),
        Primitive::Char | Primitive::F32 | Primitive::U32 => is_small(value, 0x1_0000_0000),
        Primitive::I32 => is_below(value, 0x8000_0000),
        Primitive::U64 | Primitive::F64 => is_small(value, 0x1_0000_0000_0000_0000),
        Primitive::I64 => is_below(value, 0x8000_0000_0000_0000),
        Primitive::Usize => match profile {
            Profile::Le64 | Profile::Be64 => is_small(value, 0x1_0000_0000_0000_0000),
            Profile::Le32 => is_small(value, 0x1_0000_0000),
        },
        Primitive::Isize => match profile {
            Profile::Le64 | Profile::Be64 => is_below(value, 0x8000_0000_0000_0000),
            Profile::Le32 => is_below(value, 0x8000_0000),
        },
        Primitive::U128 => matches!(value, Value::AtLeastZero(_)),
        Primitive::I128 => is_below(value, 0x8000_0000_0000_0000_0000_0000_0000_0000),
    }
}

/// Whether a value is in the range of an enum's discriminants.
fn is_in_range(profile: Profile, tag: Option<Primitive>, value: Value) -> bool
    ensures { result ≡ is_in_range profile tag (int_of value) }
{
    match tag {
        None => fits(profile, Primitive::I64, value),
        Some(primitive) => fits(profile, primitive, value),
    }
}

/// Whether two values are equal.
fn is_equal(value: Value, other: Value) -> bool
    ensures { result ≡ int_eq (int_of value) (int_of other) }
{
    match (value, other) {
        (Value::AtLeastZero(number), Value::AtLeastZero(same)) => number == same,
        (Value::BelowZero(number), Value::BelowZero(same)) => number == same,
        _ => false,
    }
}

/// Whether a value is out of range or one of those before it.
fn is_wrong(profile: Profile, tag: Option<Primitive>, before: &[Value], value: Value) -> bool
    ensures { result ≡ is_wrong profile tag before.now value }
{
    if !is_in_range(profile, tag, value) {
        return true;
    }
    for other in before {
        if is_equal(*other, value) {
            return true;
        }
    }
    false
}

impl Faults<'_, '_> {
    /// Takes note of a fault at a name, if there is one and something is wrong.
    fn note_at(&mut self, wrong: bool, why: NameWhy, name: Option<u32>)
        ensures first { self.new.first ≡ earliest self.old.first (fault_at wrong why name) }
        ensures file { self.new.file ≡ self.old.file }
    {
        match name {
            None => {}
            Some(place) => self.note(wrong, why, place),
        }
    }

    /// Takes note of the faults of an enum's discriminants.
    pub fn note_values(
        &mut self,
        tag: Option<Primitive>,
        variants: &[DeclVariant],
    ) -> Result<(), Memory>
        ensures first { OnOk result (self.new.first ≡ earliest self.old.first
            (value_faults self.old.file.source.profile tag [] (value_is.AtLeastZero 0)
            variants.now)) }
        ensures file { self.new.file ≡ self.old.file }
    {
        let profile = self.file.source.profile;
        let mut before = List::new(self.file.alloc);
        let mut implied = Value::AtLeastZero(0);
        for variant in variants {
            let value = value_in(implied, variant);
            let wrong = is_wrong(profile, tag, before.as_slice(), value);
            self.note_at(wrong, NameWhy::Discriminant, variant.name);
            add(&mut before, value)?;
            implied = next(value);
        }
        Ok(())
    }
}
