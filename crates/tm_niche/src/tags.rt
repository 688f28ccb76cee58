ghost use Rattle.std.specs.Prelude.{◌≡◌, ◌↔◌, ◌≤◌, ◌%◌, ℕ, Bool, IfOk, IsTrue};
ghost use Rattle.tm_base.specs.Cells.{Word};
ghost use Rattle.tm_base.specs.Integers.{fits_integer, is_integer};
ghost use Rattle.tm_base.specs.Layout.{prim_size};
ghost use Rattle.tm_base.specs.Shapes.{leaves_of, HasNoChoice, HasNoPrivate};
ghost use Rattle.tm_base.specs.Transmutes.{holds};
ghost use Rattle.tm_base.specs.Trees.{TreeWord};
ghost use Rattle.tm_base.specs.Valid.{IsTag};
ghost use Rattle.tm_niche.specs.Forms.{byte_forms, is_negative, magnitude, tag_form, turned};

use crate::members::Members;
use std::alloc::Global;
use tm_base::{Memory, Primitive, Profile, Tree};

/// How many bytes an integer type has.
fn size_of(profile: Profile, prim: Primitive) -> u32
    ensures { result ≡ prim_size profile prim }
{
    match prim {
        Primitive::Bool | Primitive::U8 | Primitive::I8 => 1,
        Primitive::U16 | Primitive::I16 => 2,
        Primitive::Char | Primitive::U32 | Primitive::I32 | Primitive::F32 => 4,
        Primitive::U64 | Primitive::I64 | Primitive::F64 => 8,
        Primitive::Usize | Primitive::Isize => match profile {
            Profile::Le64 | Profile::Be64 => 8,
            Profile::Le32 => 4,
        },
        Primitive::U128 | Primitive::I128 => 16,
    }
}

/// A value that isn't negative, or how far a negative one is below -1.
fn magnitude(value: i128) -> u128
    ensures { result ≡ magnitude value }
{
    if value < 0 {
        value.unsigned_abs() - 1
    } else {
        value.unsigned_abs()
    }
}

/// Whether a value is below 0.
fn is_negative(value: i128) -> bool
    ensures { result ≡ is_negative value }
{
    value < 0
}

/// The low byte of a number in two's complement, where a negative one is given by its magnitude.
fn low_byte(negative: bool, number: u128) -> u8
    ensures { result ≡ turned negative (number % 256) }
{
    let digit = (number % 256) as u8;
    if negative { 255 - digit } else { digit }
}

/// So many low bytes of a number in two's complement, the least first.
fn low_bytes(alloc: Global, size: u32, negative: bool, number: u128) -> Result<Members, Memory>
    ensures { IfOk result (λ bytes. bytes ≡ byte_forms negative size number) }
{
    let mut bytes = Members::new(alloc);
    let mut rest = number;
    for _ in 0..size {
        let byte = low_byte(negative, rest);
        bytes.push(Tree::Range(byte, byte))?;
        rest /= 256;
    }
    Ok(bytes)
}

/// The tree of an enum's tag: the one word of an integer type that holds the value.
/// `Memory`: there wasn't enough memory.
pub fn tag_tree(
    alloc: Global,
    profile: Profile,
    prim: Primitive,
    value: i128,
) -> Result<Tree, Memory>
    requires integer { IsTrue (is_integer prim) }
    requires fits { IsTrue (fits_integer profile prim value) }
    ensures form { IfOk result (λ tree. tree ≡ tag_form profile (prim_size profile prim) value) }
    ensures words { IfOk result (λ tree. (pointer : ℕ) (A : ℕ → ℕ → Bool) (keep : Bool) (w : Word)
        → TreeWord pointer (holds A) keep tree w ↔ IsTag profile (prim_size profile prim) value w) }
    ensures leaves { IfOk result
        (λ tree. (pointer : ℕ) → leaves_of pointer tree ≡ prim_size profile prim) }
    ensures public { IfOk result (λ tree. HasNoPrivate tree) }
    ensures single { IfOk result (λ tree. HasNoChoice tree) }
{
    let size = size_of(profile, prim);
    let mut bytes = low_bytes(alloc, size, is_negative(value), magnitude(value))?;
    bytes.order_for(profile);
    bytes.in_turn(alloc)
}
