ghost use Rattle.std.specs.Prelude.{◌≡◌, ◌&&◌, nat_lt, not};
ghost use Rattle.tm_parse.specs.Limits.{is_number_or_sign, number_of};
ghost use Rattle.tm_parse.specs.Types.{primitive_of, wrapper_of};

use crate::class::Class;
use tm_base::{Primitive, Wrapper};

/// A token as the grammar sees it.
///
/// `place` is its place in the list of tokens, from 0. `size` is its length in bytes.
#[derive(Clone, Copy)]
pub struct Terminal {
    pub class: Class,
    pub place: u32,
    pub size: u32,
}

impl Terminal {
    /// Whether this is a word or a lifetime of more than 64 bytes.
    pub fn is_name_too_long(self) -> bool
        ensures { result ≡ (not (is_number_or_sign self.class) && nat_lt 64 self.size) }
    {
        self.class.is_name() && self.size > 64
    }

    /// The number that it carries, else 0.
    pub fn number(self) -> u128
        ensures { result ≡ number_of self }
    {
        match self.class {
            Class::Number(value) => value,
            _ => 0,
        }
    }

    /// The primitive type that it carries, else `u8`.
    pub fn primitive(self) -> Primitive
        ensures { result ≡ primitive_of self }
    {
        match self.class {
            Class::Integer(primitive) => primitive,
            Class::Scalar(primitive) => primitive,
            Class::Alias(primitive) => primitive,
            _ => Primitive::U8,
        }
    }

    /// The wrapper that it carries, else `Option`.
    pub fn wrapper(self) -> Wrapper
        ensures { result ≡ wrapper_of self }
    {
        match self.class {
            Class::Generic(wrapper) => wrapper,
            _ => Wrapper::Option,
        }
    }
}
