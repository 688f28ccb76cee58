//! Bytes in hexadecimal digits.
ghost use Rattle.std.specs.Prelude.{◌≡◌, ◌↔◌, IfOk, Ok, Err, false};
ghost use Rattle.std.specs.Char.{is_ascii_hexdigit};
ghost use Rattle.std.specs.List.{list_all};
ghost use Rattle.hex.specs.Hex.{decode_of};
ghost use Rattle.tm_validate.specs.Digits.{are_digits};

use std::alloc::Global;

/// Why a text gives no bytes.
#[derive(Clone, Copy, PartialEq, Eq, Debug)]
pub enum HexErr {
    /// It isn't an even number of hexadecimal digits, from 2 to 131,072.
    Form,
    /// There wasn't enough memory.
    Memory,
}

/// The bytes of a text of hexadecimal digits, two a byte, in either case.
///
/// `Form`: the text isn't an even number of them, from 2 to 131,072. `Memory`: there wasn't enough memory.
pub fn read_hex(alloc: Global, text: &str) -> Result<Vec<u8>, HexErr>
    ensures bytes { IfOk result (λ bytes. decode_of text.now ≡ Ok bytes.items) }
    ensures form { (result ≡ Err HexErr.Form) ↔ (are_digits text.now ≡ false) }
{
    if !are_digits(text) {
        return Err(HexErr::Form);
    }
    hex::decode(alloc, text).map_err(|_| HexErr::Memory)
}

/// Whether it is an even number of hexadecimal digits, neither too few nor too many.
fn are_digits(text: &str) -> bool
    ensures { result ≡ are_digits text.now }
{
    text.len() >= 2 && text.len() <= 131_072 && text.len() % 2 == 0 && is_hexadecimal(text)
}

fn is_hexadecimal(text: &str) -> bool
    ensures { result ≡ list_all is_ascii_hexdigit text.now }
{
    text.as_bytes().iter().all(|byte| byte.is_ascii_hexdigit())
}
