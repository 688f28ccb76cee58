ghost use Rattle.std.specs.Prelude.{◌≡◌, ◌<◌, IfOk, OnOk, string_bytes};
ghost use Rattle.tm_gen.specs.Generated.{earlier_type, field_line, field_type, variant_line, visibility};

use crate::draws::Draws;
use std::alloc::{AllocError, Global};

/// The line of the field `place` in the definition `definition`.
pub fn field(
    alloc: Global,
    draws: &mut Draws,
    definition: u64,
    place: u64,
) -> Result<String, AllocError>
    ensures text { IfOk result (λ line.
        string_bytes line ≡ (field_line definition place draws.old).text) }
    ensures state { OnOk result (draws.new ≡ (field_line definition place draws.old).state) }
{
    let typed = field_type(alloc, draws, definition)?;
    let visibility = visibility(draws.draw(8));
    format!(in alloc; "    {visibility}f{place}: {typed},\n")
}

/// The visibility of a field, by the number that is drawn for it.
fn visibility(number: u64) -> &'static str
    ensures { result.now ≡ visibility number }
{
    if number == 0 { "" } else { "pub " }
}

/// The type of a field in the definition.
fn field_type(alloc: Global, draws: &mut Draws, definition: u64) -> Result<String, AllocError>
    ensures text { IfOk result (λ typed.
        string_bytes typed ≡ (field_type definition draws.old).text) }
    ensures state { draws.new ≡ (field_type definition draws.old).state }
{
    match draws.draw(8) {
        0 => String::from_str(alloc, "u8"),
        1 => String::from_str(alloc, "u16"),
        2 => String::from_str(alloc, "u32"),
        3 => String::from_str(alloc, "bool"),
        4 => String::from_str(alloc, "char"),
        5 => format!(in alloc; "[u8; {}]", 1 + draws.draw(4)),
        6 => String::from_str(alloc, "&'static u8"),
        _ => earlier(alloc, draws, definition),
    }
}

/// The name of a definition before this one, or `u64` where there is none.
fn earlier(alloc: Global, draws: &mut Draws, definition: u64) -> Result<String, AllocError>
    ensures text { IfOk result (λ typed.
        string_bytes typed ≡ (earlier_type definition draws.old).text) }
    ensures state { draws.new ≡ (earlier_type definition draws.old).state }
{
    if definition == 0 {
        String::from_str(alloc, "u64")
    } else {
        format!(in alloc; "T{}", draws.draw(definition))
    }
}

/// The line of the variant `place`.
pub fn variant(alloc: Global, draws: &mut Draws, place: u64) -> Result<String, AllocError>
    requires { place < 4 }
    ensures text { IfOk result (λ line. string_bytes line ≡ (variant_line place draws.old).text) }
    ensures state { OnOk result (draws.new ≡ (variant_line place draws.old).state) }
{
    let value = 5 * place + draws.draw(5);
    format!(in alloc; "    V{place} = {value},\n")
}
