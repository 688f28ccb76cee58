ghost use Rattle.std.specs.Prelude.{◌≡◌, ◌<◌, ◌≤◌, IfOk, OnOk, string_bytes};
ghost use Rattle.tm_gen.specs.Generated.{definition_text, definitions_text, kind_at, kind_repr, kind_word, member_line, members_text};

use crate::draws::Draws;
use crate::fields::{field, variant};
use std::alloc::{AllocError, Global};
use tm_base::Kind;

/// How many definitions a file has.
pub const DEFINITIONS: u64 = 24;

/// All definitions of a file.
pub fn definitions(alloc: Global, draws: &mut Draws) -> Result<String, AllocError>
    ensures text { IfOk result (λ text. string_bytes text ≡ (definitions_text draws.old).text) }
    ensures state { OnOk result (draws.new ≡ (definitions_text draws.old).state) }
{
    let mut text = String::new(alloc);
    for number in 0..DEFINITIONS {
        text.push_str(definition(alloc, draws, number)?.as_str())?;
    }
    Ok(text)
}

/// The definition of that number.
fn definition(alloc: Global, draws: &mut Draws, number: u64) -> Result<String, AllocError>
    ensures text { IfOk result (λ text.
        string_bytes text ≡ (definition_text number draws.old).text) }
    ensures state { OnOk result (draws.new ≡ (definition_text number draws.old).state) }
{
    let kind = kind_at(draws.draw(3));
    let count = 1 + draws.draw(4);
    let members = members(alloc, draws, kind, number, count)?;
    format!(in alloc;
        "#[repr({})]\n{} T{number} {{\n{members}}}\n",
        repr(kind),
        word(kind)
    )
}

/// The lines of so many members of a definition.
fn members(
    alloc: Global,
    draws: &mut Draws,
    kind: Kind,
    definition: u64,
    count: u64,
) -> Result<String, AllocError>
    requires { count ≤ 4 }
    ensures text { IfOk result (λ text.
        string_bytes text ≡ (members_text kind definition count draws.old).text) }
    ensures state { OnOk result (draws.new ≡ (members_text kind definition count draws.old).state) }
{
    let mut text = String::new(alloc);
    for place in 0..count {
        text.push_str(member(alloc, draws, kind, definition, place)?.as_str())?;
    }
    Ok(text)
}

/// The line of the member `place`: a variant of an enum, and else a field.
fn member(
    alloc: Global,
    draws: &mut Draws,
    kind: Kind,
    definition: u64,
    place: u64,
) -> Result<String, AllocError>
    requires { place < 4 }
    ensures text { IfOk result (λ line.
        string_bytes line ≡ (member_line kind definition place draws.old).text) }
    ensures state { OnOk result (draws.new ≡ (member_line kind definition place draws.old).state) }
{
    match kind {
        Kind::Struct | Kind::Union => field(alloc, draws, definition, place),
        Kind::Enum => variant(alloc, draws, place),
    }
}

/// The kind of that number.
fn kind_at(number: u64) -> Kind
    ensures { result ≡ kind_at number }
{
    match number {
        0 => Kind::Struct,
        1 => Kind::Union,
        _ => Kind::Enum,
    }
}

/// The word that a kind is declared with.
fn word(kind: Kind) -> &'static str
    ensures { result.now ≡ kind_word kind }
{
    match kind {
        Kind::Struct => "struct",
        Kind::Union => "union",
        Kind::Enum => "enum",
    }
}

/// The representation that a kind gets.
fn repr(kind: Kind) -> &'static str
    ensures { result.now ≡ kind_repr kind }
{
    match kind {
        Kind::Struct | Kind::Union => "C",
        Kind::Enum => "u8",
    }
}
