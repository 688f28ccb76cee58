ghost use Rattle.std.specs.Prelude.{◌≡◌, ◌++◌, IfOk, string_bytes};
ghost use Rattle.tm_report.specs.FaultLines.{line_end, line_of, limit_text, name_text, place_text};

use crate::fault::{At, FileFault};
use crate::words::name_word;
use std::alloc::{AllocError, Global};
use tm_base::{LimitKind, Memory, NameWhy, Text};

/// The line that says why a file gets no report, with the byte 0A at its end.
///
/// `Memory`: there wasn't enough memory for the line.
pub fn fault_line(alloc: Global, fault: &FileFault) -> Result<Text, Memory>
    ensures { IfOk result (λ line. line ≡ line_of fault.now) }
{
    let line = line(alloc, *fault)?;
    Ok(Text::from(line))
}

/// The line of a fault.
fn line(alloc: Global, fault: FileFault) -> Result<String, AllocError>
    ensures { IfOk result (λ line. string_bytes line ≡ line_of fault) }
{
    match fault {
        FileFault::NotUtf8(at) => placed(alloc, "not utf-8", at),
        FileFault::NoToken(at) => placed(alloc, "no token", at),
        FileFault::BadNumber(at) => placed(alloc, "bad number", at),
        FileFault::OpenComment(at) => placed(alloc, "open comment", at),
        FileFault::Unexpected(at) => placed(alloc, "unexpected token", at),
        FileFault::EndOfFile(at) => placed(alloc, "unexpected end", at),
        FileFault::Passed(kind, None) => format!(in alloc; "{}\n", limit(alloc, kind)?),
        FileFault::Passed(kind, Some(at)) => placed(alloc, limit(alloc, kind)?.as_str(), at),
        FileFault::Names(why, at) => placed(alloc, name(alloc, why)?.as_str(), at),
        FileFault::BadRefutation(number) => {
            format!(in alloc; "bad refutation at line {number}\n")
        }
        FileFault::NoQuestion(number) => format!(in alloc; "no question {number}\n"),
    }
}

/// The line of what stands at a place.
fn placed(alloc: Global, what: &str, at: At) -> Result<String, AllocError>
    ensures { IfOk result (λ line. string_bytes line ≡ what.now ++ place_text at ++ line_end) }
{
    format!(in alloc; "{what} at byte {}, line {}\n", at.byte, at.line)
}

/// What is said of a limit that is passed, up to its place.
fn limit(alloc: Global, kind: LimitKind) -> Result<String, AllocError>
    ensures { IfOk result (λ text. string_bytes text ≡ limit_text kind) }
{
    format!(in alloc; "limit {} {} passed", kind.word(), kind.number())
}

/// What is said of a name fault, up to its place.
fn name(alloc: Global, why: NameWhy) -> Result<String, AllocError>
    ensures { IfOk result (λ text. string_bytes text ≡ name_text why) }
{
    format!(in alloc; "ill-formed {}", name_word(why))
}
