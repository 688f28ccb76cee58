ghost use Rattle.std.specs.Prelude.{◌≡◌, ◌≤◌, IfOk, IfErr, length, slice_get};
ghost use Rattle.tm_names.specs.ApartNames.{HasApartNames};
ghost use Rattle.tm_names.specs.InForm.{IsInForm};
ghost use Rattle.tm_run.specs.Examined.{AreTokensOf, IsExamined, IsMeaningOf, IsParsedOf, IsResolvedOf, IsStop, fault_at, no_token_at};
ghost use Rattle.tm_run.specs.Faults.{start_of};
ghost use Rattle.tm_run.specs.Files.{file_bytes};
ghost use Rattle.tm_run.specs.Places.{at_byte};
ghost use Rattle.tm_run.specs.declared.words.options.Options.{Options};

mod asking;
mod closing;
mod places;

use crate::examining::asking::with_questions;
use crate::examining::closing::world;
use crate::examining::places::at;
use crate::stop::Stop;
use crate::words::options::Options;
use std::alloc::Global;
use std::str;
use tm_base::World;
use tm_lex::{LexErr, LexWhy, Token, lex};
use tm_names::{NameErr, Resolved, check};
use tm_parse::{ParseErr, Parsed, parse};
use tm_report::{At, FileFault};

/// The text of a file.
fn decoded(file: &[u8]) -> Result<&str, Stop>
    requires { length file.now ≤ file_bytes }
    ensures text { IfOk result (λ text. text.now ≡ file.now) }
    ensures stop { (options : Options) → IfErr result (IsStop options file.now) }
{
    match str::from_utf8(file) {
        Ok(text) => Ok(text),
        Err(broken) => Err(Stop::Fault(FileFault::NotUtf8(at(file, broken.valid_up_to())))),
    }
}

/// The fault of a text in which no token begins at a place.
fn no_token(why: LexWhy, at: At) -> FileFault
    ensures { result ≡ no_token_at at why }
{
    match why {
        LexWhy::NoToken => FileFault::NoToken(at),
        LexWhy::BadNumber => FileFault::BadNumber(at),
        LexWhy::OpenComment => FileFault::OpenComment(at),
    }
}

/// The tokens of a text.
fn tokens(alloc: Global, text: &str) -> Result<Vec<Token>, Stop>
    requires { length text.now ≤ file_bytes }
    ensures tokens { IfOk result (λ tokens. AreTokensOf text.now tokens.items) }
    ensures stop { (options : Options) → IfErr result (IsStop options text.now) }
{
    match lex(alloc, text) {
        Ok(tokens) => Ok(tokens),
        Err(LexErr::At(byte, why)) => {
            let place = at(text.as_bytes(), byte as usize);
            Err(Stop::Fault(no_token(why, place)))
        }
        Err(LexErr::Memory) => Err(Stop::Memory),
    }
}

/// The place where a token of a text begins, or the end of the text where there is none.
fn start(text: &str, tokens: &[Token], place: usize) -> At
    requires short { length text.now ≤ file_bytes }
    requires tokens { AreTokensOf text.now tokens.now }
    ensures { result ≡ at_byte text.now (start_of text.now (slice_get tokens.now place)) }
{
    let bytes = text.as_bytes();
    match tokens.get(place) {
        Some(token) => at(bytes, token.start as usize),
        None => at(bytes, bytes.len()),
    }
}

/// The fault of a text whose tokens stop at a place in their list, or at its end.
fn fault(text: &str, tokens: &[Token], place: usize) -> FileFault
    requires short { length text.now ≤ file_bytes }
    requires tokens { AreTokensOf text.now tokens.now }
    ensures { result ≡ fault_at text.now (slice_get tokens.now place) }
{
    let at = start(text, tokens, place);
    if place < tokens.len() {
        FileFault::Unexpected(at)
    } else {
        FileFault::EndOfFile(at)
    }
}

/// The file of the grammar that a text's tokens spell.
fn parsed(alloc: Global, text: &str, tokens: &[Token]) -> Result<Parsed, Stop>
    requires short { length text.now ≤ file_bytes }
    requires tokens { AreTokensOf text.now tokens.now }
    ensures parsed { IfOk result (IsParsedOf text.now tokens.now) }
    ensures stop { (options : Options) → IfErr result (IsStop options text.now) }
{
    match parse(alloc, text, tokens) {
        Ok(parsed) => Ok(parsed),
        Err(ParseErr::At(place)) => Err(Stop::Fault(fault(text, tokens, place as usize))),
        Err(ParseErr::Limit(kind, place)) => {
            let passed = FileFault::Passed(kind, Some(start(text, tokens, place as usize)));
            Err(Stop::Fault(passed))
        }
        Err(ParseErr::Memory) => Err(Stop::Memory),
    }
}

/// What the names of what a text spells mean, with the questions that a mode asks.
fn resolved(
    alloc: Global,
    options: &Options,
    text: &str,
    tokens: &[Token],
    parsed: &Parsed,
) -> Result<Resolved, Stop>
    requires short { length text.now ≤ file_bytes }
    requires parsed { IsParsedOf text.now tokens.now parsed.now }
    ensures resolved { IfOk result (IsResolvedOf options.now text.now tokens.now parsed.now) }
    ensures in_form { IfOk result IsInForm }
    ensures apart { IfOk result HasApartNames }
    ensures stop { IfErr result (IsStop options.now text.now) }
{
    match check(alloc, text, tokens, parsed, options.target()) {
        Ok(resolved) => Ok(with_questions(alloc, options, parsed, resolved)?),
        Err(NameErr::Fault(why, place)) => {
            let names = FileFault::Names(why, start(text, tokens, place as usize));
            Err(Stop::Fault(names))
        }
        Err(NameErr::Memory) => Err(Stop::Memory),
    }
}

/// What the names of a text mean, for what is asked.
fn meaning(alloc: Global, options: &Options, text: &str) -> Result<Resolved, Stop>
    requires { length text.now ≤ file_bytes }
    ensures meaning { IfOk result (IsMeaningOf options.now text.now) }
    ensures in_form { IfOk result IsInForm }
    ensures apart { IfOk result HasApartNames }
    ensures stop { IfErr result (IsStop options.now text.now) }
{
    let tokens = tokens(alloc, text)?;
    let parsed = parsed(alloc, text, &tokens)?;
    resolved(alloc, options, text, &tokens, &parsed)
}

/// The world of a file of at most 1,048,576 bytes, for what is asked; or the one fault for which it gets no
/// report.
pub fn examine(alloc: Global, options: &Options, file: &[u8]) -> Result<World, Stop>
    requires { length file.now ≤ file_bytes }
    ensures world { IfOk result (IsExamined options.now file.now) }
    ensures stop { IfErr result (IsStop options.now file.now) }
{
    let text = decoded(file)?;
    let resolved = meaning(alloc, options, text)?;
    world(alloc, options, &resolved)
}
