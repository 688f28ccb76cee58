ghost use Rattle.std.specs.Prelude.{◌≡◌, ◌<◌, ◌≤◌, ℕ, ◌-◌, length, List, IfOk, IfErr};
ghost use Rattle.tm_lex.specs.Lexes.{Tokenizes};
ghost use Rattle.tm_parse.specs.Bounds.{IsWithinLimits};
ghost use Rattle.tm_parse.specs.Parsing.{AnswersErr, AnswersFile, HasCause, IsAnswered, PassesLimitAt, SpellsFile, StopsAt};
ghost use Rattle.tm_parse.specs.Places.{EachPlace};
ghost use Rattle.tm_parse.specs.Spelling.{terminals_of};
ghost use Rattle.tm_base.specs.declared.limit.LimitKind.{LimitKind as Kind};
ghost use Rattle.tm_parse.specs.declared.parsed.Parsed.{Parsed as File};

use crate::classify::terminals;
use crate::parsed::Parsed;
use crate::reader::Reader;
use crate::stop::Stop;
use crate::terminal::Terminal;
use std::alloc::Global;
use tm_base::{LimitKind, Memory};
use tm_lex::Token;

/// Why a text's tokens aren't read as a file. Places count tokens, from 0.
///
/// `At(place)`: the tokens before the place begin a file, and no file goes on with the one at it; where the
/// place is the number of tokens, all of them begin a file and aren't one. `Limit(kind, place)`: a file
/// goes on with the token at the place, which is the first that passes a limit. `Memory`: there wasn't
/// enough memory.
#[derive(Clone, Copy, PartialEq, Eq, Debug)]
pub enum ParseErr {
    At(u32),
    Limit(LimitKind, u32),
    Memory,
}

/// How many tokens there are, where the last one ends behind as many bytes at least.
fn count_to(last: Token, tokens: &[Token]) -> u32
    requires { length tokens.now ≤ last.end }
    ensures { result ≡ length tokens.now }
{
    tokens.len() as u32
}

/// How many tokens there are. Each has a byte of its own, so they are no more than the last one's end says.
fn count(text: &str, tokens: &[Token]) -> u32
    requires { Tokenizes text.now tokens.now }
    ensures { result ≡ length tokens.now }
{
    match tokens.last() {
        Some(last) => count_to(*last, tokens),
        None => 0,
    }
}

/// The place of the first of the terminals that are left, where there are so many in all.
fn place(count: u32, rest: &[Terminal]) -> u32
    requires { length rest.now ≤ count }
    ensures { result ≡ count - length rest.now }
{
    count - rest.len() as u32
}

/// The file that all of the terminals spell; `count` says how many they are.
#[tactic(auto, unfolding(crate::specs::Accepted::answer_of))]
fn whole_file(alloc: Global, count: u32, terminals: &[Terminal]) -> Result<Parsed, ParseErr>
    requires { count ≡ length terminals.now }
    ensures { IsAnswered terminals.now result }
{
    let mut reader = Reader::new(alloc, terminals);
    match reader.file() {
        Ok(file) if reader.rest.is_empty() => Ok(file),
        Ok(_) => Err(ParseErr::At(place(count, reader.rest))),
        Err(Stop::Stuck) => Err(ParseErr::At(place(count, reader.rest))),
        Err(Stop::Passed(kind)) => Err(ParseErr::Limit(kind, place(count, reader.rest))),
        Err(Stop::Memory) => Err(ParseErr::Memory),
    }
}

/// The file that a text's tokens spell.
///
/// The tokens are those that `tm_lex::lex` answers for the text. The file is within the limits, and its places
/// are those of tokens. `At(place)` comes exactly where the token
/// at the place is the first with which no file of the grammar goes on, and no limit is passed before it;
/// where no token is missing but the file's end comes too early, the place is the number of tokens.
/// `Limit(kind, place)` comes exactly where the token at the place is the first that passes a limit and a
/// file goes on with it. `Memory`: there wasn't enough memory for the file.
pub fn parse(alloc: Global, text: &str, tokens: &[Token]) -> Result<Parsed, ParseErr>
    requires { Tokenizes text.now tokens.now }
    ensures file { IfOk result (SpellsFile (terminals_of text.now tokens.now)) }
    ensures within { IfOk result IsWithinLimits }
    ensures places { IfOk result (EachPlace (λ place. place < length tokens.now)) }
    ensures cause { IfErr result (HasCause (terminals_of text.now tokens.now)) }

    // Tokens spell one file, stop at one place or pass a limit at one, which is answered where memory
    // isn't wanting.
    ensures files { (v : File)
        → SpellsFile (terminals_of text.now tokens.now) v → AnswersFile v result }
    ensures faults { (place : ℕ)
        → StopsAt (terminals_of text.now tokens.now) place
        → AnswersErr (ParseErr.At place) result }
    ensures limits { (kind : Kind) (place : ℕ)
        → PassesLimitAt (terminals_of text.now tokens.now) kind place
        → AnswersErr (ParseErr.Limit kind place) result }
{
    let terminals = match terminals(alloc, text, tokens) {
        Ok(terminals) => terminals,
        Err(Memory) => return Err(ParseErr::Memory),
    };
    whole_file(alloc, count(text, tokens), terminals.as_slice())
}
