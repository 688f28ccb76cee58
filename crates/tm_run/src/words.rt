ghost use Rattle.std.specs.Prelude.{◌≡◌, IfOk, false, string_bytes};
ghost use Rattle.std.specs.Char.{is_ascii_digit};
ghost use Rattle.std.specs.List.{list_all, list_any};
ghost use Rattle.clap.specs.Simple.{app_of};
ghost use Rattle.clap.specs.Walk.{rule_of};
ghost use Rattle.tm_run.specs.Commands.{command_app, given_in, is_stray, rule_with};
ghost use Rattle.tm_run.specs.Values.{number_of, profile_of, question_number};
ghost use Rattle.tm_run.specs.Words.{asked, bytes_given, mode_of, number_given, one_of, options_given, plain_mode, profile_given, question_given, valued_mode};

mod bytes;
pub mod options;

use crate::words::bytes::Bytes;
use crate::words::options::{Mode, Options};
use clap::error::ErrorKind;
use clap::{Arg, ArgAction, ArgMatches, Command};
use std::alloc::{AllocError, Global};
use tm_base::{Memory, Profile};

fn is_decimal(text: &str) -> bool
    ensures { result ≡ list_all is_ascii_digit text.now }
{
    text.as_bytes().iter().all(|byte| byte.is_ascii_digit())
}

/// The number that at most twenty digits write, where it is below 2^64.
fn number_of(text: &str) -> Option<u64>
    ensures { result ≡ number_of text.now }
{
    if text.len() <= 20 && is_decimal(text) {
        text.parse().ok()
    } else {
        None
    }
}

/// The number of a question that at most ten digits write, where it is below 2^32.
fn question_number(text: &str) -> Option<u32>
    ensures { result ≡ question_number text.now }
{
    if text.len() <= 10 && is_decimal(text) {
        text.parse().ok()
    } else {
        None
    }
}

/// The profile of a name.
fn profile_of(name: &str) -> Option<Profile>
    ensures { result ≡ profile_of name.now }
{
    match name {
        "le64" => Some(Profile::Le64),
        "be64" => Some(Profile::Be64),
        "le32" => Some(Profile::Le32),
        _ => None,
    }
}

/// One of two modes, if one is asked for, or `None` where both are.
fn one_of(mode: Option<Mode>, other: Option<Mode>) -> Option<Option<Mode>>
    ensures { result ≡ one_of mode other }
{
    match (mode, other) {
        (Some(_), Some(_)) => None,
        (Some(mode), None) => Some(Some(mode)),
        (None, other) => Some(other),
    }
}

/// The number of the file that is generated, if it is given, or `None` where it isn't in form.
fn number_given(matches: &ArgMatches) -> Option<Option<u64>>
    ensures { result ≡ number_given (given_in matches.now) }
{
    match matches.get_str("generate") {
        Some(text) => number_of(text).map(Some),
        None => Some(None),
    }
}

/// The profile, if it is given, or `None` where it isn't in form.
fn profile_given(matches: &ArgMatches) -> Option<Option<Profile>>
    ensures { result ≡ profile_given (given_in matches.now) }
{
    match matches.get_str("profile") {
        Some(name) => profile_of(name).map(Some),
        None => Some(None),
    }
}

/// The bytes, if they are given, or `None` where they aren't in form.
fn bytes_given(alloc: Global, matches: &ArgMatches) -> Result<Option<Option<Bytes>>, Memory>
    ensures { IfOk result (λ bytes. bytes ≡ bytes_given (given_in matches.now)) }
{
    match matches.get_str("bytes") {
        Some(text) => Ok(Bytes::read(alloc, text)?.map(Some)),
        None => Ok(Some(None)),
    }
}

/// The number of the question that is refuted, if it is given, or `None` where it isn't in form.
fn question_given(matches: &ArgMatches) -> Option<Option<u32>>
    ensures { result ≡ question_given (given_in matches.now) }
{
    match matches.get_str("refute") {
        Some(text) => question_number(text).map(Some),
        None => Some(None),
    }
}

/// The mode that an option without a value asks for.
fn plain_mode(matches: &ArgMatches) -> Option<Option<Mode>>
    ensures { result ≡ plain_mode (given_in matches.now) }
{
    let needs = matches.contains_id("needs").then_some(Mode::Needs);
    let matrix = matches.contains_id("matrix").then_some(Mode::Matrix);
    one_of(needs, matrix)
}

/// The mode that an option with a value asks for.
fn valued_mode(alloc: Global, matches: &ArgMatches) -> Result<Option<Option<Mode>>, Memory>
    ensures { IfOk result (λ mode. mode ≡ valued_mode (given_in matches.now)) }
{
    let Some(bytes) = bytes_given(alloc, matches)? else {
        return Ok(None);
    };
    let Some(number) = question_given(matches) else {
        return Ok(None);
    };
    Ok(one_of(bytes.map(Mode::Bytes), number.map(Mode::Refute)))
}

/// The mode that is asked for, if one is, or `None` where two are or a value isn't in form.
fn mode_of(alloc: Global, matches: &ArgMatches) -> Result<Option<Option<Mode>>, Memory>
    ensures { IfOk result (λ mode. mode ≡ mode_of (given_in matches.now)) }
{
    let Some(plain) = plain_mode(matches) else {
        return Ok(None);
    };
    let Some(valued) = valued_mode(alloc, matches)? else {
        return Ok(None);
    };
    Ok(one_of(plain, valued))
}

/// What the options ask for that were found, or `None` where that isn't in form.
fn options_given(alloc: Global, matches: &ArgMatches) -> Result<Option<Options>, Memory>
    ensures { IfOk result (λ options. options ≡ options_given (given_in matches.now)) }
{
    let Some(generate) = number_given(matches) else {
        return Ok(None);
    };
    let Some(profile) = profile_given(matches) else {
        return Ok(None);
    };
    let Some(mode) = mode_of(alloc, matches)? else {
        return Ok(None);
    };
    let options = Options {
        summary: matches.contains_id("summary"),
        generate,
        profile,
        mode,
        verify: matches.contains_id("verify"),
    };
    Ok(options.if_together())
}

/// An option with so many values.
fn option<'a>(alloc: Global, name: &'a str, values: usize) -> Arg<'a>
    ensures rule { rule_of result ≡ rule_with name.entry.now values }
    ensures local { result.global ≡ false }
{
    Arg::new(alloc, name)
        .long(name)
        .action(ArgAction::Set)
        .num_args(values)
}

/// The command: its options, with no help and no version.
fn command<'a>(alloc: Global) -> Result<Command<'a>, AllocError>
    ensures { IfOk result (λ command. app_of command ≡ command_app) }
{
    Command::new(alloc, "transmute_report")
        .no_binary_name(true)
        .disable_help_flag(true)
        .disable_version_flag(true)
        .arg(option(alloc, "summary", 0))?
        .arg(option(alloc, "generate", 1))?
        .arg(option(alloc, "profile", 1))?
        .arg(option(alloc, "needs", 0))?
        .arg(option(alloc, "matrix", 0))?
        .arg(option(alloc, "bytes", 1))?
        .arg(option(alloc, "refute", 1))?
        .arg(option(alloc, "verify", 0))
}

/// Whether a word begins as an option does and is none: `--` alone, and any with one `-`.
fn is_stray(word: &str) -> bool
    ensures { result ≡ is_stray word.now }
{
    word.starts_with("-") && (word == "--" || !word.starts_with("--"))
}

/// Whether a word is a stray one.
fn has_stray(words: &[String]) -> bool
    ensures { result ≡ list_any (λ word. is_stray (string_bytes word)) words.now }
{
    words.iter().any(|word| is_stray(word.as_str()))
}

/// What the words ask for, or `None` where they aren't in form.
pub fn chosen(alloc: Global, words: &[String]) -> Result<Option<Options>, Memory>
    ensures { IfOk result (λ options. options ≡ asked words.now) }
{
    if has_stray(words) {
        return Ok(None);
    }
    match command(alloc)?.try_get_matches_from(words) {
        Ok(matches) => options_given(alloc, &matches),
        Err(error) if error.kind() == ErrorKind::OutOfMemory => Err(Memory),
        Err(_) => Ok(None),
    }
}
