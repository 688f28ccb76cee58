ghost use Rattle.std.specs.Prelude.{◌≡◌, ◌≤◌, ◌++◌, IfOk, OnOk, length};
ghost use Rattle.tm_names.specs.ApartNames.{HasApartNames};
ghost use Rattle.tm_names.specs.InForm.{IsInForm};
ghost use Rattle.tm_run.specs.Asking.{own_if_plain, own_question, own_questions, own_type, with_questions};

use crate::words::options::{Mode, Options};
use std::alloc::Global;
use tm_base::{Assume, DefId, List, Memory};
use tm_names::{Open, OpenAsk, Resolved};
use tm_parse::{Decl, Parsed};

/// The type of a definition without parameters.
fn own_type(alloc: Global, number: u32) -> Open
    ensures { result ≡ own_type number }
{
    Open::Named(DefId(number), List::new(alloc), List::new(alloc))
}

/// The question from such a type to itself.
fn own_question(alloc: Global, number: u32) -> OpenAsk
    ensures { result ≡ own_question number }
{
    OpenAsk {
        src: own_type(alloc, number),
        dst: own_type(alloc, number),
        assume: Assume::NOTHING,
    }
}

/// Adds the question of a definition that has no parameters.
fn add_own(
    alloc: Global,
    asks: &mut List<OpenAsk>,
    number: u32,
    params: &[u32],
    types: &[u32],
) -> Result<(), Memory>
    ensures { OnOk result (asks.new ≡ asks.old ++ own_if_plain number params.now types.now) }
{
    match (params, types) {
        ([], []) => asks.add(own_question(alloc, number)),
        _ => Ok(()),
    }
}

/// The questions from each definition without parameters to itself, in the file's order.
fn own_questions(alloc: Global, decls: &[Decl]) -> Result<List<OpenAsk>, Memory>
    requires { length decls.now ≤ 256 }
    ensures { IfOk result (λ asks. asks ≡ own_questions 0 decls.now) }
{
    let mut asks = List::new(alloc);
    for (number, decl) in decls.iter().enumerate() {
        let (params, types) = (decl.params.as_slice(), decl.type_params.as_slice());
        add_own(alloc, &mut asks, number as u32, params, types)?;
    }
    Ok(asks)
}

/// What a file's names mean, with the questions that a mode puts in place of the file's.
pub fn with_questions(
    alloc: Global,
    options: &Options,
    parsed: &Parsed,
    resolved: Resolved,
) -> Result<Resolved, Memory>
    requires form { IsInForm resolved }
    requires apart { HasApartNames resolved }
    requires decls { length parsed.now.decls ≡ length resolved.defs }
    ensures asked { IfOk result
        (λ asked. asked ≡ with_questions options.now.mode parsed.now resolved) }
    ensures form { IfOk result IsInForm }
    ensures apart { IfOk result HasApartNames }
{
    match &options.mode {
        Some(Mode::Matrix) => Ok(Resolved {
            asks: own_questions(alloc, parsed.decls.as_slice())?,
            ..resolved
        }),
        None
        | Some(Mode::Needs)
        | Some(Mode::Bytes(_))
        | Some(Mode::Refute(_))
        | Some(Mode::Verify(_, _)) => Ok(resolved),
    }
}
