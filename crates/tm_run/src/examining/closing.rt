ghost use Rattle.std.specs.Prelude.{◌≡◌, ℕ, false, true, Some, List, IfErr, IfNone, IfOk, IfSome};
ghost use Rattle.tm_names.specs.ApartNames.{HasApartNames};
ghost use Rattle.tm_names.specs.InForm.{IsInForm};
ghost use Rattle.tm_run.specs.Asking.{is_no_question, lacks_question, number_asked, passes_mode};
ghost use Rattle.tm_run.specs.Examined.{IsExamined, IsMeaningOf, IsStop};

use crate::stop::Stop;
use crate::words::options::{Mode, Options};
use std::alloc::Global;
use tm_base::{LimitKind, World};
use tm_ground::ground;
use tm_names::Resolved;
use tm_report::FileFault;

/// What is wrong with a file that has too many types for a matrix.
const TOO_MANY_TYPES: FileFault = FileFault::Passed(LimitKind::MatrixTypes, None);

/// Whether so many questions are more than what is asked for takes.
fn passes_mode(options: &Options, questions: usize) -> bool
    ensures { result ≡ passes_mode options.now.mode questions }
{
    match &options.mode {
        Some(Mode::Matrix) => questions > LimitKind::MatrixTypes.number() as usize,
        None
        | Some(Mode::Needs)
        | Some(Mode::Bytes(_))
        | Some(Mode::Refute(_))
        | Some(Mode::Verify(_, _)) => false,
    }
}

/// Whether a number, from 1, is that of none of so many questions.
fn is_no_question(number: u32, questions: usize) -> bool
    ensures { result ≡ is_no_question number questions }
{
    number == 0 || questions < number as usize
}

/// The number of the question that is asked of, where it is that of none of so many.
fn no_question(options: &Options, questions: usize) -> Option<u32>
    ensures some { IfSome result (λ number. (number_asked options.now.mode ≡ Some number)
        × (is_no_question number questions ≡ true)) }
    ensures none { IfNone result
        (lacks_question (number_asked options.now.mode) questions ≡ false) }
{
    let number = options.number_asked()?;
    if is_no_question(number, questions) {
        Some(number)
    } else {
        None
    }
}

/// The world of a file whose names mean this, for what is asked.
pub fn world(alloc: Global, options: &Options, resolved: &Resolved) -> Result<World, Stop>
    requires form { IsInForm resolved.now }
    requires names { HasApartNames resolved.now }
    ensures world { (file : List ℕ) → IsMeaningOf options.now file resolved.now
        → IfOk result (IsExamined options.now file) }
    ensures stop { (file : List ℕ) → IsMeaningOf options.now file resolved.now
        → IfErr result (IsStop options.now file) }
{
    let world = ground(alloc, resolved)?;
    let questions = world.questions.len();
    if passes_mode(options, questions) {
        return Err(Stop::Fault(TOO_MANY_TYPES));
    }
    match no_question(options, questions) {
        Some(number) => Err(Stop::Fault(FileFault::NoQuestion(number))),
        None => Ok(world),
    }
}
