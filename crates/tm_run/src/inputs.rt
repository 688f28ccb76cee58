//! What an input asks, of the file that it is or that stands behind a text in it.
ghost use Rattle.std.specs.Prelude.{◌≡◌, ◌≤◌, true, IfErr, IfOk, drop, length};
ghost use Rattle.tm_run.specs.Examined.{IsStop};
ghost use Rattle.tm_run.specs.Inputs.{IsTextOf};
ghost use Rattle.tm_run.specs.Runs.{Decides, DecidesInput, IsInputStop};

use crate::examining::examine;
use crate::reported::reported;
use crate::status::Status;
use crate::stop::Stop;
use crate::words::options::Options;
use std::alloc::Global;
use tm_base::{LimitKind, Text};
use tm_refute::{Refutation, TextErr, read_text};
use tm_report::FileFault;

/// The status and the text of what an input asks for; or the one fault for which it gets no report.
pub fn outcome(alloc: Global, options: &Options, input: &[u8]) -> Result<(Status, Text), Stop>
    ensures report { IfOk result (λ outcome.
        DecidesInput options.now input.now outcome.0 outcome.1) }
    ensures stop { IfErr result (IsInputStop options.now input.now) }
{
    if options.verify {
        behind_text(alloc, options, input)
    } else {
        judged(alloc, options, input)
    }
}

/// The status and the text of what is asked of the file that stands behind the text of a refutation.
fn behind_text(alloc: Global, options: &Options, input: &[u8]) -> Result<(Status, Text), Stop>
    requires { options.now.verify ≡ true }
    ensures report { IfOk result (λ outcome.
        DecidesInput options.now input.now outcome.0 outcome.1) }
    ensures stop { IfErr result (IsInputStop options.now input.now) }
{
    let (number, x, end) = text(alloc, options, input)?;
    let (_, file) = input.split_at(end as usize);
    let asked = options.to_verify(number, x);
    judged(alloc, &asked, file)
}

/// The number of a question, its refutation, and the place in an input, in bytes from 0, behind its text.
fn text(alloc: Global, options: &Options, input: &[u8]) -> Result<(u32, Refutation, u32), Stop>
    requires { options.now.verify ≡ true }
    ensures within { IfOk result (λ text. text.2 ≤ length input.now) }
    ensures text { IfOk result (λ text.
        IsTextOf options.now input.now text.0 text.1 (drop text.2 input.now)) }
    ensures stop { IfErr result (IsInputStop options.now input.now) }
{
    if input.len() > LimitKind::TextBytes.number() as usize {
        return Err(Stop::Fault(FileFault::Passed(LimitKind::TextBytes, None)));
    }
    match read_text(alloc, input, options.pointer()) {
        Ok(text) => Ok(text),
        Err(TextErr::At(line)) => Err(Stop::Fault(FileFault::BadRefutation(line))),
        Err(TextErr::Memory) => Err(Stop::Memory),
    }
}

/// The status and the text of what is asked of a file; or the one fault for which it gets no report.
fn judged(alloc: Global, options: &Options, file: &[u8]) -> Result<(Status, Text), Stop>
    ensures report { IfOk result (λ outcome. Decides options.now file.now outcome.0 outcome.1) }
    ensures stop { IfErr result (IsStop options.now file.now) }
{
    if file.len() > LimitKind::FileBytes.number() as usize {
        return Err(Stop::Fault(FileFault::Passed(LimitKind::FileBytes, None)));
    }
    let world = examine(alloc, options, file)?;
    let outcome = reported(alloc, options, file, &world)?;
    Ok(outcome)
}
