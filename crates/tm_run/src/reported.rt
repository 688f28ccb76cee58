ghost use Rattle.std.specs.Prelude.{◌≡◌, ◌<◌, ◌≤◌, false, IfErr, IfOk, IsUtf8, length};
ghost use Rattle.tm_base.specs.declared.limit.LimitKind.TheVariants.{MatrixTypes};
ghost use Rattle.tm_base.specs.Limits.{limit_number};
ghost use Rattle.tm_base.specs.Worlds.{tables_of};
ghost use Rattle.tm_layout.specs.Made.{IsMadeFor};
ghost use Rattle.tm_run.specs.Asking.{lacks_question, number_asked, passes_mode};
ghost use Rattle.tm_run.specs.Examined.{IsReportStop};
ghost use Rattle.tm_run.specs.Marks.{IsMatrixReport};
ghost use Rattle.tm_run.specs.Matches.{IsBytesReport};
ghost use Rattle.tm_run.specs.Needs.{IsNeedsReport};
ghost use Rattle.tm_run.specs.Reported.{IsAnswersReport, IsReported};

mod judging;
mod marks;
mod match_lines;
mod matching;
mod need;
mod need_lines;
mod needing;
mod refuting;
mod report;

use crate::court::Court;
use crate::reported::judging::answers;
use crate::reported::marks::{all_yes, matrix_lines, types};
use crate::reported::match_lines::match_lines;
use crate::reported::matching::{all_valid, matches};
use crate::reported::need_lines::need_lines;
use crate::reported::needing::{all_met, needs};
use crate::reported::refuting::{refuted, verified};
use crate::reported::report::{report, status, status_when};
use crate::status::Status;
use crate::stop::Stop;
use crate::words::options::{Mode, Options};
use std::alloc::Global;
use std::marker::Brand;
use std::sync::ledger::{Blank, Ledger};
use tm_base::{Memory, Text, World};
use tm_layout::Layouts;
use tm_matrix::matrix;

/// The status and the text of the answers to the questions of a file's world.
fn answered<L: Ledger>(
    alloc: Global,
    options: &Options,
    file: &[u8],
    world: &World,
    court: &mut Court<L>,
) -> Result<(Status, Text), Memory>
    requires { court.old ≡ tables_of world.now }
    ensures { IfOk result (λ outcome.
        IsAnswersReport options.now file.now world.now outcome.0 outcome.1) }
{
    let answers = answers(alloc, world, court)?;
    let text = report(alloc, options, file, world, &answers)?;
    Ok((status(&answers), text))
}

/// The status and the text of what each question of a world needs.
fn needed<L: Ledger>(
    alloc: Global,
    world: &World,
    court: &mut Court<L>,
) -> Result<(Status, Text), Memory>
    requires { court.old ≡ tables_of world.now }
    ensures { IfOk result (λ outcome. IsNeedsReport world.now outcome.0 outcome.1) }
{
    let needs = needs(alloc, world, court)?;
    let text = need_lines(alloc, world, &needs)?;
    Ok((status_when(all_met(&needs)), text))
}

/// The status and the text of the matrix of the types that a world's questions go from.
fn matrixed<L: Ledger>(
    alloc: Global,
    world: &World,
    layouts: &Layouts,
    court: &mut Court<L>,
) -> Result<(Status, Text), Memory>
    requires court { court.old ≡ tables_of world.now }
    requires made { IsMadeFor (tables_of world.now) layouts.now }
    requires few { length world.now.questions ≤ limit_number MatrixTypes }
    ensures { IfOk result (λ outcome. IsMatrixReport world.now outcome.0 outcome.1) }
{
    let types = types(alloc, world)?;
    let lines = matrix(alloc, world, layouts, court, &types)?;
    let text = matrix_lines(alloc, world, types.as_slice(), lines.as_slice())?;
    Ok((status_when(all_yes(lines.as_slice())), text))
}

/// The status and the text of what some bytes are to the targets of a world's questions.
fn matched(
    alloc: Global,
    world: &World,
    layouts: &Layouts,
    bytes: &[u8],
) -> Result<(Status, Text), Memory>
    requires made { IsMadeFor (tables_of world.now) layouts.now }
    requires few { length bytes.now ≤ 65536 }
    ensures { IfOk result (λ outcome. IsBytesReport bytes.now world.now outcome.0 outcome.1) }
{
    let matches = matches(alloc, world, layouts, bytes)?;
    let text = match_lines(alloc, world, &matches)?;
    Ok((status_when(all_valid(&matches)), text))
}

/// What the options ask for of a file's world.
fn in_mode<L: Ledger>(
    alloc: Global,
    options: &Options,
    file: &[u8],
    world: &World,
    layouts: &Layouts,
    court: &mut Court<L>,
) -> Result<(Status, Text), Stop>
    requires court { court.old ≡ tables_of world.now }
    requires made { IsMadeFor (tables_of world.now) layouts.now }
    requires few { passes_mode options.now.mode (length world.now.questions) ≡ false }
    requires there { lacks_question (number_asked options.now.mode)
        (length world.now.questions) ≡ false }
    requires utf8 { IsUtf8 file.now }
    ensures report { IfOk result (λ outcome.
        IsReported options.now.mode options.now file.now world.now outcome.0 outcome.1) }
    ensures stop { IfErr result (IsReportStop options.now.mode world.now) }
{
    match &options.mode {
        None => Ok(answered(alloc, options, file, world, court)?),
        Some(Mode::Needs) => Ok(needed(alloc, world, court)?),
        Some(Mode::Matrix) => Ok(matrixed(alloc, world, layouts, court)?),
        Some(Mode::Bytes(bytes)) => Ok(matched(alloc, world, layouts, bytes.as_slice())?),
        Some(Mode::Refute(number)) => refuted(alloc, file, world, court, *number),
        Some(Mode::Verify(number, x)) => Ok(verified(alloc, world, layouts, *number, x)?),
    }
}

/// The same, with layouts and a court of its own.
fn reported_by<L: Ledger>(
    alloc: Global,
    options: &Options,
    file: &[u8],
    world: &World,
    blank: Blank,
) -> Result<(Status, Text), Stop>
    requires name { blank.name ≡ L.name }
    requires parts { blank.parts ≡ L.parts }
    requires some { 0 < L.parts }
    requires few { passes_mode options.now.mode (length world.now.questions) ≡ false }
    requires there { lacks_question (number_asked options.now.mode)
        (length world.now.questions) ≡ false }
    requires utf8 { IsUtf8 file.now }
    ensures report { IfOk result (λ outcome.
        IsReported options.now.mode options.now file.now world.now outcome.0 outcome.1) }
    ensures stop { IfErr result (IsReportStop options.now.mode world.now) }
{
    let layouts = Layouts::new(alloc, world)?;
    let mut court: Court<L> = Court::new(alloc, world, &layouts, blank)?;
    in_mode(alloc, options, file, world, &layouts, &mut court)
}

/// The status and the text of what the options ask for of a file's world.
pub fn reported(
    alloc: Global,
    options: &Options,
    file: &[u8],
    world: &World,
) -> Result<(Status, Text), Stop>
    requires few { passes_mode options.now.mode (length world.now.questions) ≡ false }
    requires there { lacks_question (number_asked options.now.mode)
        (length world.now.questions) ≡ false }
    requires utf8 { IsUtf8 file.now }
    ensures report { IfOk result (λ outcome.
        IsReported options.now.mode options.now file.now world.now outcome.0 outcome.1) }
    ensures stop { IfErr result (IsReportStop options.now.mode world.now) }
{
    reported_by::<Brand>(alloc, options, file, world, Blank::new(1))
}
