//! What shows that the answer to a question is no: written, and checked.
ghost use Rattle.std.specs.Prelude.{◌≡◌, ℕ, ◌++◌, false, IfErr, IfOk, IsUtf8, Some, length};
ghost use Rattle.tm_base.specs.Worlds.{tables_of};
ghost use Rattle.tm_layout.specs.Made.{IsMadeFor};
ghost use Rattle.tm_refute.specs.Written.{IsWritable, refutation_text};
ghost use Rattle.tm_run.specs.Asking.{is_no_question, question_at};
ghost use Rattle.tm_run.specs.Examined.{IsRefutationStop};
ghost use Rattle.tm_run.specs.Refutations.{IsRefuteReport, IsVerifyReport, verdict_line};

use crate::court::Court;
use crate::kinds::is_yes;
use crate::reported::report::status_when;
use crate::status::Status;
use crate::stop::Stop;
use std::alloc::Global;
use std::str;
use std::sync::ledger::Ledger;
use tm_base::{Ask, Memory, Text, World};
use tm_layout::Layouts;
use tm_refute::{Refutation, refutations_of_questions_hold, verify, write_text};
use tm_region::Order;
use tm_report::line;

/// The question of a number, from 1.
fn question(world: &World, number: u32) -> &Ask
    requires { is_no_question number (length world.now.questions) ≡ false }
    ensures { question_at world.now.questions number ≡ Some result.now }
{
    match world.questions.get(number as usize - 1) {
        Some(ask) => ask,
        None => unreachable!(),
    }
}

/// The text of a refutation, and behind it the file.
fn shown(alloc: Global, number: u32, x: &Refutation, file: &[u8]) -> Result<Text, Memory>
    requires writable { (pointer : ℕ) × IsWritable pointer x.now }
    requires utf8 { IsUtf8 file.now }
    ensures { IfOk result (λ text. text ≡ refutation_text number x.now ++ file.now) }
{
    let Ok(behind) = str::from_utf8(file) else {
        unreachable!();
    };
    let mut text = write_text(alloc, number, x)?;
    text.push_str(behind)?;
    Ok(text)
}

/// The status and the text of what shows that the answer to a question is no, or of its answer.
pub fn refuted<L: Ledger>(
    alloc: Global,
    file: &[u8],
    world: &World,
    court: &mut Court<L>,
    number: u32,
) -> Result<(Status, Text), Stop>
    requires court { court.old ≡ tables_of world.now }
    requires there { is_no_question number (length world.now.questions) ≡ false }
    requires utf8 { IsUtf8 file.now }
    ensures report { IfOk result (λ outcome.
        IsRefuteReport (tables_of world.now) world.now.questions
        number file.now outcome.0 outcome.1) }
    ensures stop { IfErr result (IsRefutationStop number world.now) }
{
    refutations_of_questions_hold();
    let ask = question(world, number);
    match court.refutation(alloc, ask)? {
        Some(x) => Ok((Status::Mixed, shown(alloc, number, &x, file)?)),
        None => {
            let answer = court.answer(alloc, ask)?;
            let text = line(alloc, number, world, &answer)?;
            Ok((status_when(is_yes(&answer)), text))
        }
    }
}

/// The line that says whether a refutation holds.
fn verdict(alloc: Global, holds: bool, number: u32) -> Result<Text, Memory>
    ensures { IfOk result (λ line. line ≡ verdict_line holds number) }
{
    let line = if holds {
        format!(in alloc; "accepted {number}\n")?
    } else {
        format!(in alloc; "rejected {number}\n")?
    };
    Ok(Text::from(line))
}

/// The status and the text of whether a refutation of a question holds.
pub fn verified(
    alloc: Global,
    world: &World,
    layouts: &Layouts,
    number: u32,
    x: &Refutation,
) -> Result<(Status, Text), Memory>
    requires made { IsMadeFor (tables_of world.now) layouts.now }
    requires there { is_no_question number (length world.now.questions) ≡ false }
    ensures { IfOk result (λ outcome.
        IsVerifyReport (tables_of world.now) world.now.questions
        number x.now outcome.0 outcome.1) }
{
    let order = Order::new(alloc, world)?;
    let holds = verify(alloc, world, layouts, &order, question(world, number), x)?;
    let text = verdict(alloc, holds, number)?;
    Ok((status_when(holds), text))
}
