ghost use Rattle.std.specs.Prelude.{◌≡◌, ◌≤◌, ◌++◌, IfOk, OnOk, count_by, length};
ghost use Rattle.std.specs.List.{All, list_all};
ghost use Rattle.tm_base.specs.Profiles.{pointer_size};
ghost use Rattle.tm_base.specs.Worlds.{tables_of};
ghost use Rattle.tm_laws.specs.AnswerKinds.{is_no, is_refusal, is_yes};
ghost use Rattle.tm_report.specs.AnswerLines.{HasWholeWord};
ghost use Rattle.tm_run.specs.Report.{answer_lines, generated_line, reference_lines, report_for, report_of, status_of, status_when, summary_of};

use crate::kinds::{is_no, is_refusal, is_yes};
use crate::status::Status;
use crate::words::options::Options;
use std::alloc::Global;
use tm_base::{Answer, Memory, RefId, Text, World};
use tm_report::{line, ref_line, summary};

/// Adds the line of each reference type of a world.
fn add_reference_lines(alloc: Global, text: &mut Text, world: &World) -> Result<(), Memory>
    ensures { OnOk result
        (text.new ≡ text.old ++ reference_lines (tables_of world.now) 0 world.now.refs) }
{
    for (number, _) in world.refs.as_slice().iter().enumerate() {
        let line = ref_line(alloc, world, RefId(number as u32))?;
        text.push_str(line.as_str())?;
    }
    Ok(())
}

/// Adds the line of each answer. Questions are numbered from 1.
fn add_answer_lines(
    alloc: Global,
    text: &mut Text,
    world: &World,
    answers: &[Answer],
) -> Result<(), Memory>
    requires whole { All (HasWholeWord (pointer_size world.now.profile)) answers.now }
    requires few { length answers.now ≤ 256 }
    ensures { OnOk result
        (text.new ≡ text.old ++ answer_lines (tables_of world.now) 1 answers.now) }
{
    for (place, answer) in answers.iter().enumerate() {
        let line = line(alloc, place as u32 + 1, world, answer)?;
        text.push_str(line.as_str())?;
    }
    Ok(())
}

fn count_yes(answers: &[Answer]) -> usize
    ensures { result ≡ count_by is_yes answers.now }
{
    answers.iter().filter(|answer| is_yes(answer)).count()
}

fn count_no(answers: &[Answer]) -> usize
    ensures { result ≡ count_by is_no answers.now }
{
    answers.iter().filter(|answer| is_no(answer)).count()
}

fn count_refused(answers: &[Answer]) -> usize
    ensures { result ≡ count_by is_refusal answers.now }
{
    answers.iter().filter(|answer| is_refusal(answer)).count()
}

/// The line of how many answers are yes, no and refusals.
fn summary_line(alloc: Global, answers: &[Answer]) -> Result<Text, Memory>
    requires few { length answers.now ≤ 256 }
    ensures { IfOk result (λ line. line ≡ summary_of answers.now) }
{
    let yes = count_yes(answers) as u32;
    let no = count_no(answers) as u32;
    let refused = count_refused(answers) as u32;
    summary(alloc, yes, no, refused)
}

/// The whole report on the answers to a world's questions.
fn whole(alloc: Global, world: &World, answers: &[Answer]) -> Result<Text, Memory>
    requires whole { All (HasWholeWord (pointer_size world.now.profile)) answers.now }
    requires few { length answers.now ≤ 256 }
    ensures { IfOk result (λ text. text ≡ report_of (tables_of world.now) answers.now) }
{
    let mut text = Text::new(alloc);
    add_reference_lines(alloc, &mut text, world)?;
    add_answer_lines(alloc, &mut text, world, answers)?;
    text.push_str(summary_line(alloc, answers)?.as_str())?;
    Ok(text)
}

/// The line that says which file was generated, how many bytes it has and how many questions.
fn generated_line(
    alloc: Global,
    number: u64,
    bytes: usize,
    questions: usize,
) -> Result<Text, Memory>
    ensures { IfOk result (λ line. line ≡ generated_line number bytes questions) }
{
    let line = format!(in alloc; "generated {number}: {bytes} bytes, {questions} questions\n")?;
    Ok(Text::from(line))
}

/// The report on the file that a number determines: which it is, and the summary.
fn of_generated(
    alloc: Global,
    number: u64,
    file: &[u8],
    world: &World,
    answers: &[Answer],
) -> Result<Text, Memory>
    requires few { length answers.now ≤ 256 }
    ensures { IfOk result (λ text. text
        ≡ generated_line number (length file.now) (length world.now.questions)
        ++ summary_of answers.now) }
{
    let questions = world.questions.len();
    let mut text = generated_line(alloc, number, file.len(), questions)?;
    text.push_str(summary_line(alloc, answers)?.as_str())?;
    Ok(text)
}

/// The report on the answers to the questions of a file's world, in the form that the options ask for.
pub fn report(
    alloc: Global,
    options: &Options,
    file: &[u8],
    world: &World,
    answers: &[Answer],
) -> Result<Text, Memory>
    requires whole { All (HasWholeWord (pointer_size world.now.profile)) answers.now }
    requires few { length answers.now ≤ 256 }
    ensures { IfOk result (λ text. text ≡ report_for options.now file.now world.now answers.now) }
{
    match (options.generate, options.summary) {
        (Some(number), _) => of_generated(alloc, number, file, world, answers),
        (None, true) => summary_line(alloc, answers),
        (None, false) => whole(alloc, world, answers),
    }
}

fn all_yes(answers: &[Answer]) -> bool
    ensures { result ≡ list_all is_yes answers.now }
{
    answers.iter().all(|answer| is_yes(answer))
}

/// The status of a run, by whether all of what was written is as wished.
pub fn status_when(all: bool) -> Status
    ensures { result ≡ status_when all }
{
    if all { Status::AllYes } else { Status::Mixed }
}

/// The status of a run whose answers were written.
pub fn status(answers: &[Answer]) -> Status
    ensures { result ≡ status_of answers.now }
{
    status_when(all_yes(answers))
}
