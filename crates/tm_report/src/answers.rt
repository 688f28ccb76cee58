ghost use Rattle.std.specs.Prelude.{◌≡◌, ◌<◌, IfOk, length, string_bytes};
ghost use Rattle.tm_base.specs.Profiles.{pointer_size};
ghost use Rattle.tm_base.specs.Worlds.{tables_of};
ghost use Rattle.tm_report.specs.AnswerLines.{HasWholeWord, answer_line, answer_text, depth_text, pair_if_some, pair_text, reference_line, summary_line};

use crate::cells::spaced_word;
use crate::words::{cause_word, rule_word, side_word};
use std::alloc::{AllocError, Global};
use tm_base::{Answer, Ground, Memory, RefFault, RefId, Text, World, text_of};

/// The line that says which reference type a number stands for, with the byte 0A at its end.
///
/// `Memory`: there wasn't enough memory for the line.
pub fn ref_line(alloc: Global, world: &World, id: RefId) -> Result<Text, Memory>
    requires known { id.0 < length world.now.refs }
    ensures { IfOk result (λ line. line ≡ reference_line (tables_of world.now) id) }
{
    let text = text_of(alloc, world, &Ground::Ref(id))?;
    let line = format!(in alloc; "&{} = {}\n", id.0, text.as_str())?;
    Ok(Text::from(line))
}

/// The line of the answer to the question with a number, with the byte 0A at its end. Questions are
/// counted from 1.
///
/// `Memory`: there wasn't enough memory for the line.
pub fn line(alloc: Global, number: u32, world: &World, answer: &Answer) -> Result<Text, Memory>
    requires whole { HasWholeWord (pointer_size world.now.profile) answer.now }
    ensures { IfOk result (λ line. line ≡ answer_line number (tables_of world.now) answer.now) }
{
    let answer = said(alloc, world, answer)?;
    let line = format!(in alloc; "{number}: {answer}\n")?;
    Ok(Text::from(line))
}

/// What the line of an answer says behind its number.
fn said(alloc: Global, world: &World, answer: &Answer) -> Result<String, Memory>
    ensures { IfOk result (λ text.
        string_bytes text ≡ answer_text (tables_of world.now) answer.now) }
{
    match answer {
        Answer::Yes => Ok(String::from_str(alloc, "yes")?),
        Answer::YesBecause(word) => {
            let word = spaced_word(alloc, word.as_slice())?;
            Ok(format!(in alloc; "yes, example{}", word.as_str())?)
        }
        Answer::No(rule) => Ok(format!(in alloc; "no, {}", rule_word(*rule))?),
        Answer::NoAt(rule, offset, word, fault) => {
            let rule = rule_word(*rule);
            let fault = pair_if_some(alloc, *fault)?;
            let word = spaced_word(alloc, word.as_slice())?;
            Ok(format!(in alloc; "no, {rule} at {offset}{fault}, bytes{}", word.as_str())?)
        }
        Answer::Refused(side, why, g) => {
            let side = side_word(*side);
            let cause = cause_word(*why);
            let text = text_of(alloc, world, g)?;
            Ok(format!(in alloc; "refused, {side}, {cause}, {}", text.as_str())?)
        }
    }
}

/// The line of how many questions were answered yes, no and refused, with the byte 0A at its end.
///
/// `Memory`: there wasn't enough memory for the line.
pub fn summary(alloc: Global, yes: u32, no: u32, refused: u32) -> Result<Text, Memory>
    ensures { IfOk result (λ line. line ≡ summary_line yes no refused) }
{
    let line = format!(in alloc; "{yes} yes, {no} no, {refused} refused\n")?;
    Ok(Text::from(line))
}

/// What is said of the references of a fault; nothing where there is none.
fn pair_if_some(alloc: Global, fault: Option<RefFault>) -> Result<String, Memory>
    ensures { IfOk result (λ text. string_bytes text ≡ pair_if_some fault) }
{
    match fault {
        None => Ok(String::new(alloc)),
        Some(fault) => pair(alloc, fault.source, fault.target, fault.depth),
    }
}

/// What is said of a source reference that a target reference doesn't take, behind a space.
fn pair(alloc: Global, source: RefId, target: RefId, depth: u32) -> Result<String, Memory>
    ensures { IfOk result (λ text. string_bytes text ≡ pair_text source target depth) }
{
    let depth = depth_part(alloc, depth)?;
    Ok(format!(in alloc; " (&{} to &{}{depth})", source.0, target.0)?)
}

/// What is said of a depth; nothing where it is 0.
fn depth_part(alloc: Global, depth: u32) -> Result<String, AllocError>
    ensures { IfOk result (λ text. string_bytes text ≡ depth_text depth) }
{
    if depth == 0 {
        return Ok(String::new(alloc));
    }
    format!(in alloc; ", depth {depth}")
}
