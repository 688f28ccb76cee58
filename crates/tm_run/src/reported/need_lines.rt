ghost use Rattle.std.specs.Prelude.{◌≡◌, ◌≤◌, All, IfOk, OnOk, length};
ghost use Rattle.tm_base.specs.Worlds.{tables_of};
ghost use Rattle.tm_run.specs.Needs.{HasRefusal, least_line, need_line, need_lines, need_text, set_text};
ghost use Rattle.tm_run.specs.NeedTexts.{or_nothing, with_flag};

use crate::reported::need::Need;
use std::alloc::Global;
use tm_base::{Assume, Memory, Text, World};
use tm_report::line;

/// Adds a flag's word where the flag is set, behind a comma where another word stands before it.
fn add_flag(text: &mut Text, is_set: bool, word: &str) -> Result<(), Memory>
    ensures { OnOk result (text.new ≡ with_flag text.old is_set word.now) }
{
    if !is_set {
        return Ok(());
    }
    if !text.as_str().is_empty() {
        text.push_str(", ")?;
    }
    text.push_str(word)
}

/// Adds the word for no flags to an empty text.
fn say_nothing(text: &mut Text) -> Result<(), Memory>
    ensures { OnOk result (text.new ≡ or_nothing text.old) }
{
    if !text.as_str().is_empty() {
        return Ok(());
    }
    text.push_str("nothing")
}

/// The flags of a set, as `safety, validity`.
fn set_text(alloc: Global, set: Assume) -> Result<Text, Memory>
    ensures { IfOk result (λ text. text ≡ set_text set) }
{
    let mut text = Text::new(alloc);
    add_flag(&mut text, set.alignment, "alignment")?;
    add_flag(&mut text, set.lifetimes, "lifetimes")?;
    add_flag(&mut text, set.safety, "safety")?;
    add_flag(&mut text, set.validity, "validity")?;
    say_nothing(&mut text)?;
    Ok(text)
}

/// The least sets of a question, as `needs safety or validity`; `never` where there are none.
fn need_text(alloc: Global, sets: &[Assume]) -> Result<Text, Memory>
    ensures { IfOk result (λ text. text ≡ need_text sets.now) }
{
    let mut text = Text::new(alloc);
    let Some((first, others)) = sets.split_first() else {
        text.push_str("never")?;
        return Ok(text);
    };
    text.push_str("needs ")?;
    text.push_str(set_text(alloc, *first)?.as_str())?;
    for set in others {
        text.push_str(" or ")?;
        text.push_str(set_text(alloc, *set)?.as_str())?;
    }
    Ok(text)
}

/// The line of a question with these least sets.
fn least_line(alloc: Global, number: u32, sets: &[Assume]) -> Result<Text, Memory>
    ensures { IfOk result (λ line. line ≡ least_line number sets.now) }
{
    let text = need_text(alloc, sets)?;
    let line = format!(in alloc; "{number}: {}\n", text.as_str())?;
    Ok(Text::from(line))
}

/// The line of a question with a number, counted from 1.
fn need_line(alloc: Global, world: &World, number: u32, need: &Need) -> Result<Text, Memory>
    requires { HasRefusal need.now }
    ensures { IfOk result (λ line. line ≡ need_line (tables_of world.now) number need.now) }
{
    match need {
        Need::Least(sets) => least_line(alloc, number, sets.as_slice()),
        Need::Refused(answer) => line(alloc, number, world, answer),
    }
}

/// The line of each question, numbered from 1.
pub fn need_lines(alloc: Global, world: &World, needs: &[Need]) -> Result<Text, Memory>
    requires refusals { All HasRefusal needs.now }
    requires few { length needs.now ≤ 256 }
    ensures { IfOk result (λ text. text ≡ need_lines (tables_of world.now) 1 needs.now) }
{
    let mut text = Text::new(alloc);
    for (place, need) in needs.iter().enumerate() {
        let line = need_line(alloc, world, place as u32 + 1, need)?;
        text.push_str(line.as_str())?;
    }
    Ok(text)
}
