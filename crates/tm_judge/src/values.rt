//! The answer to a question between judged types.
ghost use Rattle.std.specs.Prelude.{◌≡◌, ◌+◌, ◌≤◌, IfOk, true, false};
ghost use Rattle.tm_auto.specs.Automata.{HasOneStateALayer};
ghost use Rattle.tm_base.specs.Answers.{AreJudged, IsAnswer};
ghost use Rattle.tm_base.specs.Layout.{size_of};
ghost use Rattle.tm_base.specs.Parts.{HasNoAlternatives};
ghost use Rattle.tm_base.specs.Reaches.{IsJudged};
ghost use Rattle.tm_base.specs.Rules.{HasTargetWord, IsWholeRule, source, target};
ghost use Rattle.tm_base.specs.Worlds.{IsTypeOver, tables_of};
ghost use Rattle.tm_judge.specs.Ready.{AnswersEach, HasStart, IsReady};
ghost use Rattle.tm_layout.specs.Made.{IsMadeFor};
ghost use Rattle.tm_refs.specs.Serves.{ServesFor};

use crate::automaton::has_start;
use crate::walks::least_example;
use std::alloc::Global;
use std::sync::ledger::Ledger;
use tm_auto::Auto;
use tm_base::{Answer, Ask, Memory, Rule, Steps, World};
use tm_layout::Layouts;
use tm_refs::{Compat, automaton_of};
use tm_walk::first_refusal;
use tm_witness::rule_at;

/// The answer to a question between judged types of the world. The table is one that serves for what the question
/// assumes and its target: any of the world's references, or the empty one where the target holds no reference.
///
/// `steps` counts how often a walk asks two sets of states what may come next, which costs the most: where no
/// type has alternatives, at most once for each byte of the target and once at its end. Where one has, a yes
/// is told by inclusion, which isn't counted. `Memory`: there wasn't enough memory.
pub fn judge_values<L: Ledger>(
    alloc: Global,
    world: &World,
    layouts: &Layouts,
    compat: &Compat,
    ask: &Ask,
    steps: &mut Steps<L>,
) -> Result<Answer, Memory>
    requires made { IsMadeFor (tables_of world.now) layouts.now }
    requires serves { ServesFor (tables_of world.now) ask.now.assume ask.now.dst compat.now }
    requires source { IsTypeOver (tables_of world.now) ask.now.src }
    requires target { IsTypeOver (tables_of world.now) ask.now.dst }
    requires judged { AreJudged (tables_of world.now) ask.now }
    ensures answer { IfOk result (IsAnswer (tables_of world.now) ask.now) }
    ensures cost { HasNoAlternatives (source (tables_of world.now) ask.now)
        → HasNoAlternatives (target (tables_of world.now) ask.now)
        → steps.new ≤ steps.old + (size_of (target (tables_of world.now) ask.now) + 1) }
{
    let src = automaton_of(alloc, world, layouts, &ask.src, true)?;
    let dst = automaton_of(alloc, world, layouts, &ask.dst, ask.assume.safety)?;
    let automata = Automata {
        src: &src,
        dst: &dst,
    };
    answer(alloc, world, layouts, compat, ask, &automata, steps)
}

/// The automata of a question's types.
#[derive(Clone, Copy)]
struct Automata<'a> {
    /// Of the values that the source has.
    src: &'a Auto,
    /// Of those that may be made of the target.
    dst: &'a Auto,
}

/// The answer to a question from the automata of its types.
fn answer<L: Ledger>(
    alloc: Global,
    world: &World,
    layouts: &Layouts,
    compat: &Compat,
    ask: &Ask,
    automata: &Automata,
    steps: &mut Steps<L>,
) -> Result<Answer, Memory>
    requires made { IsMadeFor (tables_of world.now) layouts.now }
    requires ready { IsReady world.now ask.now compat.now
        automata.now.src.now automata.now.dst.now }
    ensures answer { IfOk result (IsAnswer (tables_of world.now) ask.now) }
    ensures cost { HasOneStateALayer automata.now.src.now → HasOneStateALayer automata.now.dst.now
        → steps.new ≤ steps.old + (automata.now.dst.now.size + 1) }
{
    let (src, dst) = (automata.src, automata.dst);
    src.law();
    dst.law();
    if !has_start(alloc, src)? {
        return Ok(Answer::Yes);
    }
    if !has_start(alloc, dst)? {
        let rule = rule_without_values(alloc, world, layouts, ask)?;
        return Ok(Answer::No(rule));
    }
    if ask.assume.validity {
        some_value(alloc, compat, src, dst, steps)
    } else {
        each_value(alloc, compat, src, dst, steps)
    }
}

/// The rule of a no for a target of which no value may be made: it has none, or private types have them.
fn rule_without_values(
    alloc: Global,
    world: &World,
    layouts: &Layouts,
    ask: &Ask,
) -> Result<Rule, Memory>
    requires made { IsMadeFor (tables_of world.now) layouts.now }
    requires target { IsTypeOver (tables_of world.now) ask.now.dst }
    requires judged { IsJudged (tables_of world.now) ask.now.dst }
    ensures { ¬ HasTargetWord (tables_of world.now) ask.now ask.now.assume.safety
        → IfOk result (IsWholeRule (tables_of world.now) ask.now) }
{
    let kept = automaton_of(alloc, world, layouts, &ask.dst, true)?;
    kept.law();
    if has_start(alloc, &kept)? {
        Ok(Rule::TargetPrivate)
    } else {
        Ok(Rule::TargetUninhabited)
    }
}

/// The answer where validity isn't assumed: whether each value of the source, fitted, is one of the target.
fn each_value<L: Ledger>(
    alloc: Global,
    compat: &Compat,
    src: &Auto,
    dst: &Auto,
    steps: &mut Steps<L>,
) -> Result<Answer, Memory>
    requires source { HasStart src.now }
    requires target { HasStart dst.now }
    ensures answer { IfOk result (AnswersEach compat.now src.now dst.now false) }
    ensures cost { HasOneStateALayer src.now → HasOneStateALayer dst.now
        → steps.new ≤ steps.old + (dst.now.size + 1) }
{
    dst.law();
    match first_refusal(alloc, src, dst, compat, steps)? {
        None => Ok(Answer::Yes),
        Some(found) => {
            let (rule, fault) = rule_at(alloc, dst, compat, src.size(), &found.word, found.offset)?;
            Ok(Answer::NoAt(rule, found.offset, found.word, fault))
        }
    }
}

/// The answer where validity is assumed: whether some value of the source, fitted, is one of the target.
fn some_value<L: Ledger>(
    alloc: Global,
    compat: &Compat,
    src: &Auto,
    dst: &Auto,
    steps: &mut Steps<L>,
) -> Result<Answer, Memory>
    requires source { HasStart src.now }
    requires target { HasStart dst.now }
    ensures answer { IfOk result (AnswersEach compat.now src.now dst.now true) }
    ensures cost { HasOneStateALayer src.now → HasOneStateALayer dst.now
        → steps.new ≤ steps.old + (dst.now.size + 1) }
{
    src.law();
    dst.law();
    match least_example(alloc, src, dst, compat, steps)? {
        Some(found) => Ok(Answer::YesBecause(found.word)),
        None => Ok(Answer::No(Rule::NoCommonValue)),
    }
}
