//! The rule of a no at the cell where a target refuses a word.
ghost use Rattle.std.specs.Prelude.{◌≡◌, IfOk, length, Option};
ghost use Rattle.tm_base.specs.declared.ask.Ask.{Ask};
ghost use Rattle.tm_base.specs.declared.cell.RefId.{RefId};
ghost use Rattle.tm_base.specs.declared.world.World.{World};
ghost use Rattle.tm_base.specs.Rules.{rule_of};
ghost use Rattle.tm_base.specs.Worlds.{tables_of};
ghost use Rattle.tm_auto.specs.Automata.{reached};
ghost use Rattle.tm_refs.specs.Solved.{compatible_in};
ghost use Rattle.tm_witness.specs.GoingOn.{IsByteRule, IsLeastOpen, reference_answer, table_fault, table_rule};
ghost use Rattle.tm_witness.specs.Refused.{IsRefused, IsRuleAt};

use crate::reached::{goes_on_by_byte, least_open, reached_by};
use std::alloc::Global;
use tm_auto::Auto;
use tm_base::{Cell, LocalRule, Memory, RefFault, RefId, Rule, Word};
use tm_refs::Compat;

/// The rule of a no at the cell of a source word, counted from 0, with which no target word goes on, though
/// some does with all before it. For the six rules on references, and for no other, also which references they
/// are: of those that may stand there the one with the least number, and the least depth that shows it.
///
/// `dst` is the target's automaton, and `source_size` how many bytes the source has. `Memory`: there wasn't
/// enough memory. Where the word isn't refused at the cell, any rule is answered.
pub fn rule_at(
    alloc: Global,
    dst: &Auto,
    compat: &Compat,
    source_size: u32,
    word: &Word,
    offset: u32,
) -> Result<(Rule, Option<RefFault>), Memory>
    ensures rule { IfOk result (λ answer. (world : World) (ask : Ask)
        → IsRefused world ask dst.now compat.now source_size word.now offset
        → IsRuleAt (tables_of world) ask word.now offset answer.0 answer.1) }
{
    dst.law();
    if source_size <= offset {
        return Ok((Rule::TooBig, None));
    }
    let offset = offset as usize;
    let Some(cell) = word.get(offset) else {
        return Ok((Rule::NeedsInit, None));
    };
    let before = &word.as_slice()[..offset];
    match cell {
        Cell::Byte(_) => Ok((byte_rule(alloc, dst, compat, before)?, None)),
        Cell::Uninit => Ok((Rule::NeedsInit, None)),
        Cell::Ptr(source, _) => reference_rule(alloc, dst, compat, before, *source),
    }
}

/// The rule of a byte with which no word goes on behind these cells.
fn byte_rule(alloc: Global, dst: &Auto, compat: &Compat, before: &[Cell]) -> Result<Rule, Memory>
    ensures { IfOk result
        (IsByteRule dst.now (reached (compatible_in compat.now) dst.now before.now)) }
{
    let states = reached_by(alloc, dst, compat, before)?;
    if goes_on_by_byte(dst, &states) {
        Ok(Rule::ByteValue)
    } else {
        Ok(Rule::BytesForReference)
    }
}

/// The rule of a reference with which no word goes on behind these cells, and of which two references.
fn reference_rule(
    alloc: Global,
    dst: &Auto,
    compat: &Compat,
    before: &[Cell],
    source: RefId,
) -> Result<(Rule, Option<RefFault>), Memory>
    ensures { IfOk result (λ answer. (least : Option RefId)
        × IsLeastOpen dst.now (reached (compatible_in compat.now) dst.now before.now) least
        × (answer ≡ reference_answer compat.now source least)) }
{
    let states = reached_by(alloc, dst, compat, before)?;
    match least_open(dst, &states) {
        None => Ok((Rule::ReferenceForBytes, None)),
        Some(target) => Ok((
            pair_rule(compat, source, target),
            Some(pair_fault(compat, source, target)),
        )),
    }
}

/// The rule for which a source reference isn't taken as a target reference.
fn pair_rule(compat: &Compat, source: RefId, target: RefId) -> Rule
    ensures { result ≡ table_rule compat.now source target }
{
    match compat.why(source, target) {
        Some(broken) => rule_of(broken),
        None => Rule::RefPointee,
    }
}

/// The two references, and the least depth at which they don't go together.
fn pair_fault(compat: &Compat, source: RefId, target: RefId) -> RefFault
    ensures { result ≡ table_fault compat.now source target }
{
    RefFault {
        source,
        target,
        depth: compat.depth(source, target).unwrap_or(0),
    }
}

/// The rule of a no that a local rule gives.
fn rule_of(broken: LocalRule) -> Rule
    ensures { result ≡ rule_of broken }
{
    match broken {
        LocalRule::MoreUnique => Rule::RefMoreUnique,
        LocalRule::TooBig => Rule::RefTooBig,
        LocalRule::Alignment => Rule::RefAlignment,
        LocalRule::Interior => Rule::RefInterior,
        LocalRule::Lifetime => Rule::RefLifetime,
    }
}
