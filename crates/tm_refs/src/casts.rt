//! Casts of the values of one automaton as those of another.
ghost use Rattle.std.specs.Prelude.{◌≡◌, ◌↔◌, ◌<◌, IfNone, IfOk, IfSome, IsTrue};
ghost use Rattle.tm_refs.specs.Pointees.{AutoCasts, HasNoWord, SomeWordFits};
ghost use Rattle.tm_walk.specs.Sought.{IsFound, NoneIsSought};

use std::alloc::Global;
use std::marker::Brand;
use std::sync::ledger::{Blank, Ledger};
use tm_auto::Auto;
use tm_base::{Memory, RefTest, Steps};
use tm_walk::{Exists, Found, Quantifier, exists_seeks_examples, is_included, walk};

/// Whether a value of the source may be taken as one of the target, where the test says which
/// references in it may: the source has no value; or each fits, or, where validity is assumed, some
/// does.
pub fn casts<M: RefTest>(
    alloc: Global,
    source: &Auto,
    target: &Auto,
    refs: &M,
    validity: bool,
) -> Result<bool, Memory>
    ensures { IfOk result (λ casts. IsTrue casts
        ↔ AutoCasts (M.test refs.now) validity source.now target.now) }
{
    if !validity {
        return is_included(alloc, source, target, refs);
    }
    if has_no_word(alloc, source)? {
        return Ok(true);
    }
    some_word_fits(alloc, source, target, refs)
}

/// Whether an automaton has no word.
fn has_no_word(alloc: Global, source: &Auto) -> Result<bool, Memory>
    ensures { IfOk result (λ none. IsTrue none ↔ HasNoWord source.now) }
{
    source.law();
    let starts = source.start(alloc)?;
    Ok(starts.as_slice().is_empty())
}

/// Whether some word of the source, fitted, is one of the target.
fn some_word_fits<M: RefTest>(
    alloc: Global,
    source: &Auto,
    target: &Auto,
    refs: &M,
) -> Result<bool, Memory>
    ensures { IfOk result (λ some. IsTrue some
        ↔ SomeWordFits (M.test refs.now) source.now target.now) }
{
    exists_seeks_examples(source, target);
    let accepted = find::<Exists, M, Brand>(alloc, &Exists, source, target, refs, Blank::new(1))?;
    Ok(accepted.is_some())
}

/// What a walk finds; its steps are counted by a counter of their own.
fn find<Q: Quantifier, M: RefTest, L: Ledger>(
    alloc: Global,
    q: &Q,
    source: &Auto,
    target: &Auto,
    refs: &M,
    blank: Blank,
) -> Result<Option<Found>, Memory>
    requires name { blank.name ≡ L.name }
    requires parts { blank.parts ≡ L.parts }
    requires some { 0 < L.parts }
    ensures found { IfOk result (λ answer. IfSome answer (λ found. IsFound
        (M.test refs.now) source.now target.now (Q.stop q.now) (Q.skip q.now)
        found.word found.offset)) }
    ensures none { IfOk result (λ answer. IfNone answer (NoneIsSought
        (M.test refs.now) source.now target.now (Q.stop q.now) (Q.skip q.now))) }
{
    let mut steps = Steps::<L>::new(blank);
    walk(alloc, q, source, target, refs, &mut steps)
}
