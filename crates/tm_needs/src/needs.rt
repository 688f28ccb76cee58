ghost use Rattle.std.specs.Prelude.{◌≡◌, IfOk};
ghost use Rattle.tm_base.specs.Worlds.{IsTypeOver};
ghost use Rattle.tm_needs.specs.Least.{AreLeast, IsNew, LeastAreUnique};

use crate::sets::{includes_some, set_of};
use std::alloc::Global;
use tm_base::{Ask, AskYes, Assume, Ground, List, Memory};

/// Whether the answer is yes, and no set among some is included in what the question assumes. Where one is,
/// the question isn't asked.
fn is_new<J: AskYes>(
    alloc: Global,
    judge: &mut J,
    ask: &Ask,
    sets: &[Assume],
) -> Result<bool, Memory>
    requires source { IsTypeOver (J.told judge.old) ask.now.src }
    requires target { IsTypeOver (J.told judge.old) ask.now.dst }
    ensures new { IfOk result (IsNew (J.told judge.old) ask.now sets.now) }
    ensures world { J.told judge.new ≡ J.told judge.old }
{
    if includes_some(ask.assume, sets) {
        return Ok(false);
    }
    judge.yes(alloc, ask)
}

/// The least sets of assumptions under which a value of `src` may be taken as one of `dst`: those under
/// which the answer is yes, and under no proper subset of which it is. They stand by their numbers:
/// `alignment` counts 1, `lifetimes` 2, `safety` 4 and `validity` 8. No set is asked that has all the
/// assumptions of one found before.
///
/// `Memory`: there wasn't enough memory.
pub fn least<J: AskYes>(
    alloc: Global,
    judge: &mut J,
    src: &Ground,
    dst: &Ground,
) -> Result<List<Assume>, Memory>
    requires source { IsTypeOver (J.told judge.old) src.now }
    requires target { IsTypeOver (J.told judge.old) dst.now }
    ensures least { IfOk result (AreLeast (J.told judge.old) src.now dst.now) }
    ensures world { J.told judge.new ≡ J.told judge.old }
{
    let mut ask = Ask {
        src: src.copy(alloc)?,
        dst: dst.copy(alloc)?,
        assume: Assume::NOTHING,
    };
    let mut sets: List<Assume> = List::new(alloc);
    for number in 0..16 {
        ask.assume = set_of(number);
        if is_new(alloc, judge, &ask, sets.as_slice())? {
            sets.add(ask.assume)?;
        }
    }
    Ok(sets)
}

/// Between two types there is one list of least sets.
pub fn least_sets_are_the_only_ones()
    ensures { LeastAreUnique }
{}
