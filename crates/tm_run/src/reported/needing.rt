ghost use Rattle.std.specs.Prelude.{◌≡◌, IfOk};
ghost use Rattle.std.specs.List.{AllZip, list_all};
ghost use Rattle.tm_base.specs.Worlds.{IsTypeOver, tables_of};
ghost use Rattle.tm_run.specs.Needs.{IsNeed, is_met};

use crate::court::Court;
use crate::kinds::is_refusal;
use crate::reported::need::Need;
use std::alloc::Global;
use std::sync::ledger::Ledger;
use tm_base::{Ask, Memory, World};
use tm_needs::least;

/// What a question needs, whatever it assumes itself.
fn need<L: Ledger>(alloc: Global, court: &mut Court<L>, ask: &Ask) -> Result<Need, Memory>
    requires source { IsTypeOver court.old ask.now.src }
    requires target { IsTypeOver court.old ask.now.dst }
    ensures need { IfOk result (IsNeed court.old ask.now) }
    ensures court { court.new ≡ court.old }
{
    let sets = least(alloc, court, &ask.src, &ask.dst)?;
    if sets.len() > 0 {
        return Ok(Need::Least(sets));
    }
    let answer = court.answer(alloc, ask)?;
    if is_refusal(&answer) {
        return Ok(Need::Refused(answer));
    }
    Ok(Need::Least(sets))
}

/// What each question of a world needs, in order.
pub fn needs<L: Ledger>(
    alloc: Global,
    world: &World,
    court: &mut Court<L>,
) -> Result<Vec<Need>, Memory>
    requires { court.old ≡ tables_of world.now }
    ensures { IfOk result
        (λ needs. AllZip (IsNeed (tables_of world.now)) world.now.questions needs.items) }
{
    let mut needs = Vec::new(alloc);
    for ask in world.questions.as_slice() {
        needs.push(need(alloc, court, ask)?)?;
    }
    Ok(needs)
}

fn is_met(need: &Need) -> bool
    ensures { result ≡ is_met need.now }
{
    match need {
        Need::Least(sets) => sets.len() > 0,
        Need::Refused(_) => false,
    }
}

/// Whether there are assumptions for each question under which its answer is yes.
pub fn all_met(needs: &[Need]) -> bool
    ensures { result ≡ list_all is_met needs.now }
{
    needs.iter().all(|need| is_met(need))
}
