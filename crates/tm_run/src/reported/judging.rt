ghost use Rattle.std.specs.Prelude.{◌≡◌, IfOk};
ghost use Rattle.tm_base.specs.Worlds.{tables_of};
ghost use Rattle.tm_run.specs.Answers.{AreAnswered};

use crate::court::Court;
use std::alloc::Global;
use std::sync::ledger::Ledger;
use tm_base::{Answer, Memory, World};

/// The answers to a world's questions, in order.
pub fn answers<L: Ledger>(
    alloc: Global,
    world: &World,
    court: &mut Court<L>,
) -> Result<Vec<Answer>, Memory>
    requires { court.old ≡ tables_of world.now }
    ensures { IfOk result (λ answers. AreAnswered world.now world.now.questions answers.items) }
{
    let mut answers = Vec::new(alloc);
    for ask in world.questions.as_slice() {
        let answer = court.answer(alloc, ask)?;
        answers.push(answer)?;
    }
    Ok(answers)
}
