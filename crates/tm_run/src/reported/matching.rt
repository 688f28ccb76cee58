ghost use Rattle.std.specs.Prelude.{◌≡◌, ◌≤◌, IfOk, length};
ghost use Rattle.std.specs.List.{AllZip, list_all};
ghost use Rattle.tm_base.specs.Worlds.{IsTypeOver, tables_of};
ghost use Rattle.tm_layout.specs.Made.{IsMadeFor};
ghost use Rattle.tm_run.specs.Matches.{IsMatch, is_valid};

use crate::matched::Match;
use std::alloc::Global;
use tm_base::{Ask, Memory, World};
use tm_layout::{Layouts, first_refused};
use tm_validate::{Fits, against};

/// What bytes are to the target of a question.
fn match_with(
    alloc: Global,
    world: &World,
    layouts: &Layouts,
    bytes: &[u8],
    ask: &Ask,
) -> Result<Match, Memory>
    requires made { IsMadeFor (tables_of world.now) layouts.now }
    requires over { IsTypeOver (tables_of world.now) ask.now.dst }
    requires few { length bytes.now ≤ 65536 }
    ensures { IfOk result (IsMatch (tables_of world.now) bytes.now ask.now) }
{
    match first_refused(alloc, world, layouts, &ask.dst)? {
        Some((why, g)) => Ok(Match::Refused(why, g)),
        None => {
            let keep_private = ask.assume.safety;
            let fits = against(alloc, world, layouts, keep_private, &ask.dst, bytes)?;
            Ok(Match::Fits(fits))
        }
    }
}

/// What bytes are to the target of each question of a world, in order.
pub fn matches(
    alloc: Global,
    world: &World,
    layouts: &Layouts,
    bytes: &[u8],
) -> Result<Vec<Match>, Memory>
    requires made { IsMadeFor (tables_of world.now) layouts.now }
    requires few { length bytes.now ≤ 65536 }
    ensures { IfOk result (λ matches. AllZip (IsMatch (tables_of world.now) bytes.now)
        world.now.questions matches.items) }
{
    let mut matches = Vec::new(alloc);
    for ask in world.questions.as_slice() {
        matches.push(match_with(alloc, world, layouts, bytes, ask)?)?;
    }
    Ok(matches)
}

fn is_valid(found: &Match) -> bool
    ensures { result ≡ is_valid found.now }
{
    matches!(found, Match::Fits(Fits::Valid))
}

/// Whether the bytes are a value of each target.
pub fn all_valid(matches: &[Match]) -> bool
    ensures { result ≡ list_all is_valid matches.now }
{
    matches.iter().all(|found| is_valid(found))
}
