ghost use Rattle.std.specs.Prelude.{◌≡◌, ◌≤◌, IfOk, length};
ghost use Rattle.tm_base.specs.Worlds.{tables_of};
ghost use Rattle.tm_run.specs.Matches.{fits_line, match_line, match_lines};

use crate::matched::Match;
use std::alloc::Global;
use tm_base::{Answer, Memory, Side, Text, World};
use tm_report::line;
use tm_validate::Fits;

/// The line of a question to whose target bytes are this.
fn fits_line(alloc: Global, number: u32, fits: Fits) -> Result<Text, Memory>
    ensures { IfOk result (λ line. line ≡ fits_line number fits) }
{
    let line = match fits {
        Fits::Valid => format!(in alloc; "{number}: valid\n")?,
        Fits::NoWord => format!(in alloc; "{number}: no-word\n")?,
        Fits::RefusedAt(offset) => format!(in alloc; "{number}: invalid at {offset}\n")?,
    };
    Ok(Text::from(line))
}

/// The line of a question with a number, counted from 1.
fn match_line(alloc: Global, world: &World, number: u32, found: &Match) -> Result<Text, Memory>
    ensures { IfOk result (λ line. line ≡ match_line (tables_of world.now) number found.now) }
{
    match found {
        Match::Fits(fits) => fits_line(alloc, number, *fits),
        Match::Refused(why, g) => {
            let answer = Answer::Refused(Side::Target, *why, g.copy(alloc)?);
            line(alloc, number, world, &answer)
        }
    }
}

/// The line of each question, numbered from 1.
pub fn match_lines(alloc: Global, world: &World, matches: &[Match]) -> Result<Text, Memory>
    requires { length matches.now ≤ 256 }
    ensures { IfOk result (λ text. text ≡ match_lines (tables_of world.now) 1 matches.now) }
{
    let mut text = Text::new(alloc);
    for (place, found) in matches.iter().enumerate() {
        let line = match_line(alloc, world, place as u32 + 1, found)?;
        text.push_str(line.as_str())?;
    }
    Ok(text)
}
