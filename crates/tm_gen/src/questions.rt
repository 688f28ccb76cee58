ghost use Rattle.std.specs.Prelude.{◌≡◌, ◌<◌, IfOk, OnOk, string_bytes};
ghost use Rattle.tm_gen.specs.Generated.{assumed, question_text, questions_text};

use crate::definitions::DEFINITIONS;
use crate::draws::Draws;
use std::alloc::{AllocError, Global};

/// How many questions a file has.
const QUESTIONS: u64 = 64;

/// All questions of a file.
pub fn questions(alloc: Global, draws: &mut Draws) -> Result<String, AllocError>
    ensures { IfOk result (λ text. string_bytes text ≡ (questions_text draws.old).text) }
{
    let mut text = String::new(alloc);
    for _ in 0..QUESTIONS {
        text.push_str(question(alloc, draws)?.as_str())?;
    }
    Ok(text)
}

/// The next question.
fn question(alloc: Global, draws: &mut Draws) -> Result<String, AllocError>
    ensures text { IfOk result (λ text. string_bytes text ≡ (question_text draws.old).text) }
    ensures state { OnOk result (draws.new ≡ (question_text draws.old).state) }
{
    let source = draws.draw(DEFINITIONS);
    let target = draws.draw(DEFINITIONS);
    let assumed = assumed(draws.draw(4));
    format!(in alloc; "ask T{source} => T{target}{assumed};\n")
}

/// What a question assumes, by its number.
fn assumed(number: u64) -> &'static str
    ensures { result.now ≡ assumed number }
{
    match number {
        0 => "",
        1 => " assume validity",
        2 => " assume safety",
        _ => " assume alignment, validity",
    }
}
