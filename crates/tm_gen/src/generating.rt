ghost use Rattle.std.specs.Prelude.{◌≡◌, IfOk, string_bytes};
ghost use Rattle.tm_gen.specs.Generated.{generated_file};

use crate::definitions::definitions;
use crate::draws::Draws;
use crate::questions::questions;
use std::alloc::{AllocError, Global};
use tm_base::Memory;

/// The question file of a number: 24 definitions and 64 questions.
///
/// `Memory`: there wasn't enough memory.
pub fn generate(alloc: Global, number: u64) -> Result<Vec<u8>, Memory>
    ensures { IfOk result (λ bytes. bytes.items ≡ generated_file number) }
{
    Ok(file(alloc, number)?.into_bytes())
}

/// The file as a text.
fn file(alloc: Global, number: u64) -> Result<String, AllocError>
    ensures { IfOk result (λ text. string_bytes text ≡ generated_file number) }
{
    let mut draws = Draws::new(number);
    let mut text = definitions(alloc, &mut draws)?;
    text.push_str(questions(alloc, &mut draws)?.as_str())?;
    Ok(text)
}
