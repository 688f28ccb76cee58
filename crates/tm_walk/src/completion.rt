//! What becomes of the cells that a walk leads to.
ghost use Rattle.std.specs.Prelude.{◌≡◌, ◌<◌, ◌^◌, IfOk, length};
ghost use Rattle.tm_walk.specs.Words.{IsFront, IsLeastWord, live_length};

use crate::live::is_live;
use crate::reading::Reading;
use std::alloc::Global;
use tm_auto::{Auto, Symbol};
use tm_base::{Cell, Memory, RefTest, Word};

/// The least source word of which as many bytes, fitted, hold these cells.
pub fn least_word(alloc: Global, src: &Auto, cells: &[Cell]) -> Result<Word, Memory>
    requires { IsFront src.now cells.now }
    ensures { IfOk result (λ word. IsLeastWord src.now cells.now word) }
{
    src.law();
    let size = src.size() as usize;
    let mut reading = Reading::new(alloc, src)?;
    'given: for cell in &cells[..cells.len().min(size)] {
        reading.read(alloc, *cell)?;
    }
    'rest: while reading.word.len() < size {
        reading.read_least(alloc)?;
    }
    let Reading {
        src: _,
        word,
        set: _,
    } = reading;
    Ok(word)
}

/// How many of the cells, from the first on, lead from the target's start to some state.
pub fn live_length<M: RefTest>(
    alloc: Global,
    refs: &M,
    dst: &Auto,
    cells: &[Cell],
) -> Result<u32, Memory>
    requires { length cells.now < 2 ^ 32 }
    ensures { IfOk result (λ count. count
        ≡ live_length (M.test refs.now) dst.now dst.now.starts cells.now) }
{
    let mut set = dst.start(alloc)?;
    let mut count = 0;
    for cell in cells {
        set = dst.step(alloc, refs, &set, Symbol::of(*cell))?;
        if !is_live(&set) {
            return Ok(count);
        }
        count += 1;
    }
    Ok(count)
}
