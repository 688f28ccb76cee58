ghost use Rattle.std.specs.Prelude.{◌≡◌, ◌≢◌, ◌+◌, ◌^◌, ◌<◌, ◌≤◌, IfOk, vec_len};
ghost use Rattle.tm_io.specs.Faults.{Rose};
ghost use Rattle.tm_io.specs.Told.{TakesAll, TakesPast, TakesAtMost};

use crate::failed::Failed;
use crate::source::Source;
use std::alloc::Global;
use thiserror::Error;

/// Why a source wasn't read to its end.
///
/// `Fault`: the source failed. `TooLong`: more than `limit` bytes came. `Memory`: there wasn't enough
/// memory.
#[derive(Clone, Copy, PartialEq, Eq, Debug, Error)]
pub enum ReadErr {
    #[error("the input can't be read")]
    Fault,
    #[error("the input is too long")]
    TooLong,
    #[error("not enough memory")]
    Memory,
}

/// How many bytes are asked for at once.
const PIECE: usize = 4096;

/// All bytes of the source up to the end of its input, at most `limit`.
///
/// `Fault` comes exactly where the source failed, and `TooLong` where more than `limit` bytes came. At
/// most `limit + 1` bytes are taken.
pub fn read_all<S: Source>(alloc: Global, src: &mut S, limit: u32) -> Result<Vec<u8>, ReadErr>
    requires { limit < 2 ^ 31 }
    ensures all { IfOk result (λ bytes. TakesAll (S.left src.old) (S.left src.new) bytes.items) }
    ensures short { IfOk result (λ bytes. vec_len bytes ≤ limit) }
    ensures long { result ≡ Err ReadErr.TooLong
        → TakesPast (S.left src.old) (S.left src.new) limit }
    ensures taken { TakesAtMost (S.left src.old) (S.left src.new) (limit + 1) }

    // The count of faults.
    ensures fault { result ≡ Err ReadErr.Fault → Rose (S.faults src.old) (S.faults src.new) }
    ensures risen { S.faults src.old < S.faults src.new → result ≡ Err ReadErr.Fault }
    ensures kept { result ≢ Err ReadErr.Fault → S.faults src.new ≡ S.faults src.old }
    ensures later { S.faults src.old ≤ S.faults src.new }
    ensures bounded { S.faults src.old < 2 ^ 64 → S.faults src.new < 2 ^ 64 }
{
    // One byte past the limit shows that the input is too long.
    let most = limit as usize + 1;
    let mut bytes = Vec::new(alloc);
    let mut piece = [0; PIECE];
    while bytes.len() < most {
        let asked = PIECE.min(most - bytes.len());
        match src.read(&mut piece[..asked]) {
            Ok(0) => return Ok(bytes),
            Ok(count) => {
                if bytes.extend_from_slice(&piece[..count]).is_err() {
                    return Err(ReadErr::Memory);
                }
            }
            Err(Failed) => return Err(ReadErr::Fault),
        }
    }
    Err(ReadErr::TooLong)
}
