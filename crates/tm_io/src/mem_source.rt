ghost use Rattle.std.specs.Prelude.{◌≡◌, Some, length, min};
ghost use Rattle.std.specs.Io.{ReadsAtMost};
ghost use Rattle.std.specs.Io.KnownBytes.{ReadConsumes};
ghost use Rattle.tm_io.specs.Faults.{HasCause};

use crate::failed::Failed;
use crate::source::Source;
use std::marker::Model;

/// A source in memory. It tells its bytes and never fails. Contracts see it as the bytes that are left.
#[derive(Drop)]
pub struct MemSource {
    bytes: Vec<u8>,
    start: usize,
}

impl Model for MemSource {
    ghost use Rattle.std.specs.Prelude.{ℕ, ◌≤◌, List, drop, vec_len};

    ghost Value = { List ℕ };

    ghost view = { λ source. drop source.start source.bytes.items };

    ghost invariant = { λ source. source.start ≤ vec_len source.bytes };
}

impl MemSource {
    /// A source of these bytes.
    pub fn new(bytes: Vec<u8>) -> MemSource
        ensures { result ≡ bytes.items }
    {
        MemSource { bytes, start: 0 }
    }
}

impl Source for MemSource {
    ghost left = { λ source. Some source };

    ghost faults = { λ _. 0 };

    /// Takes as many bytes as the buffer has room for.
    fn read(&mut self, buf: &mut [u8]) -> Result<usize, Failed>
        ensures bound { ReadsAtMost result buf.new }
        ensures bytes { ReadConsumes (Some self.old) (Some self.new) result buf.new }
        ensures cause { HasCause 0 0 result }

        // How many it takes.
        ensures taken { result ≡ Ok (min (length buf.old) (length self.old)) }
    {
        let count = buf.len().min(self.bytes.len() - self.start);
        let end = self.start + count;
        buf[..count].copy_from_slice(&self.bytes[self.start..end]);
        self.start = end;
        Ok(count)
    }
}
