ghost use Rattle.std.specs.Prelude.{◌≡◌, ◌≤◌, IfOk, length};
ghost use Rattle.tm_run.specs.Values.{bytes_read};

use std::alloc::Global;
use std::marker::Model;
use tm_base::Memory;
use tm_validate::{HexErr, read_hex};

/// Bytes that the words of a run give: at most 65,536. Contracts see them as their list.
#[derive(Debug, Drop)]
pub struct Bytes {
    bytes: Vec<u8>,
}

impl Model for Bytes {
    ghost use Rattle.std.specs.Prelude.{ℕ, ◌≤◌, List, length};
    ghost use Rattle.std.specs.Coded.{codes};

    ghost Value = { List ℕ };

    ghost view = { λ bytes. bytes.bytes.items };

    ghost invariant = { λ bytes. length bytes.bytes.items ≤ 65536 };
}

impl Bytes {
    /// The bytes that hexadecimal digits write, two each; `None` where a text isn't such digits.
    pub fn read(alloc: Global, text: &str) -> Result<Option<Bytes>, Memory>
        ensures { IfOk result (λ read. read ≡ bytes_read text.now) }
    {
        match read_hex(alloc, text) {
            Ok(bytes) => Ok(Some(Bytes { bytes })),
            Err(HexErr::Form) => Ok(None),
            Err(HexErr::Memory) => Err(Memory),
        }
    }

    /// The bytes, in order.
    pub fn as_slice(&self) -> &[u8]
        ensures same { result.now ≡ self.now }
        ensures few { length result.now ≤ 65536 }
    {
        self.bytes.as_slice()
    }
}
