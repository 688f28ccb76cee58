ghost use Rattle.std.specs.Prelude.{◌≡◌, ℕ, ◌-◌, ◌<◌, ◌≤◌, ◌↔◌, [], Some, IsErr, IfOk, OnErr, length, min};
ghost use Rattle.std.specs.Io.{WritesAtMost};
ghost use Rattle.std.specs.Io.KnownBytes.{WriteAppends};
ghost use Rattle.tm_io.specs.Faults.{HasCause, Rose, raised};

use crate::failed::Failed;
use crate::sink::Sink;
use std::alloc::Global;
use std::marker::Model;
use tm_base::Memory;

/// A sink in memory with a fixed room. It tells what was written. Contracts see it as what was
/// written, the room, and the count of faults.
#[derive(Drop)]
pub struct MemSink {
    bytes: Vec<u8>,
    room: usize,
    faults: u64,
}

impl Model for MemSink {
    ghost use Rattle.std.specs.Prelude.{◌≤◌, vec_len, vec_capacity};
    ghost use Rattle.tm_io.specs.MemSink.{Contents};

    ghost Value = { Contents };

    ghost view = { λ sink.
        record { written = sink.bytes.items; room = sink.room; faults = sink.faults } };

    ghost invariant = { λ sink. (vec_len sink.bytes ≤ sink.room)
        × (sink.room ≤ vec_capacity sink.bytes) };
}

impl MemSink {
    /// An empty sink that takes at most `room` bytes in all. The memory for them is taken now.
    pub fn with_room(alloc: Global, room: u32) -> Result<MemSink, Memory>
        ensures { IfOk result (λ sink. sink ≡ record { written = []; room = room; faults = 0 }) }
    {
        let room = room as usize;
        match Vec::with_capacity(alloc, room) {
            Ok(bytes) => Ok(MemSink {
                bytes,
                room,
                faults: 0,
            }),
            Err(_) => Err(Memory),
        }
    }

    /// What was written.
    pub fn written(&self) -> &[u8]
        ensures { result.now ≡ self.now.written }
    {
        self.bytes.as_slice()
    }

    /// Counts a failure, and is that failure. What was written stays.
    pub(crate) fn fail(&mut self) -> Failed
        ensures counted { self.new ≡ record {
          written = self.old.written;
          room = self.old.room;
          faults = raised self.old.faults;
        } }
        ensures later { self.old.faults ≤ self.new.faults }
        ensures rose { Rose self.old.faults self.new.faults }
    {
        self.faults = self.faults.saturating_add(1);
        Failed
    }
}

impl Sink for MemSink {
    ghost written = { λ sink. Some sink.written };

    ghost faults = { λ sink. sink.faults };

    /// Takes as many bytes as there is room for. It fails exactly where the piece isn't empty and the
    /// room is used up.
    fn write(&mut self, piece: &[u8]) -> Result<usize, Failed>
        ensures bound { WritesAtMost result piece.now }
        ensures some { 0 < length piece.now → IfOk result (λ count. 0 < count) }
        ensures bytes { WriteAppends (Some self.old.written)
            (Some self.new.written) result piece.now }
        ensures cause { HasCause self.old.faults self.new.faults result }

        // How much it takes, when it fails, and what that does to the count.
        ensures taken { IfOk result
            (λ count. count ≡ min (length piece.now) (self.old.room - length self.old.written)) }
        ensures full { IsErr result
            ↔ ((0 < length piece.now) × (length self.old.written ≡ self.old.room)) }
        ensures counted { OnErr result (self.new.faults ≡ raised self.old.faults) }
        ensures room { self.new.room ≡ self.old.room }
    {
        let count = piece.len().min(self.room - self.bytes.len());
        if count == 0 && !piece.is_empty() {
            return Err(self.fail());
        }
        self.bytes.extend_from_slice(&piece[..count]).unwrap();
        Ok(count)
    }
}
