ghost use Rattle.std.specs.Prelude.{◌≡◌, ◌↔◌, ◌⊎◌, ◌-◌, ◌<◌, ◌≤◌, [], Some, IfOk, IsErr, OnErr, length, min};
ghost use Rattle.std.specs.Io.{WritesAtMost};
ghost use Rattle.std.specs.Io.KnownBytes.{WriteAppends};
ghost use Rattle.tm_io.specs.Calls.{IsNextFailing, first_call, after_call};
ghost use Rattle.tm_io.specs.Faults.{HasCause, raised};

use crate::calls::Calls;
use crate::failed::Failed;
use crate::mem_sink::MemSink;
use crate::sink::Sink;
use std::alloc::Global;
use std::marker::Model;
use tm_base::Memory;

/// A sink in memory with a fixed room that takes a few bytes a call, and fails at listed calls. It
/// tells what was written. Contracts see it as what was written, the room, how many bytes a call takes
/// at most, the calls, and the count of faults.
#[derive(Drop)]
pub struct FlakySink {
    inner: MemSink,
    most: usize,
    calls: Calls,
}

impl Model for FlakySink {
    ghost use Rattle.std.specs.Prelude.{◌<◌};
    ghost use Rattle.tm_io.specs.Flaky.{Written};

    ghost Value = { Written };

    ghost view = { λ sink. record {
      written = sink.inner.written;
      room = sink.inner.room;
      most = sink.most;
      calls = sink.calls;
      faults = sink.inner.faults;
    } };

    ghost invariant = { λ sink. 0 < sink.most };
}

impl FlakySink {
    /// An empty sink that takes at most `room` bytes in all, and at most `most` a call. Exactly the
    /// calls whose numbers, counted from 1, are in `fail_calls` fail, and those that find no room; a
    /// call's number stays at 2^64 - 1 once it is there. The memory for the bytes is taken now.
    pub fn with_room(
        alloc: Global,
        room: u32,
        most: usize,
        fail_calls: Vec<u64>,
    ) -> Result<FlakySink, Memory>
        requires { 1 ≤ most }
        ensures { IfOk result (λ sink. sink ≡ record {
          written = [];
          room = room;
          most = most;
          calls = first_call fail_calls.items;
          faults = 0;
        }) }
    {
        Ok(FlakySink {
            inner: MemSink::with_room(alloc, room)?,
            most,
            calls: Calls::new(fail_calls),
        })
    }

    /// What was written.
    pub fn written(&self) -> &[u8]
        ensures { result.now ≡ self.now.written }
    {
        self.inner.written()
    }
}

impl Sink for FlakySink {
    ghost written = { λ sink. Some sink.written };

    ghost faults = { λ sink. sink.faults };

    /// Takes as many bytes as there is room for, up to `most`. It fails exactly at the listed calls, and
    /// where the piece isn't empty and the room is used up.
    fn write(&mut self, piece: &[u8]) -> Result<usize, Failed>
        ensures bound { WritesAtMost result piece.now }
        ensures some { 0 < length piece.now → IfOk result (λ count. 0 < count) }
        ensures bytes { WriteAppends (Some self.old.written)
            (Some self.new.written) result piece.now }
        ensures cause { HasCause self.old.faults self.new.faults result }

        // How much it takes, when it fails, and what that does to the counts.
        ensures taken { IfOk result (λ count.
            count ≡ min (min (length piece.now) self.old.most)
            (self.old.room - length self.old.written)) }
        ensures failing { IsErr result ↔ (IsNextFailing self.old.calls
            ⊎ ((0 < length piece.now) × (length self.old.written ≡ self.old.room))) }
        ensures counted { OnErr result (self.new.faults ≡ raised self.old.faults) }
        ensures calls { self.new.calls ≡ after_call self.old.calls }
        ensures room { self.new.room ≡ self.old.room }
        ensures most { self.new.most ≡ self.old.most }
    {
        if self.calls.next_fails() {
            return Err(self.inner.fail());
        }
        let offered = piece.len().min(self.most);
        self.inner.write(&piece[..offered])
    }
}
