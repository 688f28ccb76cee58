ghost use Rattle.std.specs.Prelude.{◌≡◌, ◌↔◌, ◌≤◌, Some, IfOk, IsErr, OnErr, length, min};
ghost use Rattle.std.specs.Io.{ReadsAtMost};
ghost use Rattle.std.specs.Io.KnownBytes.{ReadConsumes};
ghost use Rattle.tm_io.specs.Calls.{IsNextFailing, first_call, after_call};
ghost use Rattle.tm_io.specs.Faults.{HasCause, raised};

use crate::calls::Calls;
use crate::failed::Failed;
use crate::mem_source::MemSource;
use crate::source::Source;
use std::marker::Model;

/// A source in memory that gives a few bytes a call, and fails at listed calls. It tells its bytes.
/// Contracts see it as the bytes that are left, how many a call gives at most, the calls, and the
/// count of faults.
#[derive(Drop)]
pub struct FlakySource {
    inner: MemSource,
    most: usize,
    calls: Calls,
    faults: u64,
}

impl Model for FlakySource {
    ghost use Rattle.std.specs.Prelude.{◌<◌};
    ghost use Rattle.tm_io.specs.Flaky.{Left};

    ghost Value = { Left };

    ghost view = { λ source.
        record {
          left = source.inner;
          most = source.most;
          calls = source.calls;
          faults = source.faults;
        } };

    ghost invariant = { λ source. 0 < source.most };
}

impl FlakySource {
    /// A source of these bytes that gives at most `most` bytes a call. Exactly the calls whose numbers,
    /// counted from 1, are in `fail_calls` fail; a call's number stays at 2^64 - 1 once it is there.
    pub fn new(bytes: Vec<u8>, most: usize, fail_calls: Vec<u64>) -> FlakySource
        requires { 1 ≤ most }
        ensures { result ≡ record {
          left = bytes.items;
          most = most;
          calls = first_call fail_calls.items;
          faults = 0;
        } }
    {
        FlakySource {
            inner: MemSource::new(bytes),
            most,
            calls: Calls::new(fail_calls),
            faults: 0,
        }
    }
}

impl Source for FlakySource {
    ghost left = { λ source. Some source.left };

    ghost faults = { λ source. source.faults };

    /// Takes as many bytes as the buffer has room for, up to `most`. It fails exactly at the listed
    /// calls.
    fn read(&mut self, buf: &mut [u8]) -> Result<usize, Failed>
        ensures bound { ReadsAtMost result buf.new }
        ensures bytes { ReadConsumes (Some self.old.left) (Some self.new.left) result buf.new }
        ensures cause { HasCause self.old.faults self.new.faults result }

        // How many it takes, when it fails, and what that does to the counts.
        ensures taken { IfOk result (λ count.
            count ≡ min (min (length buf.old) self.old.most) (length self.old.left)) }
        ensures listed { IsErr result ↔ IsNextFailing self.old.calls }
        ensures counted { OnErr result (self.new.faults ≡ raised self.old.faults) }
        ensures calls { self.new.calls ≡ after_call self.old.calls }
        ensures most { self.new.most ≡ self.old.most }
    {
        if self.calls.next_fails() {
            self.faults = self.faults.saturating_add(1);
            return Err(Failed);
        }
        let asked = buf.len().min(self.most);
        self.inner.read(&mut buf[..asked])
    }
}
