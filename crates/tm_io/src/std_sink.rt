ghost use Rattle.std.specs.Prelude.{◌≡◌, ◌<◌, None, IfOk, OnErr, length, take};
ghost use Rattle.std.specs.Io.{WritesAtMost};
ghost use Rattle.std.specs.Io.KnownBytes.{Appends};
ghost use Rattle.tm_io.specs.Faults.{HasCause, raised};
ghost use Rattle.tm_io.specs.Told.{AddsPrefix};

use crate::failed::Failed;
use crate::sink::Sink;
use std::io::Write;
use std::marker::Model;

/// A sink over a writer of std, flushed after each write. It tells no bytes. Contracts see it as the
/// writer and the count of faults.
#[derive(Drop)]
pub struct StdSink<W: Write> {
    inner: W,
    faults: u64,
}

impl<W: Write> Model for StdSink<W> {
    ghost use Rattle.tm_io.specs.Over.{Over, over_code};

    ghost Value = { Over W };

    ghost coded = { over_code W.code };

    ghost view = { λ sink. record { inner = sink.inner; faults = sink.faults } };
}

impl<W: Write> StdSink<W> {
    /// A sink that hands all to the writer. Its count begins at 0.
    pub fn new(inner: W) -> StdSink<W>
        ensures { result ≡ record { inner = inner; faults = 0 } }
    {
        StdSink { inner, faults: 0 }
    }
}

impl<W: Write> Sink for StdSink<W> {
    ghost written = { λ _. None };

    ghost faults = { λ sink. sink.faults };

    /// Fails where the writer or its flush does, or where it takes nothing of a piece that isn't empty,
    /// and counts that.
    fn write(&mut self, piece: &[u8]) -> Result<usize, Failed>
        ensures bound { WritesAtMost result piece.now }
        ensures some { 0 < length piece.now → IfOk result (λ count. 0 < count) }
        ensures cause { HasCause self.old.faults self.new.faults result }
        ensures counted { OnErr result (self.new.faults ≡ raised self.old.faults) }

        // Where the writer tells what it holds: it has taken these bytes, or a front of the piece.
        ensures passed { IfOk result (λ count.
            Appends (W.contents self.old.inner) (W.contents self.new.inner)
            (take count piece.now)) }
        ensures front { AddsPrefix (W.contents self.old.inner)
            (W.contents self.new.inner) piece.now }
    {
        match write_through(&mut self.inner, piece) {
            Ok(count) => Ok(count),
            Err(Failed) => {
                self.faults = self.faults.saturating_add(1);
                Err(Failed)
            }
        }
    }
}

/// Writes and flushes, and says how many bytes were taken. It fails where either does, or where the
/// write takes nothing of a piece that isn't empty.
fn write_through<W: Write>(writer: &mut W, piece: &[u8]) -> Result<usize, Failed>
    ensures bound { WritesAtMost result piece.now }
    ensures some { 0 < length piece.now → IfOk result (λ count. 0 < count) }
    ensures passed { IfOk result (λ count.
        Appends (W.contents writer.old) (W.contents writer.new) (take count piece.now)) }
    ensures front { AddsPrefix (W.contents writer.old) (W.contents writer.new) piece.now }
{
    let count = writer.write(piece)?;
    if count == 0 && !piece.is_empty() {
        return Err(Failed);
    }
    writer.flush()?;
    Ok(count)
}
