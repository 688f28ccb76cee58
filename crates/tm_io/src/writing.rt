ghost use Rattle.std.specs.Prelude.{◌≡◌, ◌^◌, ◌<◌, ◌≤◌, OnOk};
ghost use Rattle.tm_io.specs.Faults.{Rose};
ghost use Rattle.tm_io.specs.Told.{AddsAll, AddsPrefix};

use crate::failed::Failed;
use crate::sink::Sink;
use thiserror::Error;

/// Why not all bytes were written: the sink failed.
#[derive(Clone, Copy, PartialEq, Eq, Debug, Error)]
pub enum SinkErr {
    #[error("the output can't be written")]
    Fault,
}

/// Adds all bytes to the sink. Where the sink fails, which is exactly where `Fault` comes, it has taken a
/// prefix of them.
pub fn write_all<K: Sink>(sink: &mut K, bytes: &[u8]) -> Result<(), SinkErr>
    ensures all { OnOk result (AddsAll (K.written sink.old) (K.written sink.new) bytes.now) }
    ensures prefix { AddsPrefix (K.written sink.old) (K.written sink.new) bytes.now }

    // The count of faults.
    ensures fault { result ≡ Err SinkErr.Fault → Rose (K.faults sink.old) (K.faults sink.new) }
    ensures risen { K.faults sink.old < K.faults sink.new → result ≡ Err SinkErr.Fault }
    ensures kept { OnOk result (K.faults sink.new ≡ K.faults sink.old) }
    ensures later { K.faults sink.old ≤ K.faults sink.new }
    ensures bounded { K.faults sink.old < 2 ^ 64 → K.faults sink.new < 2 ^ 64 }
{
    let mut rest = bytes;
    while !rest.is_empty() {
        match sink.write(rest) {
            Ok(count) => rest = &rest[count..],
            Err(Failed) => return Err(SinkErr::Fault),
        }
    }
    Ok(())
}
