use std::io;
use std::io::{Read, Write};
use std::test::Fail;
use tm_io::{
    Failed, FlakySink, FlakySource, ReadErr, Sink, SinkErr, StdSink, StdSource, read_all, write_all,
};

/// A reader that gives three bytes and then fails.
#[derive(Drop)]
struct BreaksOff {
    given: bool,
}

impl Read for BreaksOff {
    fn read(&mut self, buf: &mut [u8]) -> io::Result<usize> {
        if self.given {
            return Err(io::Error::from(io::ErrorKind::ConnectionReset));
        }
        self.given = true;
        let count = buf.len().min(3);
        buf[..count].copy_from_slice(&b"ask"[..count]);
        Ok(count)
    }
}

/// A writer that takes so many pieces of one byte, and then nothing.
#[derive(Drop)]
struct Fills {
    room: usize,
}

impl Write for Fills {
    fn write(&mut self, buf: &[u8]) -> io::Result<usize> {
        let count = buf.len().min(1).min(self.room);
        self.room -= count;
        Ok(count)
    }

    fn flush(&mut self) -> io::Result<()> {
        Ok(())
    }
}

/// A writer that takes all and can't pass it on.
#[derive(Drop)]
struct NeverFlushes;

impl Write for NeverFlushes {
    fn write(&mut self, buf: &[u8]) -> io::Result<usize> {
        Ok(buf.len())
    }

    fn flush(&mut self) -> io::Result<()> {
        Err(io::Error::from(io::ErrorKind::BrokenPipe))
    }
}

#[test]
fn a_reader_that_breaks_off_is_a_fault(rt: HostRuntime) -> Result<(), Fail> {
    let alloc = rt.alloc();
    let mut source = StdSource::new(BreaksOff { given: false });
    let read = read_all(alloc, &mut source, 100);
    assert_eq!(rt; read.err(), Some(ReadErr::Fault));
    let mut source = StdSource::new(b"ask".as_slice());
    let read = read_all(alloc, &mut source, 100)?;
    assert_eq!(rt; read.as_slice(), b"ask".as_slice());
    Ok(())
}

#[test]
fn a_writer_that_stops_is_a_fault(rt: HostRuntime) -> Result<(), Fail> {
    let mut sink = StdSink::new(Fills { room: 6 });
    assert_eq!(rt; write_all(&mut sink, b"0 yes\n"), Ok(()));
    assert_eq!(rt; sink.write(b"0"), Err(Failed));
    let mut sink = StdSink::new(Fills { room: 5 });
    assert_eq!(rt; write_all(&mut sink, b"0 yes\n"), Err(SinkErr::Fault));
    let mut sink = StdSink::new(NeverFlushes);
    assert_eq!(rt; write_all(&mut sink, b"0 yes\n"), Err(SinkErr::Fault));
    Ok(())
}

/// A sink with ample room that takes one byte a call and fails at one call.
fn fails_at(rt: &HostRuntime, call: u64) -> Result<FlakySink, Fail> {
    let fail_calls = Vec::from_slice(rt.alloc(), &[call])?;
    let sink = FlakySink::with_room(rt.alloc(), 100, 1, fail_calls)
        .ok()
        .ok_or("no memory")?;
    Ok(sink)
}

#[test]
fn each_call_that_fails_is_a_fault(rt: HostRuntime) -> Result<(), Fail> {
    let alloc = rt.alloc();
    for moved in 0..4 {
        let call = moved as u64 + 1;
        let bytes = Vec::from_slice(alloc, b"ask ")?;
        let mut source = FlakySource::new(bytes, 1, Vec::from_slice(alloc, &[call])?);
        let read = read_all(alloc, &mut source, 100);
        assert_eq!(rt; read.err(), Some(ReadErr::Fault));
        let mut sink = fails_at(&rt, call)?;
        assert_eq!(rt; write_all(&mut sink, b"ask "), Err(SinkErr::Fault));
        assert_eq!(rt; sink.written(), &b"ask "[..moved]);
    }
    Ok(())
}

#[test]
fn a_call_that_is_never_made_fails_nothing(rt: HostRuntime) -> Result<(), Fail> {
    let alloc = rt.alloc();
    let bytes = Vec::from_slice(alloc, b"ask ")?;
    let mut source = FlakySource::new(bytes, 1, Vec::from_slice(alloc, &[6])?);
    let read = read_all(alloc, &mut source, 100)?;
    assert_eq!(rt; read.as_slice(), b"ask ".as_slice());
    let mut sink = fails_at(&rt, 5)?;
    assert_eq!(rt; write_all(&mut sink, b"ask "), Ok(()));
    assert_eq!(rt; sink.written(), b"ask ".as_slice());
    Ok(())
}

#[test]
fn what_was_written_before_a_fault_stays(rt: HostRuntime) -> Result<(), Fail> {
    let mut sink = fails_at(&rt, 4)?;
    let report = b"0 yes, 0 no, 0 refused\n";
    assert_eq!(rt; write_all(&mut sink, report), Err(SinkErr::Fault));
    assert_eq!(rt; sink.written(), b"0 y".as_slice());
    Ok(())
}

#[test]
fn errors_say_what_went_wrong(rt: HostRuntime) -> Result<(), Fail> {
    let alloc = rt.alloc();
    let text = ReadErr::Fault.to_string(alloc)?;
    assert_eq!(rt; text.as_str(), "the input can't be read");
    let text = SinkErr::Fault.to_string(alloc)?;
    assert_eq!(rt; text.as_str(), "the output can't be written");
    Ok(())
}
