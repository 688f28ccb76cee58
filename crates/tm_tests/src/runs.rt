use std::test::Fail;
use tm_io::{FlakySink, FlakySource, MemSink, MemSource};
use tm_run::{Status, run};

fn sink(rt: &HostRuntime, room: u32) -> Result<MemSink, Fail> {
    let sink = MemSink::with_room(rt.alloc(), room)
        .ok()
        .ok_or("no memory")?;
    Ok(sink)
}

/// Whether a run on the file, with so much room, ends so and writes this.
fn ends(
    rt: &HostRuntime,
    file: &str,
    room: u32,
    status: Status,
    written: &str,
) -> Result<bool, Fail> {
    let mut src = MemSource::new(Vec::from_slice(rt.alloc(), file.as_bytes())?);
    let mut out = sink(rt, room)?;
    let ended = run(rt.alloc(), &[], &mut src, &mut out);
    Ok(ended == status && out.written() == written.as_bytes())
}

#[test]
fn answers_with_ample_memory(rt: HostRuntime) -> Result<(), Fail> {
    let file = "ask [u16; 2] => u32; ask u32 => [bool; 4];";
    let report = "1: yes\n2: no, byte-value at 0, bytes 02 00 00 00\n1 yes, 1 no, 0 refused\n";
    assert!(rt; ends(&rt, file, 100, Status::Mixed, report)?);
    let line = "ill-formed unknown at byte 4, line 1\n";
    assert!(rt; ends(&rt, "ask Foo => u8;", 100, Status::IllFormed, line)?);
    Ok(())
}

#[test]
fn a_sink_without_room_ends_the_run(rt: HostRuntime) -> Result<(), Fail> {
    assert!(rt; ends(&rt, "", 3, Status::WriteFault, "0 y")?);
    Ok(())
}

const FILE: &str = "ask u8 => bool;";

const REPORT: &str = "1: no, byte-value at 0, bytes 02\n0 yes, 1 no, 0 refused\n";

/// How a run on a file ends, of which each call reads a byte and one call fails, and whether it writes this.
fn ends_where_a_read_fails(
    rt: &HostRuntime,
    file: &str,
    call: u64,
    written: &str,
) -> Result<Option<Status>, Fail> {
    let alloc = rt.alloc();
    let bytes = Vec::from_slice(alloc, file.as_bytes())?;
    let mut src = FlakySource::new(bytes, 1, Vec::from_slice(alloc, &[call])?);
    let mut out = sink(rt, 100)?;
    let ended = run(alloc, &[], &mut src, &mut out);
    Ok(if out.written() == written.as_bytes() {
        Some(ended)
    } else {
        None
    })
}

/// The same of a run whose report is written a byte a call, and one call fails.
fn ends_where_a_write_fails(
    rt: &HostRuntime,
    call: u64,
    written: &str,
) -> Result<Option<Status>, Fail> {
    let alloc = rt.alloc();
    let mut src = MemSource::new(Vec::from_slice(alloc, FILE.as_bytes())?);
    let mut out = FlakySink::with_room(alloc, 100, 1, Vec::from_slice(alloc, &[call])?)
        .ok()
        .ok_or("no memory")?;
    let ended = run(alloc, &[], &mut src, &mut out);
    Ok(if out.written() == written.as_bytes() {
        Some(ended)
    } else {
        None
    })
}

#[test]
fn a_read_that_fails_ends_the_run(rt: HostRuntime) -> Result<(), Fail> {
    assert_eq!(rt;
        ends_where_a_read_fails(&rt, "", 1, "")?,
        Some(Status::ReadFault)
    );
    for call in 1..17 {
        assert_eq!(rt;
            ends_where_a_read_fails(&rt, FILE, call, "")?,
            Some(Status::ReadFault)
        );
    }
    assert_eq!(rt;
        ends_where_a_read_fails(&rt, FILE, 17, REPORT)?,
        Some(Status::Mixed)
    );
    Ok(())
}

#[test]
fn a_write_that_fails_ends_the_run(rt: HostRuntime) -> Result<(), Fail> {
    for (before, _) in REPORT.char_indices() {
        let call = before as u64 + 1;
        let front = REPORT.get(..before).ok_or("no front")?;
        assert_eq!(rt;
            ends_where_a_write_fails(&rt, call, front)?,
            Some(Status::WriteFault)
        );
    }
    assert_eq!(rt;
        ends_where_a_write_fails(&rt, 57, REPORT)?,
        Some(Status::Mixed)
    );
    Ok(())
}

// The numbers that no row shows.
#[test]
fn the_program_ends_with_these_numbers(rt: HostRuntime) {
    assert_eq!(rt; Status::ReadFault as u8, 5);
    assert_eq!(rt; Status::WriteFault as u8, 6);
    assert_eq!(rt; Status::Memory as u8, 7);
}
