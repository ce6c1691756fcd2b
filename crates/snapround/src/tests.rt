//! Whole runs: worked scripts over memory, and the statuses where the outside fails.

use crate::play::{play, top};
use io_ports::{Sink, StdSink, StdSource, SteadySink, SteadySource};
use std::io::{self, BufWriter, ErrorKind, Read, Write};
use std::process::Abort;
use std::test::Fail;

/// Runs `play` over memory on `input`, and looks at what it wrote and how it ended.
fn check_run(
    rt: &(impl Abort + AllocGlobal),
    input: &str,
    output: &str,
    status: u8,
) -> Result<(), Fail> {
    let mut source = SteadySource::new(input.as_bytes().to_vec(rt.alloc())?);
    let mut sink = SteadySink::new(rt.alloc());
    assert_eq!(rt; play(rt.alloc(), &mut source, &mut sink), status);
    assert_eq!(rt; sink.bytes(), output.as_bytes());
    Ok(())
}

#[test]
fn empty_input(rt: HostRuntime) -> Result<(), Fail> {
    check_run(&rt, "", "", 0)
}

const SIMPLEST: &str = "1 insert 0 0 10 0\n1 commit\n1 take\n1 show\n";

const SIMPLEST_ANSWERED: &str = "1 ready 1.1\n1 commit 1\n1 at 1\narrangement 1\nsegments 1\n\
    1.1 0 0 10 0 route 2 0 0 10 0\nvertices 2\n0 0 ends 1 crossings 0\n10 0 ends 1 crossings 0\n\
    edges 1\n0 0 10 0 names 1 1.1\nend\n";

#[test]
fn simplest(rt: HostRuntime) -> Result<(), Fail> {
    check_run(&rt, SIMPLEST, SIMPLEST_ANSWERED, 0)
}

#[test]
fn first_path_bad_lines(rt: HostRuntime) -> Result<(), Fail> {
    let input = "1 commit\n1 take\n\n1 show\n";
    let output = "1 none\n1 at 0\narrangement 0\nsegments 0\nvertices 0\nedges 0\nend\n";
    check_run(&rt, input, output, 0)
}

#[test]
fn half_exactly(rt: HostRuntime) -> Result<(), Fail> {
    let input = "1 insert 0 0 5 2\n1 commit\n1 insert 0 2 5 0\n1 commit\n1 show\n";
    let output = "1 ready 1.1\n1 commit 1\n1 ready 1.2\n1 commit 2\narrangement 2\nsegments 2\n\
                 1.1 0 0 5 2 route 3 0 0 3 1 5 2\n1.2 0 2 5 0 route 3 0 2 3 1 5 0\nvertices 5\n\
                 0 0 ends 1 crossings 0\n0 2 ends 1 crossings 0\n3 1 ends 0 crossings 1\n\
                 5 0 ends 1 crossings 0\n5 2 ends 1 crossings 0\nedges 4\n0 0 3 1 names 1 1.1\n\
                 0 2 3 1 names 1 1.2\n3 1 5 0 names 1 1.2\n3 1 5 2 names 1 1.1\nend\n";
    check_run(&rt, input, output, 0)
}

#[test]
fn refusals_and_bounds(rt: HostRuntime) -> Result<(), Fail> {
    let input = "1 insert 0 0 0 0\n1 insert 0 0 1048577 0\n1 insert 1048577 5 1048577 5\n\
                1 insert 0 0 1048576 0\n1 insert 0 0 0 0\n1 delete 9.9\n1 drop\n1 delete 9.9\n";
    let output = "1 refused point\n1 refused range\n1 refused range\n1 ready 1.1\n\
                 1 refused busy\n1 refused busy\n1 dropped\n1 refused unknown\n";
    check_run(&rt, input, output, 0)
}

#[test]
fn stale(rt: HostRuntime) -> Result<(), Fail> {
    let input = "1 insert 0 0 10 0\n2 insert 20 20 30 20\n1 commit\n2 commit\n2 commit\n2 take\n\
                2 insert 20 20 30 20\n2 commit\n3 insert 0 5 10 5\n3 commit\n";
    let output = "1 ready 1.1\n2 ready 2.1\n1 commit 1\n2 stale by 1 tile 0 0\n2 none\n2 at 1\n\
                 2 ready 2.2\n2 commit 2\n3 ready 3.1\n3 stale by 2 tile 0 0\n";
    check_run(&rt, input, output, 0)
}

#[test]
fn name_deleted_twice(rt: HostRuntime) -> Result<(), Fail> {
    let input = "1 insert 0 0 10 0\n1 commit\n2 take\n3 take\n2 delete 1.1\n3 delete 1.1\n\
                2 commit\n3 commit\n3 delete 1.1\n3 drop\n3 take\n3 delete 1.1\n";
    let output = "1 ready 1.1\n1 commit 1\n2 at 1\n3 at 1\n2 ready 1.1\n3 ready 1.1\n\
                 2 commit 2\n3 stale by 2 tile 0 0\n3 ready 1.1\n3 dropped\n3 at 2\n\
                 3 refused unknown\n";
    check_run(&rt, input, output, 0)
}

/// Appends the text.
fn push(out: &mut Vec<u8>, text: &str) -> Result<(), Fail> {
    out.extend_from_slice(text.as_bytes())?;
    Ok(())
}

#[test]
fn lines(rt: HostRuntime) -> Result<(), Fail> {
    let alloc = rt.alloc();
    let mut input = Vec::new(alloc);
    push(&mut input, "# a comment\n\n1 commit\n0 take\n65 take\n")?;
    push(&mut input, "  1\tinsert 0 0 7 7 \r\n1 insert 1 1 2 2\n")?;
    push(&mut input, "1 erase 1.1\n1 drop\n1 take")?;
    for _ in 0..4091 {
        input.push(b' ')?;
    }
    push(&mut input, "\n1 insert 0 0 +1 0\n1 route 1.0\n1 drop")?;
    let output = "1 none\nbad 4\nbad 5\n1 ready 1.1\n1 refused busy\nbad 8\n1 dropped\n\
                 bad 10\nbad 11\nbad 12\n1 none\n";
    let mut sink = SteadySink::new(alloc);
    let status = play(alloc, &mut SteadySource::new(input), &mut sink);
    assert_eq!(rt; status, 1);
    assert_eq!(rt; sink.bytes(), output.as_bytes());
    Ok(())
}

/// Appends an insertion that is committed, and the two replies, as number `n` of editor 1.
fn push_committed(
    input: &mut Vec<u8>,
    output: &mut Vec<u8>,
    n: u32,
    ends: &str,
) -> Result<(), Fail> {
    let alloc = *input.allocator();
    push(input, &format!(in alloc; "1 insert {ends}\n1 commit\n")?)?;
    push(output, &format!(in alloc; "1 ready 1.{n}\n1 commit {n}\n")?)
}

// A grid of 1,447 by 1,447 lines, 16 pixels apart: 4,193,406 passes; one line more has 2,896.
#[test]
fn limits_c_passes(rt: HostRuntime) -> Result<(), Fail> {
    let alloc = rt.alloc();
    let mut input = Vec::new(alloc);
    let mut output = Vec::new(alloc);
    for k in 1..1448u32 {
        let at = 16 * k;
        let across = format!(in alloc; "0 {at} 23168 {at}")?;
        push_committed(&mut input, &mut output, 2 * k - 1, &across)?;
        let up = format!(in alloc; "{at} 0 {at} 23168")?;
        push_committed(&mut input, &mut output, 2 * k, &up)?;
    }
    push(&mut input, "1 insert 0 23160 23168 23160\n1 commit\n")?;
    push(&mut output, "1 ready 1.2895\n1 full passes\n")?;
    let mut sink = SteadySink::new(alloc);
    let status = play(alloc, &mut SteadySource::new(input), &mut sink);
    assert_eq!(rt; status, 0);
    assert_eq!(rt; sink.bytes(), output.as_slice());
    Ok(())
}

/// The status of a run with these words, on one bad line.
fn status_of(rt: &HostRuntime, words: &[&str]) -> Result<u8, Fail> {
    let mut list = Vec::new(rt.alloc());
    for word in words {
        list.push(String::from_str(rt.alloc(), word)?)?;
    }
    let mut source = SteadySource::new(b"1 erase 1.1".to_vec(rt.alloc())?);
    let mut sink = SteadySink::new(rt.alloc());
    Ok(top(rt.alloc(), &list, &mut source, &mut sink))
}

#[test]
fn words(rt: HostRuntime) -> Result<(), Fail> {
    assert_eq!(rt; status_of(&rt, &["play"])?, 1);
    assert_eq!(rt; status_of(&rt, &[])?, 2);
    assert_eq!(rt; status_of(&rt, &[""])?, 2);
    assert_eq!(rt; status_of(&rt, &["Play"])?, 2);
    assert_eq!(rt; status_of(&rt, &["play "])?, 2);
    assert_eq!(rt; status_of(&rt, &["play", "play"])?, 2);
    assert_eq!(rt; status_of(&rt, &["play", "x"])?, 2);
    assert_eq!(rt; status_of(&rt, &["play", "--"])?, 2);
    assert_eq!(rt; status_of(&rt, &["--", "play"])?, 2);
    assert_eq!(rt; status_of(&rt, &["-h"])?, 2);
    assert_eq!(rt; status_of(&rt, &["make", "--start", "1"])?, 2);
    assert_eq!(rt; status_of(&rt, &["crew", "--tries", "0"])?, 2);
    Ok(())
}

/// A reader that gives so many line feeds, and then its end.
#[derive(Drop)]
struct LineFeeds {
    left: usize,
}

impl Read for LineFeeds {
    fn read(&mut self, buf: &mut [u8]) -> io::Result<usize> {
        let given = self.left.min(buf.len());
        for b in buf[..given].iter_mut() {
            *b = b'\n';
        }
        self.left -= given;
        Ok(given)
    }
}

#[test]
fn input_size(rt: HostRuntime) -> Result<(), Fail> {
    for (feeds, status) in [(16_777_216, 0), (16_777_217, 5)] {
        let mut source = StdSource::over(LineFeeds { left: feeds });
        let mut sink = SteadySink::new(rt.alloc());
        let ended = play(rt.alloc(), &mut source, &mut sink);
        assert_eq!(rt; ended, status, "{feeds} line feeds");
        assert_eq!(rt; sink.bytes(), b"".as_slice());
    }
    Ok(())
}

/// A reader that fails at once.
#[derive(Drop)]
struct Broken;

impl Read for Broken {
    fn read(&mut self, _buf: &mut [u8]) -> io::Result<usize> {
        Err(io::Error::from(ErrorKind::BrokenPipe))
    }
}

#[test]
fn a_broken_source_has_its_status(rt: HostRuntime) -> Result<(), Fail> {
    let mut source = StdSource::over(Broken);
    let mut sink = SteadySink::new(rt.alloc());
    assert_eq!(rt; play(rt.alloc(), &mut source, &mut sink), 3);
    assert_eq!(rt; sink.bytes(), b"".as_slice());
    Ok(())
}

/// A device that has room for so many bytes more, and fails where it is full.
#[derive(Drop)]
struct Device<'a> {
    taken: &'a mut Vec<u8>,
    room: usize,
}

impl Write for Device<'_> {
    fn write(&mut self, buf: &[u8]) -> io::Result<usize> {
        let fits = self.room.min(buf.len());
        if fits == 0 {
            return Err(io::Error::from(ErrorKind::StorageFull));
        }
        self.taken.extend_from_slice(&buf[..fits])?;
        self.room -= fits;
        Ok(fits)
    }

    fn flush(&mut self) -> io::Result<()> {
        Ok(())
    }
}

/// The status of row `simplest`'s run onto a device with this room, through a buffer of `gathered`
/// bytes; what the device took is appended to `taken`.
fn status_on_device(
    rt: &HostRuntime,
    gathered: usize,
    room: usize,
    taken: &mut Vec<u8>,
) -> Result<u8, Fail> {
    let device = Device { taken, room };
    let mut sink = StdSink::over(BufWriter::with_capacity(rt.alloc(), gathered, device)?);
    let mut source = SteadySource::new(SIMPLEST.as_bytes().to_vec(rt.alloc())?);
    Ok(play(rt.alloc(), &mut source, &mut sink))
}

// A buffer that is greater than the output is written when the sink is shut, a smaller one before.
#[test]
fn a_full_device_has_its_status(rt: HostRuntime) -> Result<(), Fail> {
    let output = SIMPLEST_ANSWERED.as_bytes();
    for (gathered, room, status) in [
        (8, 0, 4),
        (8, 20, 4),
        (65_536, 20, 4),
        (65_536, output.len() - 1, 4),
        (65_536, output.len(), 0),
    ] {
        let mut taken = Vec::new(rt.alloc());
        let ended = status_on_device(&rt, gathered, room, &mut taken)?;
        assert_eq!(rt; ended, status, "room for {room} bytes, {gathered} gathered");
        assert_eq!(rt; taken.as_slice(), &output[..room]);
    }
    Ok(())
}

// A run that ends before the sink is shut, for want of memory, leaves what was answered before.
#[test]
fn what_was_gathered_is_written_though_the_sink_stays_open(rt: HostRuntime) -> Result<(), Fail> {
    let mut taken = Vec::new(rt.alloc());
    let device = Device {
        taken: &mut taken,
        room: 100,
    };
    let mut sink = StdSink::over(BufWriter::new(rt.alloc(), device)?);
    assert_eq!(rt; sink.write(b"1 none\n"), Ok(7));
    drop(sink);
    assert_eq!(rt; taken.as_slice(), b"1 none\n".as_slice());
    Ok(())
}
