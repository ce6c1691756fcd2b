//! What no clause says: that calls succeed, and what passes the trusted edge.
use crate::{
    Failed, ReadFault, Sink, SinkFault, Source, StdSink, StdSource, SteadySink, SteadySource,
    read_all, write_whole,
};
use std::io;
use std::io::{ErrorKind, Read, Write};
use std::test::Fail;

/// Counts down to a fault. It comes once, at the call after as many calls as are said.
#[derive(Clone, Copy)]
struct Countdown(Option<u32>);

impl Countdown {
    fn step(&mut self) -> io::Result<()> {
        match self.0 {
            Some(0) => {
                self.0 = None;
                Err(ErrorKind::Other.into())
            }
            Some(calls) => {
                self.0 = Some(calls - 1);
                Ok(())
            }
            None => Ok(()),
        }
    }
}

/// Gives its bytes in short pieces, and fails once.
#[derive(Drop)]
struct ShortReader<'a> {
    bytes: &'a [u8],
    piece: usize,
    fault: Countdown,
}

impl Read for ShortReader<'_> {
    fn read(&mut self, buf: &mut [u8]) -> io::Result<usize> {
        self.fault.step()?;
        let n = self.piece.min(buf.len());
        self.bytes.read(&mut buf[..n])
    }
}

/// Takes short pieces, and fails once.
#[derive(Drop)]
struct ShortWriter {
    bytes: Vec<u8>,
    piece: usize,
    fault: Countdown,
}

impl Write for ShortWriter {
    fn write(&mut self, buf: &[u8]) -> io::Result<usize> {
        self.fault.step()?;
        let n = self.piece.min(buf.len());
        self.bytes.write(&buf[..n])
    }

    fn flush(&mut self) -> io::Result<()> {
        self.fault.step()
    }
}

#[test]
fn a_reader_of_std_is_a_source(rt: HostRuntime) {
    let mut source = StdSource::over(&b"abc"[..]);
    let mut buf = [0; 2];
    assert_eq!(rt; source.read(&mut buf), Ok(2));
    assert_eq!(rt; buf, *b"ab");
    assert_eq!(rt; source.read(&mut buf), Ok(1));
    assert_eq!(rt; buf, *b"cb");
    assert_eq!(rt; source.read(&mut buf), Ok(0));
}

#[test]
fn a_writer_of_std_is_a_sink(rt: HostRuntime) {
    let mut room = [b'-'; 3];
    let mut sink = StdSink::over(&mut room[..]);
    assert_eq!(rt; sink.write(b"ab"), Ok(2));
    assert_eq!(rt; sink.write(b"cd"), Ok(1), "a short write");
    assert_eq!(rt;
        sink.write(b"d"),
        Err(SinkFault::Failed),
        "nothing is taken"
    );
    assert_eq!(rt; sink.write(b""), Ok(0));
    assert_eq!(rt; sink.close(), Ok(()));
    assert_eq!(rt; room, *b"abc");
}

/// A source of `abcde` that gives at most `piece` bytes at a time.
fn letters(piece: usize, fault: Option<u32>) -> StdSource<ShortReader<'static>> {
    StdSource::over(ShortReader {
        bytes: b"abcde",
        piece,
        fault: Countdown(fault),
    })
}

#[test]
fn a_source_is_read_to_its_end_or_its_limit(rt: HostRuntime) {
    let cases = [
        ("single bytes", 1, None, 16_777_216, None),
        ("as many as the limit", 3, None, 5, None),
        (
            "one more than the limit",
            3,
            None,
            4,
            Some(ReadFault::TooLong),
        ),
        (
            "a fault in mid-stream",
            2,
            Some(2),
            5,
            Some(ReadFault::Failed),
        ),
        ("a fault at the end", 5, Some(1), 5, Some(ReadFault::Failed)),
    ];
    for (name, piece, fault, limit, want) in cases {
        match read_all(rt.alloc(), &mut letters(piece, fault), limit) {
            Ok(bytes) => {
                assert_eq!(rt; bytes.as_slice(), b"abcde".as_slice(), "{name}");
                assert_eq!(rt; want, None, "{name}");
            }
            Err(fault) => assert_eq!(rt; Some(fault), want, "{name}"),
        }
    }
}

#[test]
fn no_byte_is_lost_at_a_fault(rt: HostRuntime) -> Result<(), Fail> {
    let mut source = letters(2, Some(1));
    let mut buf = [0; 2];
    assert_eq!(rt; source.read(&mut buf), Ok(2));
    assert_eq!(rt; source.read(&mut buf), Err(Failed));
    let rest = read_all(rt.alloc(), &mut source, 3)?;
    assert_eq!(rt; rest.as_slice(), b"cde".as_slice());
    Ok(())
}

#[test]
fn bytes_are_written_to_the_last_or_to_a_fault(rt: HostRuntime) {
    let cases: [(&str, usize, Option<u32>, Result<(), SinkFault>, &[u8]); 4] = [
        ("single bytes", 1, None, Ok(()), b"abcde"),
        ("one whole piece", 9, None, Ok(()), b"abcde"),
        ("a fault at first", 2, Some(0), Err(SinkFault::Failed), b""),
        (
            "a fault in mid-stream",
            2,
            Some(2),
            Err(SinkFault::Failed),
            b"abcd",
        ),
    ];
    for (name, piece, fault, want, written) in cases {
        let mut writer = ShortWriter {
            bytes: Vec::new(rt.alloc()),
            piece,
            fault: Countdown(fault),
        };
        let got = write_whole(&mut StdSink::over(&mut writer), b"abcde");
        assert_eq!(rt; got, want, "{name}");
        assert_eq!(rt; writer.bytes.as_slice(), written, "{name}");
    }
}

#[test]
fn a_sink_is_shut_where_its_flush_succeeds(rt: HostRuntime) {
    let writer = ShortWriter {
        bytes: Vec::new(rt.alloc()),
        piece: 1,
        fault: Countdown(Some(0)),
    };
    let mut sink = StdSink::over(writer);
    assert_eq!(rt; sink.close(), Err(SinkFault::Failed));
    assert_eq!(rt; sink.close(), Ok(()));
}

#[test]
fn steady_ends_pass_every_byte_on(rt: HostRuntime) -> Result<(), Fail> {
    let text = vec![in rt.alloc(); b'x'; 20_000]?;
    let mut source = SteadySource::new(text.clone()?);
    let read = read_all(rt.alloc(), &mut source, 20_000)?;
    let mut sink = SteadySink::new(rt.alloc());
    assert_eq!(rt; write_whole(&mut sink, &read), Ok(()));
    assert_eq!(rt; sink.close(), Ok(()));
    assert_eq!(rt; sink.bytes(), text.as_slice());
    Ok(())
}

#[test]
fn each_fault_has_its_text(rt: HostRuntime) -> Result<(), Fail> {
    assert_eq!(rt;
        format!(in rt.alloc(); "{}", Failed)?.as_str(),
        "the source failed"
    );
    assert_eq!(rt;
        format!(in rt.alloc(); "{}", SinkFault::Memory)?.as_str(),
        "out of memory"
    );
    let too_long = "the input is longer than its limit";
    assert_eq!(rt;
        format!(in rt.alloc(); "{}", ReadFault::TooLong)?.as_str(),
        too_long
    );
    Ok(())
}
