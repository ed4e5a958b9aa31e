//! Streams that take or give little.

use outside::{Got, Sink, SinkError, StdSink, read_stream};
use std::alloc::{AllocError, Global};
use std::io::{self, ErrorKind, Read, Write};
use std::test::Fail;

/// A stream that takes three bytes at most in a call, is interrupted before each call, and fails once it has taken
/// `most`. Its first flush fails.
#[derive(Drop)]
struct Slow {
    taken: Vec<u8>,
    most: usize,
    interrupted: bool,
    flushed: bool,
}

impl Slow {
    fn of(alloc: Global, most: usize) -> Self {
        Slow {
            taken: Vec::new(alloc),
            most,
            interrupted: false,
            flushed: false,
        }
    }
}

impl Write for Slow {
    fn write(&mut self, buf: &[u8]) -> io::Result<usize> {
        self.interrupted = !self.interrupted;
        if self.interrupted {
            return Err(io::Error::from(ErrorKind::Interrupted));
        }
        if self.taken.len() >= self.most {
            return Err(io::Error::from(ErrorKind::BrokenPipe));
        }
        let count = buf.len().min(3).min(self.most - self.taken.len());
        self.taken.extend_from_slice(&buf[..count])?;
        Ok(count)
    }

    fn flush(&mut self) -> io::Result<()> {
        if self.flushed {
            return Ok(());
        }
        self.flushed = true;
        Err(io::Error::from(ErrorKind::BrokenPipe))
    }
}

/// A stream that gives its last byte first, one in a call, and is interrupted before each.
#[derive(Drop)]
struct Drip {
    left: Vec<u8>,
    interrupted: bool,
}

impl Read for Drip {
    fn read(&mut self, buf: &mut [u8]) -> io::Result<usize> {
        self.interrupted = !self.interrupted;
        if self.interrupted {
            return Err(io::Error::from(ErrorKind::Interrupted));
        }
        let Some(place) = buf.first_mut() else {
            return Ok(0);
        };
        let Some(byte) = self.left.pop() else {
            return Ok(0);
        };
        *place = byte;
        Ok(1)
    }
}

/// Whether a sink takes these bytes.
fn takes<O: Sink>(sink: &mut O, bytes: &[u8]) -> bool {
    sink.put(bytes) == Ok(())
}

/// Whether the stream of a sink got `count` bytes, and its first flush failed.
fn is_whole(sink: &mut StdSink<Slow>, count: usize) -> bool {
    sink.finish() == Err(SinkError::Failed)
        && sink.finish() == Ok(())
        && sink.stream().taken.len() == count
}

/// Whether a sink takes `byte` this many times.
fn takes_repeated<O: Sink>(
    alloc: Global,
    sink: &mut O,
    byte: u8,
    count: usize,
) -> Result<bool, AllocError> {
    let bytes = vec![in alloc; byte; count]?;
    Ok(takes(sink, &bytes))
}

/// Whether a sink takes bytes up to the 64 KiB that it gathers, one more, and more than it gathers.
fn takes_pieces<O: Sink>(alloc: Global, sink: &mut O) -> Result<bool, AllocError> {
    Ok(
        takes_repeated(alloc, sink, b'a', 65_530)?
            && takes_repeated(alloc, sink, b'b', 6)?
            && takes(sink, b"c")
            && takes_repeated(alloc, sink, b'd', 70_000)?,
    )
}

/// Whether a slow stream gets every byte in its order.
fn slow_gets_all(alloc: Global) -> io::Result<bool> {
    let mut sink = StdSink::new(alloc, Slow::of(alloc, 1_000_000))?;
    Ok(
        takes_pieces(alloc, &mut sink)?
            && is_whole(&mut sink, 135_537)
            && sink.stream().taken.is_sorted(),
    )
}

/// Whether a stream that breaks got what it took, and the count rose.
fn broken_is_counted(alloc: Global) -> io::Result<bool> {
    let mut sink = StdSink::new(alloc, Slow::of(alloc, 4))?;
    Ok(
        takes(&mut sink, b"hello")
            && sink.finish() == Err(SinkError::Failed)
            && sink.faults() == 1
            && sink.stream().taken.as_slice() == b"hell".as_slice(),
    )
}

/// Whether a stream that drips is read whole.
fn drip_is_read(alloc: Global) -> io::Result<bool> {
    let mut drip = Drip {
        left: b"olleh".to_vec(alloc)?,
        interrupted: false,
    };
    let mut into = Vec::new(alloc);
    Ok(
        read_stream(&mut drip, &mut into, 5) == Ok(Got::Whole)
            && into.as_slice() == b"hello".as_slice(),
    )
}

#[test]
fn streams(rt: HostRuntime) -> Result<(), Fail> {
    let alloc = rt.alloc();
    assert!(rt; slow_gets_all(alloc)?);
    assert!(rt; broken_is_counted(alloc)?);
    assert!(rt; drip_is_read(alloc)?);
    Ok(())
}
