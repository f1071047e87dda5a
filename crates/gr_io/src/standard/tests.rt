// What no clause says, since no one knows what an operating system does: a call that fails once is
// told as a fault, though the next would have worked, and one that is interrupted is made again.
use super::{StdSink, StdSource};
use crate::device::{Failed, Sink, Source};
use std::io;
use std::io::{ErrorKind, Read, Write};
use std::test::Fail;

/// A device that is interrupted so many times, then fails once where `fault` says how, and then
/// works.
#[derive(Drop)]
struct Shaky<T: Drop> {
    inner: T,
    interruptions: u64,
    fault: Option<ErrorKind>,
}

impl<T: Drop> Shaky<T> {
    fn answer(&mut self) -> io::Result<()> {
        if self.interruptions > 0 {
            self.interruptions -= 1;
            return Err(io::Error::from(ErrorKind::Interrupted));
        }
        match self.fault.take() {
            Some(kind) => Err(io::Error::from(kind)),
            None => Ok(()),
        }
    }
}

impl<R: Read + Drop> Read for Shaky<R> {
    fn read(&mut self, buf: &mut [u8]) -> io::Result<usize> {
        self.answer()?;
        self.inner.read(buf)
    }
}

impl<W: Write + Drop> Write for Shaky<W> {
    fn write(&mut self, buf: &[u8]) -> io::Result<usize> {
        match self.answer() {
            // This is how a device may tell that it takes nothing now.
            Err(error) if error.kind() == ErrorKind::WriteZero => Ok(0),
            Err(error) => Err(error),
            Ok(()) => self.inner.write(buf),
        }
    }

    fn flush(&mut self) -> io::Result<()> {
        self.inner.flush()
    }
}

/// How often a device is interrupted, how it then fails, and how many faults that is.
const FAILURES: [(u64, Option<ErrorKind>, u64); 7] = [
    (0, None, 0),
    (999, None, 0),
    (1000, None, 1),
    (0, Some(ErrorKind::ConnectionReset), 1),
    (0, Some(ErrorKind::WouldBlock), 1),
    (0, Some(ErrorKind::WriteZero), 1),
    (2, Some(ErrorKind::Other), 1),
];

/// What the first call answers, what the second, and how many faults were counted then.
type Told = (Result<usize, Failed>, Result<usize, Failed>, u64);

fn told(faults: u64) -> Told {
    let first = if faults == 0 { Ok(4) } else { Err(Failed) };
    (first, Ok(4), faults)
}

#[test]
fn one_failed_read_is_one_fault(rt: HostRuntime) -> Result<(), Fail> {
    for (interruptions, fault, faults) in FAILURES {
        let mut source = StdSource::new(Shaky {
            inner: b"01234567".as_slice(),
            interruptions,
            fault,
        });
        let mut buf = [0u8; 4];
        let first = source.read(&mut buf);
        let second = source.read(&mut buf);
        assert_eq!(rt;
            (first, second, source.faults),
            told(faults),
            "{interruptions} {fault:?}"
        );
    }
    Ok(())
}

#[test]
fn one_failed_write_is_one_fault(rt: HostRuntime) -> Result<(), Fail> {
    for (interruptions, fault, faults) in FAILURES {
        let mut sink = StdSink::new(Shaky {
            inner: Vec::new(rt.alloc()),
            interruptions,
            fault,
        });
        let first = sink.write(b"0123");
        let second = sink.write(b"0123");
        assert_eq!(rt;
            (first, second, sink.faults),
            told(faults),
            "{interruptions} {fault:?}"
        );
    }
    Ok(())
}
