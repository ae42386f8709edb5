// The real inputs and sinks: files, and calls that are interrupted.
use outside::{Inputs, ReadFailed, RealInputs, RealSink, Sink, WriteFailed, read_some};
use std::alloc::AllocError;
use std::io;
use std::io::{ErrorKind, Read, Write};

// A reader of zeros, and a writer that takes a few bytes a call: each is interrupted some times
// first.
#[derive(Drop)]
struct Fitful {
    interrupts: u32,
    most: usize,
}

impl Fitful {
    // Whether one more call is interrupted.
    fn interrupted(&mut self) -> io::Result<()> {
        if self.interrupts > 0 {
            self.interrupts -= 1;
            return Err(io::Error::from(ErrorKind::Interrupted));
        }
        Ok(())
    }
}

impl Read for Fitful {
    fn read(&mut self, buf: &mut [u8]) -> io::Result<usize> {
        self.interrupted()?;
        Ok(self.most.min(buf.len()))
    }
}

impl Write for Fitful {
    fn write(&mut self, buf: &[u8]) -> io::Result<usize> {
        self.interrupted()?;
        Ok(self.most.min(buf.len()))
    }

    fn flush(&mut self) -> io::Result<()> {
        self.interrupted()
    }
}

/// A call that is interrupted is repeated up to 1,000 times.
#[test]
fn interrupted_reads_are_repeated(rt: HostRuntime) {
    for (interrupts, want) in [(0, Ok(4)), (1000, Ok(4)), (1001, Err(ReadFailed))] {
        let mut source = Fitful {
            interrupts,
            most: 4,
        };
        assert!(rt; read_some(&mut source, &mut [1u8; 4]) == want);
    }
}

/// So is one of a sink, which fails where the writer takes nothing.
#[test]
fn interrupted_writes_are_repeated(rt: HostRuntime) {
    for (interrupts, most, want) in [
        (0, 3, Ok(3)),
        (0, 9, Ok(5)),
        (1000, 2, Ok(2)),
        (1001, 2, Err(WriteFailed)),
        (0, 0, Err(WriteFailed)),
    ] {
        let mut sink = RealSink::new(Fitful { interrupts, most });
        assert!(rt; sink.write(b"abcde") == want);
        let mut sink = RealSink::new(Fitful { interrupts, most });
        assert!(rt; sink.flush().is_ok() == (interrupts < 1001));
        assert!(rt; sink.write(&[]) == Ok(0));
    }
}

/// A file is read, a folder opens and its first read fails, and what is not there does not open.
#[test]
fn files_are_read(rt: HostRuntime) -> Result<(), AllocError> {
    let mut inputs = RealInputs::new(&rt);
    for (name, opens, want) in [
        ("/dev/zero", true, Ok(3)),
        ("/dev/null", true, Ok(0)),
        (".", true, Err(ReadFailed)),
        ("/dev/null/none", false, Ok(0)),
    ] {
        let name = String::from_str(rt.alloc(), name)?;
        assert!(rt; inputs.select(Some(name)).is_ok() == opens);
        assert!(rt; inputs.read(&mut [1u8; 3]) == want);
        assert!(rt; want.is_ok() || inputs.read(&mut [1u8; 3]) == Ok(0));
    }
    assert!(rt; inputs.select(None).is_ok());
    Ok(())
}
