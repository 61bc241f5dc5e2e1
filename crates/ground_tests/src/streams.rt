use sim_base::{Memory, ReadFault, ReaderIn, WriterOut, read_all, write_all_of};
use std::alloc::Global;
use std::io;
use std::io::{ErrorKind, Read, Write};
use std::process::Abort;
use std::test::Fail;

/// What happens at the second call, and at no other.
#[derive(Clone, Copy, Debug, PartialEq, Eq)]
enum Trouble {
    Nothing,
    Signal,
    Error,
    NoByte,
    RefusedFlush,
}

/// A reader and a writer that moves at most four bytes a call.
#[derive(Drop)]
struct Slow {
    bytes: Vec<u8>,
    at: usize,
    calls: u32,
    trouble: Trouble,
}

impl Slow {
    fn with(alloc: Global, text: &[u8], trouble: Trouble) -> Result<Slow, Fail> {
        Ok(Slow {
            bytes: Vec::from_slice(alloc, text)?,
            at: 0,
            calls: 0,
            trouble,
        })
    }

    /// Makes a call, and tells what happens at it.
    fn call(&mut self) -> Trouble {
        self.calls = self.calls.saturating_add(1);
        if self.calls == 2 {
            self.trouble
        } else {
            Trouble::Nothing
        }
    }
}

impl Read for Slow {
    fn read(&mut self, into: &mut [u8]) -> io::Result<usize> {
        match self.call() {
            Trouble::Signal => return Err(io::Error::from(ErrorKind::Interrupted)),
            Trouble::Error => return Err(io::Error::from(ErrorKind::BrokenPipe)),
            _ => {}
        }
        let rest = self.bytes.get(self.at..).unwrap_or(&[]);
        let count = rest.len().min(into.len()).min(4);
        into[..count].copy_from_slice(&rest[..count]);
        self.at = self.at.saturating_add(count);
        Ok(count)
    }
}

impl Write for Slow {
    fn write(&mut self, piece: &[u8]) -> io::Result<usize> {
        match self.call() {
            Trouble::Signal => return Err(io::Error::from(ErrorKind::Interrupted)),
            Trouble::Error => return Err(io::Error::from(ErrorKind::BrokenPipe)),
            Trouble::NoByte => return Ok(0),
            _ => {}
        }
        let count = piece.len().min(4);
        self.bytes.extend_from_slice(&piece[..count])?;
        Ok(count)
    }

    fn flush(&mut self) -> io::Result<()> {
        if self.calls == 2 && self.trouble == Trouble::RefusedFlush {
            return Err(io::Error::from(ErrorKind::BrokenPipe));
        }
        Ok(())
    }
}

/// So much is read of a reader with this trouble, and this is read after that.
fn reads<R: Abort + AllocGlobal>(
    rt: &R,
    trouble: Trouble,
    want: Result<usize, ReadFault>,
    rest: &[u8],
) -> Result<(), Fail> {
    let alloc = rt.alloc();
    let mut source = ReaderIn::new(Slow::with(alloc, b"abcdef", trouble)?);
    let all = read_all(alloc, &mut source, 9).map(|all| all.len());
    assert_eq!(rt; all, want, "{trouble:?}");
    let after = read_all(alloc, &mut source, 9).map_err(|_| Memory)?;
    assert_eq!(rt; after.as_slice(), rest, "{trouble:?}");
    Ok(())
}

#[test]
fn readers_are_sources(rt: HostRuntime) -> Result<(), Fail> {
    reads(&rt, Trouble::Nothing, Ok(6), b"")?;
    reads(&rt, Trouble::Signal, Ok(6), b"")?;
    reads(&rt, Trouble::Error, Err(ReadFault::Fault), b"ef")?;
    let mut text = ReaderIn::new(b"abc".as_slice());
    let all = read_all(rt.alloc(), &mut text, 3).map(|all| all.len());
    assert_eq!(rt; all, Ok(3));
    Ok(())
}

/// A text is so written to a writer with this trouble, and a second one whole; this is what it holds then.
fn writes<R: Abort + AllocGlobal>(
    rt: &R,
    trouble: Trouble,
    want: Result<(), usize>,
    held: &[u8],
) -> Result<(), Fail> {
    let mut slow = Slow::with(rt.alloc(), b"", trouble)?;
    let mut out = WriterOut::new(&mut slow);
    assert_eq!(rt; write_all_of(&mut out, b"abcdef"), want, "{trouble:?}");
    assert_eq!(rt; write_all_of(&mut out, b"gh"), Ok(()), "{trouble:?}");
    assert_eq!(rt; slow.bytes.as_slice(), held, "{trouble:?}");
    Ok(())
}

#[test]
fn writers_are_sinks(rt: HostRuntime) -> Result<(), Fail> {
    writes(&rt, Trouble::Nothing, Ok(()), b"abcdefgh")?;
    writes(&rt, Trouble::Signal, Ok(()), b"abcdefgh")?;
    writes(&rt, Trouble::Error, Err(4), b"abcdgh")?;
    writes(&rt, Trouble::NoByte, Err(4), b"abcdgh")?;
    writes(&rt, Trouble::RefusedFlush, Err(4), b"abcdefgh")
}
