// A reader that fails between two pieces of a text, and a writer that takes a text in pieces and fails in the midst of it.
use lift_io::{Failed, Source, StdSink, StdSource, put_all};
use std::io;
use std::io::{ErrorKind, Read, Write};
use std::test::Fail;

// A reader that fails at its second call.
#[derive(Drop)]
struct FailsOnce<T> {
    inner: T,
    calls: u32,
}

impl<T: Read> Read for FailsOnce<T> {
    fn read(&mut self, buf: &mut [u8]) -> io::Result<usize> {
        self.calls = self.calls.saturating_add(1);
        if self.calls == 2 {
            return Err(io::Error::from(ErrorKind::Other));
        }
        self.inner.read(buf)
    }
}

// A writer that takes at most three bytes at a call, and fails at its third.
#[derive(Drop)]
struct Narrow<T> {
    inner: T,
    calls: u32,
}

impl<T: Write> Write for Narrow<T> {
    fn write(&mut self, bytes: &[u8]) -> io::Result<usize> {
        self.calls = self.calls.saturating_add(1);
        if self.calls == 3 {
            return Err(io::Error::from(ErrorKind::Other));
        }
        let count = bytes.len().min(3);
        self.inner.write(&bytes[..count])
    }

    fn flush(&mut self) -> io::Result<()> {
        Ok(())
    }
}

// One read of two bytes by the trait's own call.
fn two_bytes<S: Source>(source: &mut S) -> Result<(usize, [u8; 2]), Failed> {
    let mut buf = [0; 2];
    let count = source.read(&mut buf)?;
    Ok((count, buf))
}

#[test]
fn std_source_gives_what_its_reader_gives(rt: HostRuntime) {
    let mut source = StdSource::of(FailsOnce {
        inner: b"off".as_slice(),
        calls: 0,
    });
    let first = two_bytes(&mut source);
    let second = two_bytes(&mut source);
    let third = two_bytes(&mut source);
    assert_eq!(rt;
        (first, second, third),
        (Ok((2, *b"of")), Err(Failed), Ok((1, *b"f\0")))
    );
}

#[test]
fn std_sink_hands_on_what_it_is_handed(rt: HostRuntime) {
    let mut written = Vec::new(rt.alloc());
    let mut sink = StdSink::of(Narrow {
        inner: &mut written,
        calls: 0,
    });
    assert_eq!(rt; put_all(&mut sink, &[b"4", b"", b" full\n"]), Err(Failed));
    assert_eq!(rt; written.as_slice(), b"4 fu".as_slice());
}
