use ports::{
    MemSink, MemSource, ReadAllError, Sink, Source, StdSink, StdSource, SureSink, SureSource,
    WriteFault, read_all, write_all,
};
use std::io::{self, ErrorKind, Read, Write};
use std::test::Fail;

/// A reader that gives one byte a call, and fails at its third call.
#[derive(Drop)]
struct Flaky {
    calls: u8,
}

impl Read for Flaky {
    fn read(&mut self, buf: &mut [u8]) -> io::Result<usize> {
        self.calls = self.calls.saturating_add(1);
        if self.calls == 3 {
            return Err(io::Error::from(ErrorKind::TimedOut));
        }
        match buf.first_mut() {
            Some(first) => {
                *first = b'x';
                Ok(1)
            }
            None => Ok(0),
        }
    }
}

/// A writer that takes one byte a call, and nothing at its third call.
impl Write for Flaky {
    fn write(&mut self, buf: &[u8]) -> io::Result<usize> {
        self.calls = self.calls.saturating_add(1);
        Ok(buf.len().min(usize::from(self.calls != 3)))
    }

    fn flush(&mut self) -> io::Result<()> {
        Ok(())
    }
}

#[test]
fn all_of_a_source_is_read(rt: HostRuntime) -> Result<(), Fail> {
    let alloc = rt.alloc();
    let long = vec![in alloc; 7u8; 200_000]?;
    let mut sure = SureSource::new(long.clone()?);
    assert_eq!(rt;
        read_all(alloc, &mut sure, 200_000)?.as_slice(),
        long.as_slice()
    );
    let mut too_long = SureSource::new(long.clone()?);
    let refused = read_all(alloc, &mut too_long, 199_999);
    assert_eq!(rt; refused.err(), Some(ReadAllError::TooLong));
    let mut failing = MemSource::new(long, Vec::from_slice(alloc, &[2])?);
    assert_eq!(rt;
        read_all(alloc, &mut failing, 200_000).err(),
        Some(ReadAllError::Failed)
    );
    Ok(())
}

#[test]
fn a_source_in_memory_fails_at_its_calls(rt: HostRuntime) -> Result<(), Fail> {
    let alloc = rt.alloc();
    let mut src = MemSource::new(
        Vec::from_slice(alloc, b"abcde")?,
        Vec::from_slice(alloc, &[1])?,
    );
    let mut buf = [0; 2];
    assert_eq!(rt; src.read(&mut buf).ok(), Some(2));
    assert_eq!(rt; buf, [b'a', b'b']);
    assert_eq!(rt; src.read(&mut buf).ok(), None);
    assert_eq!(rt; src.read(&mut buf).ok(), Some(2));
    assert_eq!(rt; buf, [b'c', b'd']);
    assert_eq!(rt; src.read(&mut buf).ok(), Some(1));
    assert_eq!(rt; src.read(&mut buf).ok(), Some(0));
    Ok(())
}

#[test]
fn a_sink_in_memory_fails_where_it_is_full(rt: HostRuntime) -> Result<(), Fail> {
    let alloc = rt.alloc();
    let mut sink = MemSink::new(alloc, Vec::from_slice(alloc, &[1])?, 5)?;
    assert_eq!(rt; sink.write(b"abc").ok(), Some(3));
    assert_eq!(rt; sink.write(b"d").ok(), None);
    assert_eq!(rt; write_all(&mut sink, b"def"), Err(WriteFault));
    assert_eq!(rt; sink.as_slice(), b"abcde".as_slice());
    Ok(())
}

#[test]
fn a_sink_over_its_room_takes_all(rt: HostRuntime) -> Result<(), Fail> {
    let alloc = rt.alloc();
    let mut sink = SureSink::new(vec![in alloc; 0u8; 5]?);
    assert_eq!(rt; write_all(&mut sink, b"abc"), Ok(()));
    assert_eq!(rt; write_all(&mut sink, b"de"), Ok(()));
    assert_eq!(rt; sink.held(), Some(b"abcde".as_slice()));
    assert_eq!(rt; write_all(&mut sink, b"f"), Ok(()));
    assert_eq!(rt; sink.held(), None);
    Ok(())
}

#[test]
fn streams_of_the_system_may_fail_on_the_way(rt: HostRuntime) -> Result<(), Fail> {
    let mut src = StdSource::new(Flaky { calls: 0 });
    assert_eq!(rt;
        read_all(rt.alloc(), &mut src, 100).err(),
        Some(ReadAllError::Failed)
    );
    let mut sink = StdSink::new(Flaky { calls: 0 });
    assert_eq!(rt; write_all(&mut sink, b"abc"), Err(WriteFault));
    assert_eq!(rt; write_all(&mut sink, b"abc"), Ok(()));
    Ok(())
}
