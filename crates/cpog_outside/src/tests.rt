use crate::{
    Failed, MemSink, MemSource, PlainSource, ReadAllFault, Sink, Source, StdSink, StdSource,
    WriteFault, read_all, write_all,
};
use std::io;
use std::io::{Read, Write};
use std::test::Fail;

#[test]
fn a_full_sink_fails(rt: HostRuntime) -> Result<(), Fail> {
    let alloc = rt.alloc();
    let mut sink = MemSink::new(alloc, 3, 2, Vec::new(alloc))?;
    assert_eq!(rt; write_all(&mut sink, b"abcde"), Err(WriteFault));
    assert_eq!(rt; sink.taken(), b"abc".as_slice());
    Ok(())
}

#[test]
fn a_source_fails_at_its_second_call(rt: HostRuntime) -> Result<(), Fail> {
    let alloc = rt.alloc();
    let mut source = MemSource::new(b"abcd".to_vec(alloc)?, 3, [2].to_vec(alloc)?);
    let mut buffer = [0; 8];
    assert_eq!(rt; source.read(&mut buffer), Ok(3));
    assert_eq!(rt; source.read(&mut buffer), Err(Failed));
    assert_eq!(rt;
        read_all(alloc, &mut source, 9)?.as_slice(),
        b"d".as_slice()
    );
    let mut source = MemSource::new(b"abcd".to_vec(alloc)?, 3, [2].to_vec(alloc)?);
    assert_eq!(rt;
        read_all(alloc, &mut source, 9).err(),
        Some(ReadAllFault::ReadFault)
    );
    Ok(())
}

#[test]
fn the_limit_is_the_last_length_that_is_read(rt: HostRuntime) -> Result<(), Fail> {
    let alloc = rt.alloc();
    let mut source = PlainSource::new(b"abcde".to_vec(alloc)?);
    assert_eq!(rt;
        read_all(alloc, &mut source, 5)?.as_slice(),
        b"abcde".as_slice()
    );
    let mut source = PlainSource::new(b"abcde".to_vec(alloc)?);
    assert_eq!(rt;
        read_all(alloc, &mut source, 4).err(),
        Some(ReadAllFault::TooLong)
    );
    Ok(())
}

// What a fake reader or writer does at its next call.
#[derive(Clone, Copy)]
enum Turn {
    Takes,
    TakesNone,
    Fails,
    FailsToFlush,
}

// A reader that gives one byte and a writer that takes one, or none, or fails.
#[derive(Drop)]
struct Fake(Turn);

impl Read for Fake {
    fn read(&mut self, buf: &mut [u8]) -> io::Result<usize> {
        match (self.0, buf.first_mut()) {
            (Turn::Takes, Some(place)) => {
                *place = b'a';
                self.0 = Turn::Fails;
                Ok(1)
            }
            (Turn::Fails, _) => Err(io::Error::from(io::ErrorKind::BrokenPipe)),
            _ => Ok(0),
        }
    }
}

impl Write for Fake {
    fn write(&mut self, buf: &[u8]) -> io::Result<usize> {
        match self.0 {
            Turn::TakesNone => Ok(0),
            Turn::Fails => Err(io::Error::from(io::ErrorKind::BrokenPipe)),
            _ => Ok(buf.len().min(1)),
        }
    }

    fn flush(&mut self) -> io::Result<()> {
        match self.0 {
            Turn::FailsToFlush => Err(io::Error::from(io::ErrorKind::BrokenPipe)),
            _ => Ok(()),
        }
    }
}

#[test]
fn standard_ends_answer_each_error(rt: HostRuntime) -> Result<(), Fail> {
    let mut buffer = [0; 8];
    let mut source = StdSource::new(Fake(Turn::Takes));
    assert_eq!(rt; source.read(&mut buffer), Ok(1));
    assert_eq!(rt; source.read(&mut buffer), Err(Failed));
    let mut sink = StdSink::new(Fake(Turn::Takes));
    assert_eq!(rt; sink.write(b"ab"), Ok(1));
    for turn in [Turn::TakesNone, Turn::Fails, Turn::FailsToFlush] {
        let mut sink = StdSink::new(Fake(turn));
        assert_eq!(rt; sink.write(b"ab"), Err(Failed));
    }
    Ok(())
}

// A writer that holds what it is given until it is flushed, and does one after the other alone.
#[derive(Drop)]
struct Holder {
    is_holding: bool,
}

impl Write for Holder {
    fn write(&mut self, buf: &[u8]) -> io::Result<usize> {
        if self.is_holding {
            return Err(io::Error::from(io::ErrorKind::BrokenPipe));
        }
        self.is_holding = true;
        Ok(buf.len())
    }

    fn flush(&mut self) -> io::Result<()> {
        if !self.is_holding {
            return Err(io::Error::from(io::ErrorKind::BrokenPipe));
        }
        self.is_holding = false;
        Ok(())
    }
}

#[test]
fn each_write_is_flushed_behind_it(rt: HostRuntime) -> Result<(), Fail> {
    let mut sink = StdSink::new(Holder { is_holding: false });
    assert_eq!(rt; sink.write(b"ab"), Ok(2));
    assert_eq!(rt; sink.write(b"c"), Ok(1));
    Ok(())
}
