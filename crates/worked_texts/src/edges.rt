// Sources, sinks and the cursor over a text.

ghost use Rattle.std.specs.Prelude.{◌<◌};

use crate::same::{same, same_in};
use grammar::{Cursor, Stuck};
use io_edge::{
    CountSink, Feed, FeedFault, MemSink, MemSource, QuietSource, ReadSource, WriteFault, WriteSink,
    put_u64, write_all, write_parts,
};
use std::alloc::Global;
use std::io;
use std::io::Read;
use std::process::Abort;
use std::test::Fail;

// A reader that gives one byte and then fails.
#[derive(Drop)]
struct Breaking {
    is_broken: bool,
}

impl Read for Breaking {
    fn read(&mut self, buf: &mut [u8]) -> io::Result<usize> {
        if self.is_broken || buf.is_empty() {
            return Err(io::Error::from(io::ErrorKind::NotFound));
        }
        self.is_broken = true;
        buf[0] = b'a';
        Ok(1)
    }
}

#[test]
fn a_reader_is_read_to_its_end(rt: HostRuntime) -> Result<(), Fail> {
    let mut feed = Feed::new(rt.alloc())?;
    let mut whole = ReadSource::new(b"ab".as_slice());
    same(&rt, feed.byte(&mut whole), Ok(Some(b'a')));
    same(&rt, feed.byte(&mut whole), Ok(Some(b'b')));
    same(&rt, feed.byte(&mut whole), Ok(None));
    same(&rt, whole.faults, 0);
    Ok(())
}

#[test]
fn a_reader_is_read_to_its_fault(rt: HostRuntime) -> Result<(), Fail> {
    let mut feed = Feed::new(rt.alloc())?;
    let mut broken = ReadSource::new(Breaking { is_broken: false });
    same(&rt, feed.byte(&mut broken), Ok(Some(b'a')));
    same(&rt, feed.byte(&mut broken), Err(FeedFault::ReadFault));
    same(&rt, feed.byte(&mut broken), Err(FeedFault::ReadFault));
    same(&rt, broken.faults, 2);
    Ok(())
}

#[test]
fn a_writer_takes_all(rt: HostRuntime) -> Result<(), Fail> {
    let mut sink = WriteSink::new(Vec::new(rt.alloc()));
    same(&rt, write_parts(&mut sink, &[b"one ", b"two"]), Ok(()));
    same(&rt, put_u64(&mut sink, 18446744073709551615), Ok(()));
    let written = b"one two18446744073709551615".as_slice();
    same(&rt, sink.inner.as_slice(), written);
    same(&rt, sink.faults, 0);
    Ok(())
}

#[test]
fn a_writer_that_takes_nothing_is_full(rt: HostRuntime) {
    let mut room = [0; 3];
    let mut full = WriteSink::new(room.as_mut_slice());
    same(&rt, write_all(&mut full, b"four"), Err(WriteFault));
    same(&rt, full.faults, 1);
}

// Over steps, the bytes are the same.
fn read_in_steps(rt: &impl Abort, alloc: Global, step: u64) -> Result<(), Fail>
    requires { 0 < step }
{
    let mut feed = Feed::new(alloc)?;
    let mut source = MemSource::new(b"ab".to_vec(alloc)?, step, Vec::new(alloc));
    same_in(rt, feed.byte(&mut source), Ok(Some(b'a')), step);
    same_in(rt, feed.byte(&mut source), Ok(Some(b'b')), step);
    same_in(rt, feed.byte(&mut source), Ok(None), step);
    Ok(())
}

#[test]
fn a_source_that_has_failed_fails(rt: HostRuntime) -> Result<(), Fail> {
    let alloc = rt.alloc();
    let mut feed = Feed::new(alloc)?;
    let mut source = MemSource::new(b"ab".to_vec(alloc)?, 4096, vec![in alloc; 0]?);
    same(&rt, feed.byte(&mut source), Err(FeedFault::ReadFault));
    same(&rt, feed.byte(&mut source), Err(FeedFault::ReadFault));
    Ok(())
}

#[test]
fn sources_in_memory(rt: HostRuntime) -> Result<(), Fail> {
    for step in [1, 2, 4096] {
        read_in_steps(&rt, rt.alloc(), step)?;
    }
    Ok(())
}

#[test]
fn quiet_sources(rt: HostRuntime) -> Result<(), Fail> {
    let alloc = rt.alloc();
    let mut feed = Feed::new(alloc)?;
    let mut quiet = QuietSource::new(b"a".to_vec(alloc)?);
    same(&rt, feed.byte(&mut quiet), Ok(Some(b'a')));
    same(&rt, feed.byte(&mut quiet), Ok(None));
    Ok(())
}

#[test]
fn sinks_in_memory(rt: HostRuntime) -> Result<(), Fail> {
    let alloc = rt.alloc();
    let mut sink = MemSink::new(alloc, 3, vec![in alloc; 1]?)?;
    same(&rt, write_all(&mut sink, b"ab"), Ok(()));
    same(&rt, write_all(&mut sink, b"cd"), Err(WriteFault));
    same(&rt, write_all(&mut sink, b"cd"), Err(WriteFault));
    same(&rt, sink.bytes(), b"ab".as_slice());
    let mut full = MemSink::new(alloc, 3, Vec::new(alloc))?;
    same(&rt, write_all(&mut full, b"abcd"), Err(WriteFault));
    same(&rt, full.bytes(), b"abc".as_slice());
    Ok(())
}

#[test]
fn sinks_that_count(rt: HostRuntime) {
    let mut count = CountSink::new();
    same(&rt, write_all(&mut count, b"abcd"), Ok(()));
    same(&rt, count.count, 4);
}

#[test]
fn a_cursor_reads_a_text(rt: HostRuntime) {
    let mut cursor = Cursor::new(b"rr:120 x");
    let words = [(b"seq".as_slice(), 1), (b"rr:".as_slice(), 2)];
    same(&rt, cursor.one_of(&words), Ok(2));
    same(&rt, cursor.number(1000), Ok(120));
    same(&rt, cursor.optional_number(b" lanes ", 9, 1), 1);
    same(&rt, cursor.end(), Err(Stuck { left: 1 }));
}
