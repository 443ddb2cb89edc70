//! Texts that are written whole, or by their beginnings, and inputs that fail amid them.
use crate::breaking::{Breaking, Holding, Portions};
use anyhow::{Result, bail};
use happy_calls::look::{Look, agree};
use program_io::{Counted, Fault, PutFault, Sink, bytes_of, deliver, input_fault, put};
use std::alloc::Global;
use std::io;
use std::io::{ErrorKind, Write};

/// 30 bytes: four writes of seven, and one of two.
const TEXT: &[u8] = b"boot 1: cat #1\nboot 2: id #4\n ";

/// How a text's writing ends where its kth write fails, with what was written and how many writes failed.
fn put_before(alloc: Global, writes: u32) -> (Result<(), PutFault>, Vec<u8>, u64) {
    let mut sink = Counted::new(Portions::before_failing(alloc, writes));
    let ended = put(&mut sink, TEXT);
    let failures = sink.failed_writes();
    (ended, sink.into_inner().taken, failures)
}

fn each_failing_write_leaves_a_beginning(alloc: Global, look: &mut Look) -> Result<()> {
    look.part("each_failing_write_leaves_a_beginning");
    for writes in 0..5u32 {
        let (ended, taken, failures) = put_before(alloc, writes);
        let written = writes as usize * 7;
        look.sees(ended == Err(PutFault { written }) && failures == 1);
        look.sees(taken.as_slice() == &TEXT[..written]);
    }
    for writes in 5..7u32 {
        let (ended, taken, failures) = put_before(alloc, writes);
        look.sees(ended.is_ok() && failures == 0 && taken.as_slice() == TEXT);
    }
    Ok(())
}

/// A writer that is interrupted so often before each write, and takes a byte a write.
#[derive(Drop)]
struct Interrupted {
    times: u32,
    left: u32,
    taken: usize,
}

impl Interrupted {
    fn so_often(times: u32) -> Interrupted {
        Interrupted {
            times,
            left: times,
            taken: 0,
        }
    }
}

impl Write for Interrupted {
    fn write(&mut self, bytes: &[u8]) -> io::Result<usize> {
        if self.left > 0 {
            self.left -= 1;
            return Err(io::Error::from(ErrorKind::Interrupted));
        }
        self.left = self.times;
        let count = bytes.len().min(1);
        self.taken = self.taken.saturating_add(count);
        Ok(count)
    }

    fn flush(&mut self) -> io::Result<()> {
        Ok(())
    }
}

fn an_interrupted_write_is_tried_a_hundred_times(alloc: Global, look: &mut Look) -> Result<()> {
    look.part("an_interrupted_write_is_tried_a_hundred_times");
    let mut sink = Counted::new(Interrupted::so_often(100));
    look.sees(put(&mut sink, b"ok").is_ok());
    look.sees(sink.failed_writes() == 200 && sink.into_inner().taken == 2);
    let mut sink = Counted::new(Interrupted::so_often(101));
    look.sees(put(&mut sink, b"ok") == Err(PutFault { written: 0 }));
    look.sees(sink.failed_writes() == 101 && sink.into_inner().taken == 0);
    Ok(())
}

/// A writer that takes nothing.
#[derive(Drop)]
struct Full;

impl Write for Full {
    fn write(&mut self, _bytes: &[u8]) -> io::Result<usize> {
        Ok(0)
    }

    fn flush(&mut self) -> io::Result<()> {
        Ok(())
    }
}

fn a_write_that_takes_nothing_failed(alloc: Global, look: &mut Look) -> Result<()> {
    look.part("a_write_that_takes_nothing_failed");
    let mut sink = Counted::new(Full);
    look.sees(put(&mut sink, b"").is_ok() && sink.failed_writes() == 0);
    look.sees(put(&mut sink, b"ok") == Err(PutFault { written: 0 }) && sink.failed_writes() == 1);
    Ok(())
}

fn what_is_delivered_is_handed_on(alloc: Global, look: &mut Look) -> Result<()> {
    look.part("what_is_delivered_is_handed_on");
    let mut sink = Counted::new(Holding::nothing(alloc));
    look.sees(put(&mut sink, b"ok").is_ok());
    look.sees(deliver(&mut sink, TEXT).is_ok());
    look.sees(sink.into_inner().handed.ends_with(TEXT));
    let mut sink = Counted::new(Portions::before_failing(alloc, 2));
    look.sees(deliver(&mut sink, TEXT) == Err(Fault::Output));
    Ok(())
}

fn input_is_read_whole(alloc: Global, look: &mut Look) -> Result<()> {
    look.part("input_is_read_whole");
    let mut input = b"c = boot: cat_create\n".as_slice();
    let Ok(bytes) = bytes_of(alloc, &mut input) else {
        bail!("no bytes");
    };
    look.sees(agree(bytes.as_slice(), b"c = boot: cat_create\n".as_slice()));
    look.sees(bytes_of(alloc, &mut input).is_ok());
    for (kind, fault) in [
        (ErrorKind::Other, Fault::Input),
        (ErrorKind::UnexpectedEof, Fault::Input),
        (ErrorKind::OutOfMemory, Fault::Memory),
    ] {
        let mut input = Breaking::by(kind);
        look.sees(bytes_of(alloc, &mut input).err() == Some(fault));
        look.sees(input_fault(&io::Error::from(kind)) == fault);
    }
    Ok(())
}

/// Plays what there is memory for.
pub fn play(alloc: Global, look: &mut Look) -> Result<()> {
    each_failing_write_leaves_a_beginning(alloc, look)?;
    an_interrupted_write_is_tried_a_hundred_times(alloc, look)?;
    a_write_that_takes_nothing_failed(alloc, look)?;
    what_is_delivered_is_handed_on(alloc, look)?;
    input_is_read_whole(alloc, look)
}
