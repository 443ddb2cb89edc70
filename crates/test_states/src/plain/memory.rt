//! The plain machine without memory: what is made again answers as if nothing had been.
use super::cases::{Case, play_case};
use super::samples::{ask_again, new_space, secret, step_again};
use anyhow::Result;
use base::{Category, Data, Level, Meter, NoMemory, ObjectId};
use happy_calls::look::Look;
use happy_calls::samples::{
    boot_thread, in_root, is_data, is_done, is_number, is_object, label_with, new_container,
    new_segment, new_thread, no_entry, plain,
};
use plain_core::{Call, NewCopy, NewGate, PlainKernel, Query, Reply, run};
use std::alloc::Global;

/// Where an allocation is refused, the state before stands.
pub fn want(
    look: &mut Look,
    alloc: Global,
    kernel: &mut PlainKernel,
    meter: &mut Meter,
) -> Result<()> {
    let made = step_again(kernel, &Call::CatCreate, meter)?;
    look.sees(matches!(made, Reply::Category(Category(1))));
    let segment = new_segment(secret());
    look.sees(is_object(step_again(kernel, &segment, meter)?, 4));
    look.sees(is_object(step_again(kernel, &segment, meter)?, 5));
    let refused = step_again(kernel, &new_container(60), meter)?;
    look.sees(is_number(refused, 12));
    let write = Call::SegmentWrite {
        entry: in_root(5),
        offset: 0,
        data: Data::from_slice(b"ok"),
    };
    let boot = boot_thread();
    let calls = [(boot, write), (boot, Call::CatCreate)];
    let replies = run_again(alloc, kernel, &calls)?;
    look.sees(matches!(
        replies.as_slice(),
        [Reply::Done, Reply::Category(Category(2))]
    ));
    look.sees(sizes_again(kernel, meter)? == (5, 5, 25));
    Ok(())
}

fn want_of_memory_changes_nothing(alloc: Global, look: &mut Look) -> Result<()> {
    look.part("want_of_memory_changes_nothing");
    play_case(look, alloc, Case::WantedMemory)
}

/// What calls answer, made once more where there was no memory.
fn run_again(
    alloc: Global,
    kernel: &mut PlainKernel,
    calls: &[(ObjectId, Call)],
) -> Result<Vec<Reply>, NoMemory> {
    match run(alloc, kernel, calls) {
        Ok(replies) => Ok(replies),
        Err(_) => run(alloc, kernel, calls),
    }
}

/// How many live objects, labels and orders the tables have.
fn sizes(kernel: &PlainKernel, meter: &mut Meter) -> Result<(usize, usize, usize), NoMemory> {
    let tables = kernel.tables(meter)?;
    Ok((tables.live.len(), tables.labels.len(), tables.orders.len()))
}

fn sizes_again(kernel: &PlainKernel, meter: &mut Meter) -> Result<(usize, usize, usize), NoMemory> {
    match sizes(kernel, meter) {
        Ok(found) => Ok(found),
        Err(_) => sizes(kernel, meter),
    }
}

/// A call that copies segment 5 into the root.
fn copied() -> Call {
    Call::SegmentCopy(NewCopy {
        container: ObjectId::root(),
        label: plain(),
        quota: 2,
        source: in_root(5),
    })
}

/// A call that makes a gate that owns category 1.
fn new_gate() -> Call {
    Call::GateCreate(NewGate {
        container: ObjectId::root(),
        label: label_with(Level::Star, Level::L1),
        quota: 1,
        clearance: label_with(Level::L3, Level::L1),
        space: no_entry(),
        entry_point: 7,
        closure: 9,
    })
}

/// A call that gives a segment of the root so many pages.
fn resize(number: u64, pages: u32) -> Call {
    Call::SegmentResize {
        entry: in_root(number),
        pages,
    }
}

/// A call that sends the device a packet of one byte.
fn send(byte: u8) -> Call {
    Call::DevSend {
        entry: in_root(3),
        data: Data::from_slice(&[byte]),
    }
}

/// A call that takes the device's first packet.
fn receive() -> Call {
    Call::DevRecv { entry: in_root(3) }
}

fn fix(number: u64) -> Call {
    Call::SetFixed {
        entry: in_root(number),
    }
}

fn link_in(container: u64, number: u64) -> Call {
    Call::Link {
        target: ObjectId::new(container),
        entry: in_root(number),
    }
}

fn take_out(number: u64) -> Call {
    Call::Unref {
        entry: in_root(number),
    }
}

/// The last byte of a segment of one page.
fn last_byte(number: u64) -> Query {
    Query::SegmentRead {
        entry: in_root(number),
        offset: 255,
        count: 1,
    }
}

/// The list of the root.
fn listing() -> Query {
    Query::ContainerList {
        container: ObjectId::root(),
        from: 0,
    }
}

/// Whether a call makes the object of this number.
fn makes(
    kernel: &mut PlainKernel,
    call: Call,
    number: u64,
    meter: &mut Meter,
) -> Result<bool, NoMemory> {
    match step_again(kernel, &call, meter) {
        Ok(reply) => Ok(is_object(reply, number)),
        Err(error) => Err(error),
    }
}

/// Whether a call is made, and answers nothing more.
fn does(kernel: &mut PlainKernel, call: Call, meter: &mut Meter) -> Result<bool, NoMemory> {
    match step_again(kernel, &call, meter) {
        Ok(reply) => Ok(is_done(reply)),
        Err(error) => Err(error),
    }
}

/// Whether the thread gets category 1.
fn owns(kernel: &mut PlainKernel, meter: &mut Meter) -> Result<bool, NoMemory> {
    match step_again(kernel, &Call::CatCreate, meter) {
        Ok(reply) => Ok(matches!(reply, Reply::Category(Category(1)))),
        Err(error) => Err(error),
    }
}

/// Whether the device has a packet of this byte.
fn receives(kernel: &mut PlainKernel, byte: u8, meter: &mut Meter) -> Result<bool, NoMemory> {
    match step_again(kernel, &receive(), meter) {
        Ok(reply) => Ok(is_data(reply, &[byte])),
        Err(error) => Err(error),
    }
}

/// Whether the last byte of a segment of one page is 0.
fn ends_in_zero(kernel: &PlainKernel, number: u64, meter: &mut Meter) -> Result<bool, NoMemory> {
    match ask_again(kernel, &last_byte(number), meter) {
        Ok(reply) => Ok(is_data(reply, &[0])),
        Err(error) => Err(error),
    }
}

/// Whether the root lists so many objects.
fn lists(kernel: &PlainKernel, wanted: u64, meter: &mut Meter) -> Result<bool, NoMemory> {
    match ask_again(kernel, &listing(), meter) {
        Ok(Reply::Listed { count, .. }) => Ok(count == wanted),
        Ok(_) => Ok(false),
        Err(error) => Err(error),
    }
}

/// Whether the objects 4 to 9 are made, one of each kind and a copy.
fn are_made(kernel: &mut PlainKernel, meter: &mut Meter) -> Result<bool, NoMemory> {
    Ok(
        makes(kernel, new_container(8), 4, meter)?
            && makes(kernel, new_segment(plain()), 5, meter)?
            && makes(kernel, copied(), 6, meter)?
            && makes(kernel, new_space(), 7, meter)?
            && makes(kernel, new_thread(), 8, meter)?
            && makes(kernel, new_gate(), 9, meter)?,
    )
}

/// Whether the device gets a second link, in container 4, and a packet, segment 6 loses its page
/// and gets it again, and container 4 goes.
fn are_changed(kernel: &mut PlainKernel, meter: &mut Meter) -> Result<bool, NoMemory> {
    Ok(
        does(kernel, fix(3), meter)?
            && does(kernel, link_in(4, 3), meter)?
            && does(kernel, send(5), meter)?
            && does(kernel, resize(6, 0), meter)?
            && does(kernel, resize(6, 1), meter)?
            && does(kernel, take_out(4), meter)?,
    )
}

/// Each call that takes memory, and reads of what they left.
pub fn want_calls(look: &mut Look, kernel: &mut PlainKernel, meter: &mut Meter) -> Result<()> {
    look.sees(owns(kernel, meter)?);
    look.sees(are_made(kernel, meter)?);
    look.sees(are_changed(kernel, meter)?);
    look.sees(ends_in_zero(kernel, 6, meter)?);
    look.sees(lists(kernel, 7, meter)?);
    look.sees(receives(kernel, 5, meter)?);
    Ok(())
}

fn want_of_memory_makes_no_call_by_half(alloc: Global, look: &mut Look) -> Result<()> {
    look.part("want_of_memory_makes_no_call_by_half");
    play_case(look, alloc, Case::WantedCalls)
}

/// Plays what is made again where there was no memory.
pub fn again(alloc: Global, look: &mut Look) -> Result<()> {
    want_of_memory_changes_nothing(alloc, look)?;
    want_of_memory_makes_no_call_by_half(alloc, look)
}
