//! What notes carry from seat to seat.
use super::cases::{Case, play_case};
use super::samples::{
    first_byte, is_at, length_of_read, make_two, open_segment, passed, seated, submitted, write,
};
use anyhow::Result;
use base::{Data, ObjectId};
use happy_calls::look::Look;
use happy_calls::samples::{boot_thread, new_thread};
use published_copy::{Naming, Note, Seat, Shared};
use std::sync::{Mutex, Wait};
use std::thread;
use std::thread::Threads;

/// What a seat that learns a note reads then, in its own thread.
fn learn_and_read<B: Naming, R: Wait>(
    rt: &R,
    reader: &Mutex<Seat<'_, B>>,
    note: &Note<B>,
) -> Option<u8> {
    let mut seat = reader.lock(rt);
    seat.learn(note);
    first_byte(&mut seat, 5)
}

fn learn_there<B: Naming + Send + Sync, R: Threads + Wait + Sync>(
    rt: &R,
    reader: &Mutex<Seat<'_, B>>,
    note: &Note<B>,
) -> Option<u8> {
    thread::scope(thread::scope_env(), rt, |scope| {
        match scope.spawn(move || learn_and_read(rt, reader, note)) {
            Ok(handle) => handle.join(rt),
            Err(_) => None,
        }
    })
}

/// Whether one who learns what the boot thread's seat has once it wrote a byte reads that byte.
fn is_told<B: Naming + Send + Sync, R: Threads + Wait + Sync>(
    rt: &R,
    boot: &mut Seat<'_, B>,
    reader: &Mutex<Seat<'_, B>>,
    byte: u8,
) -> bool {
    match submitted(rt, boot, &write(5, Data::from_slice(&[byte]))) {
        Ok(_) => learn_there(rt, reader, &boot.note()) == Some(byte),
        Err(_) => false,
    }
}

fn tell_by<B: Naming + Send + Sync, R: Threads + Wait + Sync>(
    rt: &R,
    look: &mut Look,
    shared: &Shared<B>,
    boot: &mut Seat<'_, B>,
) -> Result<()> {
    let reader = Mutex::new(seated(rt, shared, ObjectId::new(4))?);
    look.sees(is_told(rt, boot, &reader, b'A'));
    look.sees(is_told(rt, boot, &reader, b'B'));
    Ok(())
}

/// Who learns a note in a thread of its own reads what it has.
pub fn tell_at<B: Naming + Send + Sync, R: Threads + Wait + Sync>(
    rt: &R,
    look: &mut Look,
    shared: &Shared<B>,
) -> Result<()> {
    let mut boot = seated(rt, shared, boot_thread())?;
    make_two(rt, &mut boot)?;
    tell_by(rt, look, shared, &mut boot)
}

fn who_learns_a_note_reads_what_it_has<R: Threads + Wait + Sync + AllocGlobal>(
    rt: &R,
    look: &mut Look,
) -> Result<()> {
    look.part("who_learns_a_note_reads_what_it_has");
    play_case(rt, look, rt.alloc(), Case::Notes)
}

// A note has what its seat submitted and learnt, and not what it saw by reads alone; and who learns
// it has seen as much, and no less than before.
fn hand_on_to<B: Naming, R: Wait>(
    rt: &R,
    look: &mut Look,
    boot: &mut Seat<'_, B>,
    one: &mut Seat<'_, B>,
    other: &mut Seat<'_, B>,
) -> Result<()> {
    let early = boot.note();
    submitted(rt, boot, &open_segment())?;
    look.sees(length_of_read(one, 6) == Some(3));
    other.learn(&one.note());
    one.learn(&boot.note());
    one.learn(&early);
    Ok(())
}

/// The seats of the threads that were made, between which notes are handed on.
fn hand_on_by<B: Naming, R: Wait>(
    rt: &R,
    look: &mut Look,
    shared: &Shared<B>,
    boot: &mut Seat<'_, B>,
) -> Result<()> {
    let mut one = seated(rt, shared, ObjectId::new(4))?;
    let mut other = seated(rt, shared, ObjectId::new(5))?;
    hand_on_to(rt, look, boot, &mut one, &mut other)?;
    look.sees(is_at(&passed(other), 1, 2));
    look.sees(is_at(&passed(one), 1, 3));
    Ok(())
}

/// The boot thread makes threads 4 and 5.
fn make_threads<B: Naming, R: Wait>(rt: &R, boot: &mut Seat<'_, B>) -> Result<()> {
    submitted(rt, boot, &new_thread())?;
    submitted(rt, boot, &new_thread())?;
    Ok(())
}

/// Notes are handed on from seat to seat.
pub fn hand_on_at<B: Naming, R: Wait>(rt: &R, look: &mut Look, shared: &Shared<B>) -> Result<()> {
    let mut boot = seated(rt, shared, boot_thread())?;
    make_threads(rt, &mut boot)?;
    hand_on_by(rt, look, shared, &mut boot)
}

fn notes_have_no_reads<R: Threads + Wait + Sync + AllocGlobal>(
    rt: &R,
    look: &mut Look,
) -> Result<()> {
    look.part("notes_have_no_reads");
    play_case(rt, look, rt.alloc(), Case::NotesHandedOn)
}

/// Plays what there is memory for.
pub fn play<R: Threads + Wait + Sync + AllocGlobal>(rt: &R, look: &mut Look) -> Result<()> {
    who_learns_a_note_reads_what_it_has(rt, look)?;
    notes_have_no_reads(rt, look)
}
