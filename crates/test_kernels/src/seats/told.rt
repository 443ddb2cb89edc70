//! One history, as a writer, a reader and who has the book are told of it.
use super::cases::{Case, play_case};
use super::samples::{first_byte, make_two, passed, seated};
use anyhow::Result;
use base::{Meter, ObjectId};
use happy_calls::look::Look;
use happy_calls::samples::{boot_thread, new_thread};
use kernel_rules::{Call, Query, Reply};
use label_intern::LabelIx;
use one_history::{Looked, Round, RoundAnswers, RoundFault, told_by};
use published_copy::{Naming, SeatRefusal, Shared};
use std::alloc::Global;
use std::sync::Wait;
use std::thread::Threads;

/// Whether the writer made two categories as its first event and the journal's fourth, the reader was shown its own values, a page
/// is kept as what it uses, with the root as the first live id, and a stored label compares with itself.
fn is_told(told: &RoundAnswers) -> bool {
    matches!(
        told.receipt.replies.as_slice(),
        [Reply::Category(_), Reply::Category(_)]
    ) && (told.receipt.number, told.receipt.length) == (1, 4)
        && matches!(told.reply, Reply::Own { .. })
        && told.kept.used == Some(1)
        && told.kept.live == Some(ObjectId::root())
        && told.kept.shown.is_none()
        && told.kept.order.is_some()
}

/// The boot thread makes threads 4 and 6 and a segment 5, of which the threads have no seat yet.
fn make_threads<B: Naming, R: Wait>(rt: &R, shared: &Shared<B>) -> Result<()> {
    let mut boot = seated(rt, shared, boot_thread())?;
    make_two(rt, &mut boot)?;
    boot.submit(rt, &new_thread())?;
    Ok(())
}

/// A writer, a reader and who has the book are told of one history.
pub fn tell_at<B: Naming, R: Wait>(
    rt: &R,
    look: &mut Look,
    alloc: Global,
    shared: &Shared<B>,
) -> Result<()> {
    let mut meter = Meter::new(alloc)?;
    make_threads(rt, shared)?;
    let asked = Round {
        writer: ObjectId::new(4),
        calls: &[Call::CatCreate, Call::CatCreate],
        reader: ObjectId::new(6),
        query: &Query::SelfGet,
        looked: &Looked {
            object: ObjectId::new(6),
            slot: 0,
            place: 0,
            one: LabelIx(0),
            other: LabelIx(0),
        },
    };
    match told_by(rt, shared, &asked, &mut meter) {
        Ok(told) => look.sees(is_told(&told)),
        Err(_) => look.sees(false),
    }
    let again = told_by(rt, shared, &asked, &mut meter);
    look.sees(again.err() == Some(RoundFault::Seat(SeatRefusal::SeatTaken)));
    Ok(())
}

fn all_are_told_of_one_history<R: Threads + Wait + Sync + AllocGlobal>(
    rt: &R,
    look: &mut Look,
) -> Result<()> {
    look.part("all_are_told_of_one_history");
    play_case(rt, look, rt.alloc(), Case::OneHistory)
}

/// Of a journal, a pass and notes the longer has the shorter.
pub fn compare_at<B: Naming, R: Wait>(rt: &R, look: &mut Look, shared: &Shared<B>) -> Result<()> {
    let mut boot = seated(rt, shared, boot_thread())?;
    let early = boot.note();
    make_two(rt, &mut boot)?;
    let late = boot.note();
    boot.told_begins_seen();
    look.sees(late.has(&early) && !early.has(&late) && late.length() == 2);
    look.sees(first_byte(&mut boot, 5) == Some(0));
    let pass = passed(boot);
    let book = shared.book(rt);
    look.sees(pass.has(&late) && book.has(&late) && book.has_seen(&pass));
    Ok(())
}

fn the_longer_of_two_lists_has_the_shorter<R: Threads + Wait + Sync + AllocGlobal>(
    rt: &R,
    look: &mut Look,
) -> Result<()> {
    look.part("the_longer_of_two_lists_has_the_shorter");
    play_case(rt, look, rt.alloc(), Case::Lists)
}

/// Plays what there is memory for.
pub fn play<R: Threads + Wait + Sync + AllocGlobal>(rt: &R, look: &mut Look) -> Result<()> {
    all_are_told_of_one_history(rt, look)?;
    the_longer_of_two_lists_has_the_shorter(rt, look)
}
