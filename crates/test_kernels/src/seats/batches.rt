//! Batches: 1 to 16 calls that are one event, also where the thread dies among them; and a reader, which never sees a
//! state between two calls of one.
use super::cases::{Case, play_case};
use super::samples::{asked, event_count, open_segment, passed, seated, submitted};
use anyhow::Result;
use base::ObjectId;
use happy_calls::look::Look;
use happy_calls::samples::{
    boot_thread, in_root, is_done, is_number, is_object, new_container, new_thread,
};
use kernel_rules::{Call, Query, Reply};
use published_copy::{BatchReceipt, Naming, Seat, Shared, SubmitRefusal};
use std::alloc::{AllocError, Global};
use std::sync::{Mutex, Wait};
use std::thread;
use std::thread::Threads;

/// What a batch through a seat answers.
fn batched<B: Naming, R: Wait>(
    rt: &R,
    seat: &mut Seat<'_, B>,
    calls: &[Call],
) -> Result<BatchReceipt, SubmitRefusal> {
    seat.submit_batch(rt, calls)
}

/// So many times the same call.
fn many(alloc: Global, call: &Call, count: usize) -> Result<Vec<Call>, AllocError> {
    let mut calls = Vec::new(alloc);
    for _ in 0..count {
        calls.push(*call)?;
    }
    Ok(calls)
}

/// Whether a seat is refused a batch of so many calls, as 45.
fn is_bad<B: Naming, R: Wait>(
    rt: &R,
    alloc: Global,
    seat: &mut Seat<'_, B>,
    count: usize,
) -> Result<bool> {
    let calls = many(alloc, &open_segment(), count)?;
    Ok(match batched(rt, seat, calls.as_slice()) {
        Ok(_) => false,
        Err(refusal) => refusal.refusal().number() == 45,
    })
}

/// The calls of thread 4: the last one but 13 is by a dead thread.
fn dying(alloc: Global) -> Result<Vec<Call>, AllocError> {
    let mut calls = many(alloc, &open_segment(), 2)?;
    calls.push(Call::Unref { entry: in_root(4) })?;
    for _ in 0..13 {
        calls.push(open_segment())?;
    }
    Ok(calls)
}

/// Whether two segments were made and the thread was unreferenced, and the other calls were refused, as 1.
fn are_of_dying(replies: &[Reply]) -> bool {
    match replies {
        [one, other, gone, halted @ ..] => {
            is_object(*one, 5)
                && is_object(*other, 6)
                && is_done(*gone)
                && halted.len() == 13
                && halted.iter().all(|reply| is_number(*reply, 1))
        }
        _ => false,
    }
}

/// A batch is refused where it has no calls or too many, and is one event also where the thread dies in it.
pub fn batch_at<B: Naming, R: Wait>(
    rt: &R,
    look: &mut Look,
    alloc: Global,
    shared: &Shared<B>,
) -> Result<()> {
    let mut boot = seated(rt, shared, boot_thread())?;
    look.sees(is_bad(rt, alloc, &mut boot, 0)? && is_bad(rt, alloc, &mut boot, 17)?);
    submitted(rt, &mut boot, &new_thread())?;
    let mut other = seated(rt, shared, ObjectId::new(4))?;
    let receipt = batched(rt, &mut other, dying(alloc)?.as_slice())?;
    look.sees(are_of_dying(receipt.replies.as_slice()));
    look.sees(receipt.number == 1 && receipt.length == 2);
    look.sees(event_count(rt, shared) == 2 && passed(other).number() == 2);
    Ok(())
}

fn a_batch_is_an_event_of_1_to_16_calls<R: Threads + Wait + Sync + AllocGlobal>(
    rt: &R,
    look: &mut Look,
) -> Result<()> {
    look.part("a_batch_is_an_event_of_1_to_16_calls");
    play_case(rt, look, rt.alloc(), Case::Batches)
}

/// How often the reader reads, and how many batches are submitted meanwhile.
const READS: u64 = 100_000;

const BATCHES: u64 = 500;

/// The quota of the container whose quota is moved.
const QUOTA: u32 = 10;

fn up() -> Call {
    Call::QuotaMove {
        entry: in_root(4),
        change: 1,
    }
}

fn down() -> Call {
    Call::QuotaMove {
        entry: in_root(4),
        change: -1,
    }
}

/// A batch of sixteen calls that moves a quota by one, up and down.
fn moves(alloc: Global) -> Result<Vec<Call>, AllocError> {
    let mut calls = Vec::with_capacity(alloc, 16)?;
    for _ in 0..8 {
        calls.push(up())?;
        calls.push(down())?;
    }
    Ok(calls)
}

/// Whether the quota is what it is between two batches.
fn is_between<B: Naming>(seat: &mut Seat<'_, B>) -> bool {
    match asked(seat, &Query::ObjQuota { entry: in_root(4) }) {
        Ok(Reply::Quota { quota, .. }) => quota == QUOTA,
        _ => false,
    }
}

/// A seat that reads in a thread of its own, and whether it saw no batch by half.
#[derive(Drop)]
struct Watcher<'a, B: Naming> {
    seat: Seat<'a, B>,
    saw_none: bool,
}

fn watch<B: Naming, R: Wait>(rt: &R, watcher: &Mutex<Watcher<'_, B>>) {
    let mut watcher = watcher.lock(rt);
    for _ in 0..READS {
        if !is_between(&mut watcher.seat) {
            watcher.saw_none = false;
        }
    }
}

/// Whether each call of a batch was done.
fn is_moved<B: Naming, R: Wait>(rt: &R, boot: &mut Seat<'_, B>, calls: &[Call]) -> bool {
    match batched(rt, boot, calls) {
        Ok(receipt) => receipt.replies.iter().all(|reply| is_done(*reply)),
        Err(_) => false,
    }
}

/// Whether each of all batches was done.
fn are_moved<B: Naming, R: Wait>(rt: &R, boot: &mut Seat<'_, B>, calls: &[Call]) -> bool {
    let mut all = true;
    for _ in 0..BATCHES {
        if !is_moved(rt, boot, calls) {
            all = false;
        }
    }
    all
}

/// A seat reads in a thread of its own while the boot thread's seat submits batches. False where it can't be started or a
/// batch is not done.
fn watch_batches<'s, B: Naming + Send, R: Threads + Wait + Sync>(
    rt: &R,
    boot: &mut Seat<'s, B>,
    calls: &[Call],
    watcher: &Mutex<Watcher<'s, B>>,
) -> bool {
    thread::scope(thread::scope_env(), rt, |scope| {
        let is_watched = scope.spawn(move || watch(rt, watcher)).is_ok();
        are_moved(rt, boot, calls) && is_watched
    })
}

/// A seat reads while another submits batches, and sees none by half.
pub fn watch_at<B: Naming + Send, R: Threads + Wait + Sync>(
    rt: &R,
    look: &mut Look,
    alloc: Global,
    shared: &Shared<B>,
) -> Result<()> {
    let calls = moves(alloc)?;
    let mut boot = seated(rt, shared, boot_thread())?;
    submitted(rt, &mut boot, &new_container(QUOTA))?;
    submitted(rt, &mut boot, &new_thread())?;
    let mut seat = seated(rt, shared, ObjectId::new(5))?;
    seat.learn(&boot.note());
    let watcher = Mutex::new(Watcher {
        seat,
        saw_none: true,
    });
    look.sees(watch_batches(rt, &mut boot, calls.as_slice(), &watcher));
    look.sees(watcher.into_inner().saw_none);
    Ok(())
}

fn no_reader_sees_a_batch_by_half<R: Threads + Wait + Sync + AllocGlobal>(
    rt: &R,
    look: &mut Look,
) -> Result<()> {
    look.part("no_reader_sees_a_batch_by_half");
    play_case(rt, look, rt.alloc(), Case::WatchedBatches)
}

/// Plays what there is memory for.
pub fn play<R: Threads + Wait + Sync + AllocGlobal>(rt: &R, look: &mut Look) -> Result<()> {
    a_batch_is_an_event_of_1_to_16_calls(rt, look)?;
    no_reader_sees_a_batch_by_half(rt, look)
}
