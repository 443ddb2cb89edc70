//! One thread keeps a secret from another: a category, a segment that it guards, a thread that owns nothing, and what
//! that thread's read answers.
#![tactic(auto)]

use base::{Category, Level, Limits, Meter, ObjectId, Refusal};
use label_lattice::{Pair, RawLabel};
use std::alloc::Global;
use std::io;
use syscall_core::{BootRefusal, Call, Entry, Kernel, NewSegment, NewThread, Query, Reply};

/// A new category, which the thread owns.
fn new_category(kernel: &mut Kernel, thread: ObjectId, meter: &mut Meter) -> Option<Category> {
    match kernel.step_surely(thread, &Call::CatCreate, meter) {
        Reply::Category(category) => Some(category),
        _ => None,
    }
}

/// The object that a call of the thread makes.
fn make(kernel: &mut Kernel, thread: ObjectId, call: &Call, meter: &mut Meter) -> Option<ObjectId> {
    match kernel.step_surely(thread, call, meter) {
        Reply::Object(id) => Some(id),
        _ => None,
    }
}

/// What the thread is refused, where it reads the first bytes of a segment in the root.
fn refusal_of_read(
    kernel: &Kernel,
    thread: ObjectId,
    object: ObjectId,
    meter: &mut Meter,
) -> Option<Refusal> {
    let read = Query::SegmentRead {
        entry: Entry {
            container: ObjectId::root(),
            object,
        },
        offset: 0,
        count: 4,
    };
    match kernel.ask_surely(thread, &read, meter) {
        Reply::Refused(refusal) => Some(refusal),
        _ => None,
    }
}

/// A segment of one page, which only who owns the category observes.
fn segment_guarded_by(category: Category) -> Call {
    let guard = Pair {
        category,
        level: Level::L3,
    };
    Call::SegmentCreate(NewSegment {
        container: ObjectId::root(),
        label: RawLabel::new(Level::L1, &[guard]),
        quota: 2,
        pages: 1,
    })
}

/// A thread that owns no category. It is at 2 in one, so it modifies nothing at 1, and can't delete what the root lists.
fn stranger(guests: Category) -> Call {
    let guest = Pair {
        category: guests,
        level: Level::L2,
    };
    Call::ThreadCreate(NewThread {
        container: ObjectId::root(),
        label: RawLabel::new(Level::L1, &[guest]),
        quota: 1,
        clearance: RawLabel::new(Level::L2, &[]),
        entry_point: 0,
    })
}

/// What a stranger is refused, where it reads a segment that a category guards.
fn read_a_secret(kernel: &mut Kernel, meter: &mut Meter) -> Option<Refusal> {
    let boot = ObjectId::new(2);
    let category = new_category(kernel, boot, meter)?;
    let guests = new_category(kernel, boot, meter)?;
    let secret = make(kernel, boot, &segment_guarded_by(category), meter)?;
    let stranger = make(kernel, boot, &stranger(guests), meter)?;
    refusal_of_read(kernel, stranger, secret, meter)
}

/// The same on a newly booted kernel of 64 pages.
fn read_in_new_kernel(alloc: Global, meter: &mut Meter) -> Result<Option<Refusal>, BootRefusal> {
    let limits = Limits {
        pages: 64,
        device: Level::L1,
        next_id: 4,
        next_category: 1,
    };
    let mut kernel = Kernel::boot(alloc, &limits)?;
    Ok(read_a_secret(&mut kernel, meter))
}

fn main(rt: HostRuntime) -> io::Result<()> {
    let Ok(mut meter) = Meter::new(rt.alloc()) else {
        return println!(rt; "no meter");
    };
    match read_in_new_kernel(rt.alloc(), &mut meter) {
        Ok(Some(refusal)) => println!(rt; "refused {} {}", refusal.number(), refusal.name()),
        Ok(None) => println!(rt; "not refused"),
        Err(_) => println!(rt; "no boot"),
    }
}
