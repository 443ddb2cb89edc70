//! A checkpoint is restored, and played on.
use super::samples::{add_event, after, events_of, outcome};
use anyhow::{Result, bail};
use base::{Data, Level, Meter, NoMemory, ObjectId, Rights};
use happy_calls::look::{Look, agree};
use happy_calls::samples::{
    LIMITS, are_equal, boot_thread, in_root, label_with, new_container, new_segment, new_thread,
    no_entry, plain,
};
use kernel_rules::{Call, Mapping, NewAddressSpace, NewGate, NewSegment, Reply};
use plain_core::{Machine, PlainKernel};
use std::alloc::Global;

/// What the boot thread does before the checkpoint: a category, a container, a segment, an address
/// space with a mapping, a gate, a thread, a packet.
pub fn begun() -> [Call; 9] {
    [
        Call::CatCreate,
        new_container(8),
        new_segment(plain()),
        Call::AsCreate(NewAddressSpace {
            container: ObjectId::root(),
            label: plain(),
            quota: 1,
        }),
        Call::AsMap {
            space: in_root(6),
            slot: 7,
            mapping: Mapping {
                page: 16,
                entry: in_root(5),
                first: 0,
                count: 1,
                rights: Rights {
                    read: true,
                    write: true,
                },
            },
        },
        Call::SelfSetAs { space: in_root(6) },
        Call::GateCreate(NewGate {
            container: ObjectId::root(),
            label: label_with(Level::Star, Level::L1),
            quota: 1,
            clearance: label_with(Level::L3, Level::L2),
            space: no_entry(),
            entry_point: 9,
            closure: 10,
        }),
        new_thread(),
        Call::DevSend {
            entry: in_root(3),
            data: Data::from_slice(b"packet"),
        },
    ]
}

/// What is done from there on.
fn further() -> [Call; 6] {
    [
        Call::Store {
            address: 16 * 256,
            data: Data::from_slice(b"kept"),
        },
        Call::DevRecv { entry: in_root(3) },
        Call::CatCreate,
        Call::SegmentCreate(NewSegment {
            container: ObjectId::new(4),
            label: label_with(Level::L3, Level::L1),
            quota: 2,
            pages: 1,
        }),
        Call::Unref { entry: in_root(5) },
        Call::Store {
            address: 16 * 256,
            data: Data::from_slice(b"lost"),
        },
    ]
}

/// What is answered, as its kind and a number: of bytes their count and the first one.
fn told(reply: Reply) -> (u8, u64) {
    match reply {
        Reply::Done => (1, 0),
        Reply::Category(category) => (2, category.0),
        Reply::Object(object) => (3, object.number()),
        Reply::Bytes(data) => match data.as_slice() {
            [] => (4, 0),
            [first, rest @ ..] => (
                4,
                u64::from(*first).wrapping_add((rest.len() as u64).wrapping_mul(256)),
            ),
        },
        Reply::Refused(refusal) => (5, u64::from(refusal.number())),
        _ => (0, 0),
    }
}

/// What a call of the boot thread is answered.
fn asked(kernel: &mut PlainKernel, call: &Call, meter: &mut Meter) -> Result<(u8, u64), NoMemory> {
    match kernel.step(boot_thread(), call, meter) {
        Ok(reply) => Ok(told(reply)),
        Err(error) => Err(error),
    }
}

// How many of the calls are refused.
fn refused_of(
    kernel: &mut PlainKernel,
    calls: &[Call],
    meter: &mut Meter,
) -> Result<usize, NoMemory> {
    let mut refused = 0;
    for call in calls {
        let told = asked(kernel, call, meter)?;
        if told.0 == 5 && refused < 100 {
            refused += 1;
        }
    }
    Ok(refused)
}

fn a_restored_kernel_goes_on_alike(alloc: Global, look: &mut Look) -> Result<()> {
    look.part("a_restored_kernel_goes_on_alike");
    let mut meter = Meter::new(alloc)?;
    let events = events_of(alloc, &begun())?;
    let made = after(alloc, &LIMITS, events.as_slice())?;
    look.sees(agree(made.objects.len(), 8));
    look.sees(agree(made.next_id, 9));
    look.sees(agree(made.next_category, 2));
    let mut restored = match PlainKernel::restore(alloc, &LIMITS, &made) {
        Ok(kernel) => kernel,
        Err(_) => return bail!("not restored"),
    };
    let mut kernel = PlainKernel::boot(alloc, &LIMITS)?;
    look.sees(agree(refused_of(&mut kernel, &begun(), &mut meter)?, 0));
    let before = kernel.tables(&mut meter)?;
    look.sees(are_equal(&before, &restored.tables(&mut meter)?));
    for call in &further() {
        let first = asked(&mut kernel, call, &mut meter)?;
        let second = asked(&mut restored, call, &mut meter)?;
        look.sees(first.0 != 0 && agree(first, second));
    }
    let later = kernel.tables(&mut meter)?;
    look.sees(are_equal(&later, &restored.tables(&mut meter)?));
    look.sees(!are_equal(&before, &later));
    Ok(())
}

fn numbers_are_told(alloc: Global, look: &mut Look) -> Result<()> {
    look.part("numbers_are_told");
    let none = after(alloc, &LIMITS, &[])?;
    look.sees(agree(none.next.len(), 0));
    let mut events = Vec::new(alloc);
    for thread in [3u64, 2, 2] {
        add_event(
            alloc,
            &mut events,
            ObjectId::new(thread),
            &[Call::CatCreate],
        )?;
    }
    let made = after(alloc, &LIMITS, events.as_slice())?;
    look.sees(agree(made.next.len(), 2));
    let (Some(first), Some(second)) = (made.next.get(0), made.next.get(1)) else {
        return bail!("no numbers");
    };
    look.sees(agree(first.thread.number(), 2));
    look.sees(agree(first.number, 3));
    look.sees(agree(second.thread.number(), 3));
    look.sees(agree(second.number, 2));
    look.sees(agree(outcome(alloc, &LIMITS, &made), 0));
    Ok(())
}

// A thread that was never given makes a checkpoint that can't be restored.
fn a_thread_that_was_never_given(alloc: Global, look: &mut Look) -> Result<()> {
    look.part("a_thread_that_was_never_given");
    let mut events = Vec::new(alloc);
    add_event(alloc, &mut events, ObjectId::new(77), &[Call::CatCreate])?;
    let made = after(alloc, &LIMITS, events.as_slice())?;
    look.sees(agree(outcome(alloc, &LIMITS, &made), 60));
    Ok(())
}

// A batch counts as one event.
fn a_batch_is_one_event(alloc: Global, look: &mut Look) -> Result<()> {
    look.part("a_batch_is_one_event");
    let mut events = Vec::new(alloc);
    let batch = [Call::CatCreate, Call::CatCreate];
    add_event(alloc, &mut events, boot_thread(), &batch)?;
    let made = after(alloc, &LIMITS, events.as_slice())?;
    look.sees(agree(made.next_category, 3));
    look.sees(agree(made.next.len(), 1));
    look.sees(agree(outcome(alloc, &LIMITS, &made), 0));
    Ok(())
}

/// Plays what there is memory for.
pub fn play(alloc: Global, look: &mut Look) -> Result<()> {
    a_restored_kernel_goes_on_alike(alloc, look)?;
    numbers_are_told(alloc, look)?;
    a_thread_that_was_never_given(alloc, look)?;
    a_batch_is_one_event(alloc, look)
}
