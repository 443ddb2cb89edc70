//! What each call looks up: each id that it names once, the caller's too, and bytes that are read. An address is looked up
//! once, and then its segment; who has it mapped need not be. What is asked for is answered as by the plain state itself.
use super::counting::Counting;
use anyhow::Result;
use base::{Data, Meter, NoMemory, ObjectId, Refusal, Rights, TypeSet};
use happy_calls::look::{Look, agree};
use happy_calls::samples::{LIMITS, answered, boot_thread, in_root, plain, refusal_in};
use kernel_calls::{ask, step};
use kernel_rules::{Call, Entry, Mapping, NewAddressSpace, NewContainer, NewSegment, Query};
use plain_state::PlainState;
use std::alloc::Global;

/// What refuses a call, and how many looks it took. The plain state refuses it by the same.
fn looks_of(
    store: &mut Counting,
    twin: &mut PlainState,
    call: &Call,
    meter: &mut Meter,
) -> Result<(Option<Refusal>, u64), NoMemory> {
    let before = meter.probes();
    let refused = answered(step(store, boot_thread(), call, meter))?;
    let looks = meter.probes().saturating_sub(before);
    if refused == answered(step(twin, boot_thread(), call, meter))? {
        Ok((refused, looks))
    } else {
        Ok((refused, 0))
    }
}

fn looks_at(store: &Counting, query: &Query, meter: &mut Meter) -> (Option<Refusal>, u64) {
    let before = meter.probes();
    let refused = refusal_in(ask(store, boot_thread(), query, meter));
    (refused, meter.probes().saturating_sub(before))
}

/// A container 4, a segment 5 and an address space 6 in the root.
fn makings() -> [Call; 3] {
    let root = ObjectId::root();
    let container = NewContainer {
        container: root,
        label: plain(),
        quota: 8,
        avoid: TypeSet::none(),
    };
    let segment = NewSegment {
        container: root,
        label: plain(),
        quota: 2,
        pages: 1,
    };
    let space = NewAddressSpace {
        container: root,
        label: plain(),
        quota: 1,
    };
    [
        Call::ContainerCreate(container),
        Call::SegmentCreate(segment),
        Call::AsCreate(space),
    ]
}

fn load_of_a_byte() -> Query {
    Query::Load {
        address: 768,
        count: 1,
    }
}

fn each_id_is_found_once(alloc: Global, look: &mut Look) -> Result<()> {
    look.part("each_id_is_found_once");
    let mut meter = Meter::new(alloc)?;
    let mut store = Counting::new(PlainState::boot(alloc, &LIMITS)?);
    let mut twin = PlainState::boot(alloc, &LIMITS)?;
    for call in makings() {
        look.sees(agree(
            looks_of(&mut store, &mut twin, &call, &mut meter)?,
            (None, 2),
        ));
    }
    let target = ObjectId::new(4);
    let (segment, space) = (in_root(5), in_root(6));
    let mapping = Mapping {
        page: 3,
        entry: segment,
        first: 0,
        count: 1,
        rights: Rights {
            read: true,
            write: true,
        },
    };
    let data = Data::from_slice(&[7]);
    let calls = [
        (Call::SetFixed { entry: segment }, 3),
        (
            Call::Link {
                target,
                entry: segment,
            },
            4,
        ),
        (
            Call::SegmentWrite {
                entry: segment,
                offset: 0,
                data,
            },
            3,
        ),
        (
            Call::AsMap {
                space,
                slot: 0,
                mapping,
            },
            5,
        ),
        (Call::SelfSetAs { space }, 3),
        (Call::Store { address: 768, data }, 2),
        (
            Call::QuotaMove {
                entry: in_root(4),
                change: 1,
            },
            3,
        ),
    ];
    for (call, looks) in calls {
        look.sees(agree(
            looks_of(&mut store, &mut twin, &call, &mut meter)?,
            (None, looks),
        ));
    }
    look.sees(agree(looks_at(&store, &load_of_a_byte(), &mut meter), (None, 3)));
    let unref = Call::Unref { entry: segment };
    look.sees(agree(
        looks_of(&mut store, &mut twin, &unref, &mut meter)?,
        (None, 3),
    ));
    Ok(())
}

fn a_refused_call_takes_as_many(alloc: Global, look: &mut Look) -> Result<()> {
    look.part("a_refused_call_takes_as_many");
    let mut meter = Meter::new(alloc)?;
    let mut store = Counting::new(PlainState::boot(alloc, &LIMITS)?);
    let mut twin = PlainState::boot(alloc, &LIMITS)?;
    let root = Entry {
        container: ObjectId::root(),
        object: ObjectId::root(),
    };
    let kept = looks_of(
        &mut store,
        &mut twin,
        &Call::Unref { entry: root },
        &mut meter,
    )?;
    look.sees(agree(kept, (Some(Refusal::RootKept), 3)));
    let read = Query::SegmentRead {
        entry: in_root(3),
        offset: 0,
        count: 1,
    };
    let device = looks_at(&store, &read, &mut meter);
    look.sees(agree(device, (Some(Refusal::WrongType), 3)));
    look.sees(agree(
        looks_at(&store, &load_of_a_byte(), &mut meter),
        (Some(Refusal::NotMapped), 2),
    ));
    Ok(())
}

// Of an accepted create the plain machine scans the labels of the thread and the container four times, twice for what it
// sees of the container and twice for what it sees of the object, which is the container; the new label is gathered once, and
// compared with the thread's and its clearance.
fn a_said_label_is_gathered_once(alloc: Global, look: &mut Look) -> Result<()> {
    look.part("a_said_label_is_gathered_once");
    let mut meter = Meter::new(alloc)?;
    let mut state = PlainState::boot(alloc, &LIMITS)?;
    let [container, _, _] = makings();
    let refused = answered(step(&mut state, boot_thread(), &container, &mut meter))?;
    look.sees(agree(refused, None));
    look.sees(agree(meter.scans(), 7));
    Ok(())
}

/// Plays what there is memory for.
pub fn play(alloc: Global, look: &mut Look) -> Result<()> {
    each_id_is_found_once(alloc, look)?;
    a_refused_call_takes_as_many(alloc, look)?;
    a_said_label_is_gathered_once(alloc, look)
}
