//! How many labels calls of the arena kernel scan, and how many cells they read, by a meter.
use super::cases::{Case, play_case};
use anyhow::Result;
use base::{Data, Level, NoMemory, ObjectId};
use happy_calls::look::{Look, agree};
use happy_calls::metered::Metered;
use happy_calls::samples::{
    everywhere, in_root, new_container, new_segment, new_thread, no_entry, plain,
};
use kernel_rules::{Entry, NewGate};
use std::alloc::Global;
use syscall_core::{Call, Query};

/// A call that makes a gate with the clearance {2} and without an address space.
fn new_gate() -> Call {
    Call::GateCreate(NewGate {
        container: ObjectId::root(),
        label: plain(),
        quota: 1,
        clearance: everywhere(Level::L2),
        space: no_entry(),
        entry_point: 0,
        closure: 0,
    })
}

/// The calls that are made one after another, by their places, each with how many labels it stores.
fn stored_by(place: usize) -> (Call, u64) {
    match place {
        0 => (Call::CatCreate, 2),
        1 => (new_container(9), 1),
        2 => (new_segment(everywhere(Level::L2)), 1),
        3 => (new_thread(), 3),
        4 => (new_gate(), 2),
        5 => (Call::SelfSetClearance { clearance: plain() }, 1),
        _ => (Call::SetFixed { entry: in_root(4) }, 0),
    }
}

/// Calls of several kinds scan few labels.
pub fn calls(look: &mut Look, metered: &mut Metered) -> Result<(), NoMemory> {
    for place in 0..7 {
        let (call, stores) = stored_by(place);
        look.sees(metered.scans_few(&call, stores)?);
    }
    Ok(())
}

fn few_labels_are_scanned(alloc: Global, look: &mut Look) -> Result<()> {
    look.part("few_labels_are_scanned");
    play_case(look, alloc, Case::Calls)
}

/// A boot stores three labels. A new thread stores three more.
pub fn thread(look: &mut Look, metered: &mut Metered) {
    look.sees(matches!(metered.scans(&new_thread()), Some(0..=156)));
}

/// A new label of the caller is one more.
pub fn new_label(look: &mut Look, metered: &mut Metered) {
    let call = Call::SelfSetLabel { label: plain() };
    look.sees(matches!(metered.scans(&call), Some(0..=60)));
}

/// What stores no label scans none.
pub fn device(look: &mut Look, metered: &mut Metered) {
    let call = Call::Unref { entry: in_root(3) };
    look.sees(agree(metered.scans(&call), Some(0)));
}

fn a_booted_kernel_scans_few_labels(alloc: Global, look: &mut Look) -> Result<()> {
    look.part("a_booted_kernel_scans_few_labels");
    play_case(look, alloc, Case::NewThread)?;
    play_case(look, alloc, Case::NewLabel)?;
    play_case(look, alloc, Case::Device)
}

/// A read that is refused scans no label.
pub fn refused_read(look: &mut Look, metered: &mut Metered) {
    look.sees(agree(metered.scans_asked(&read_of(3, 1)), 0));
}

fn a_refused_read_scans_none(alloc: Global, look: &mut Look) -> Result<()> {
    look.part("a_refused_read_scans_none");
    play_case(look, alloc, Case::RefusedRead)
}

/// A create reads three hints; looks for a link from the container to itself, which has none, by two reads; moves a cell of
/// two families, which is thirteen; takes a frame for its page; and reads the hint of what it made, and that its slot names
/// no thread.
pub fn create(look: &mut Look, metered: &mut Metered) {
    look.sees(agree(metered.probes(&new_segment(plain())), Some(21)));
}

fn a_create_counts_what_it_reads(alloc: Global, look: &mut Look) -> Result<()> {
    look.part("a_create_counts_what_it_reads");
    play_case(look, alloc, Case::Create)
}

/// A write to the first segment that is made, which has this id, reads so many cells.
pub fn write(look: &mut Look, metered: &mut Metered, id: u64, wanted: u64) {
    metered.step(&new_segment(plain()));
    let write = Call::SegmentWrite {
        entry: in_root(id),
        offset: 0,
        data: Data::from_slice(&[7; 4]),
    };
    look.sees(agree(metered.probes(&write), Some(wanted)));
}

// A write reads three hints, the first link to the segment with its container, and the page.
fn a_write_counts_what_it_reads(alloc: Global, look: &mut Look) -> Result<()> {
    look.part("a_write_counts_what_it_reads");
    play_case(look, alloc, Case::Write)
}

// A write to what has the root's place for hints reads three hints, and finds each id then: by the hints of the thread and the
// container, by the hint that is not the segment's, two halves and a slot. It reads the first link to the segment with its
// container, and the page.
fn a_write_without_a_hint_counts_more(alloc: Global, look: &mut Look) -> Result<()> {
    look.part("a_write_without_a_hint_counts_more");
    play_case(look, alloc, Case::WriteWithoutHint)
}

/// The container 4 and the segment 5, whose quota is fixed.
fn make_two(metered: &mut Metered) {
    metered.step(&new_container(9));
    metered.step(&new_segment(plain()));
    metered.step(&Call::SetFixed { entry: in_root(5) });
}

/// A link of the segment 5 in the container 4.
fn second_link() -> Call {
    Call::Link {
        target: ObjectId::new(4),
        entry: in_root(5),
    }
}

/// A link reads three hints for its container and three for what it names; the first link to the object with its container,
/// once for each of the two; that there is no second link; and the object's mark. It moves a cell of two families, which is
/// thirteen reads.
pub fn link(look: &mut Look, metered: &mut Metered) {
    make_two(metered);
    look.sees(agree(metered.probes(&second_link()), Some(25)));
}

fn a_link_counts_what_it_reads(alloc: Global, look: &mut Look) -> Result<()> {
    look.part("a_link_counts_what_it_reads");
    play_case(look, alloc, Case::Link)
}

/// The first bytes of an object in the root, so many.
fn read_of(id: u64, count: u32) -> Query {
    Query::SegmentRead {
        entry: in_root(id),
        offset: 0,
        count,
    }
}

/// A read reads what a write reads.
pub fn read(look: &mut Look, metered: &mut Metered) {
    metered.step(&new_segment(plain()));
    look.sees(agree(metered.probes_asked(&read_of(4, 4)), Some(6)));
}

fn a_read_counts_what_it_reads(alloc: Global, look: &mut Look) -> Result<()> {
    look.part("a_read_counts_what_it_reads");
    play_case(look, alloc, Case::Read)
}

/// An unreference of a second link reads three hints; the first link to the object with its container, how many links there
/// are, the last one and its container; the object's mark; and nineteen more to take the link out of the containers.
pub fn unreference(look: &mut Look, metered: &mut Metered) {
    make_two(metered);
    metered.step(&second_link());
    let entry = Entry {
        container: ObjectId::new(4),
        object: ObjectId::new(5),
    };
    look.sees(agree(metered.probes(&Call::Unref { entry }), Some(28)));
}

fn an_unreference_counts_what_it_reads(alloc: Global, look: &mut Look) -> Result<()> {
    look.part("an_unreference_counts_what_it_reads");
    play_case(look, alloc, Case::Unreference)
}

/// Plays what there is memory for.
pub fn play(alloc: Global, look: &mut Look) -> Result<()> {
    few_labels_are_scanned(alloc, look)?;
    a_booted_kernel_scans_few_labels(alloc, look)?;
    a_refused_read_scans_none(alloc, look)?;
    a_create_counts_what_it_reads(alloc, look)?;
    a_write_counts_what_it_reads(alloc, look)?;
    a_write_without_a_hint_counts_more(alloc, look)?;
    a_link_counts_what_it_reads(alloc, look)?;
    a_read_counts_what_it_reads(alloc, look)?;
    an_unreference_counts_what_it_reads(alloc, look)
}
