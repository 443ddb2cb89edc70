//! What a slot keeps of its object.
ghost use Rattle.std.specs.Prelude.{◌≡◌, ◌+◌, ◌-◌, ◌≤◌};
ghost use Rattle.arena_state.specs.Assembled.{body_use, fresh_record, fresh_thread, with_space, with_use};
ghost use Rattle.arena_state.specs.Assembled.{with_clearance, with_quota, with_thread};

use base::{Data, ObjectId, TypeSet};
use kernel_rules::Entry;
use label_intern::LabelIx;

/// What a thread holds, with its labels by their indexes.
#[derive(Clone, Copy)]
pub struct KeptThread {
    /// What its label may rise to.
    pub clearance: LabelIx,
    /// The label that it last proved at a gate.
    pub verify: LabelIx,
    /// The entry of its address space, (0, 0) for none.
    pub space: Entry,
    /// Where it runs: any number.
    pub entry_point: u64,
    /// What it was handed by a gate: any number.
    pub closure: u64,
}

/// What a gate hands on, with its clearance by its index.
#[derive(Clone, Copy)]
pub struct KeptGate {
    /// What a thread's label has to be at most.
    pub clearance: LabelIx,
    /// The entry of an address space, (0, 0) for none.
    pub space: Entry,
    /// Where the thread runs: any number.
    pub entry_point: u64,
    /// What it is handed: any number.
    pub closure: u64,
}

/// What a slot keeps by the kind of its object.
#[derive(Clone, Copy)]
pub enum Kept {
    /// The kinds that it won't hold, and what it uses, in pages of 256 bytes.
    Container(TypeSet, u32),
    /// How many pages it has: 0 to 16.
    Segment(u32),
    /// An address space.
    AddressSpace,
    /// What the thread holds.
    Thread(KeptThread),
    /// What the gate hands on.
    Gate(KeptGate),
    /// A device.
    Device,
}

/// What a slot keeps of its object.
#[derive(Clone, Copy)]
pub struct Record {
    /// The index of its label.
    pub label: LabelIx,
    /// What it may use, in pages of 256 bytes.
    pub quota: u32,
    /// Its quota never changes again.
    pub fixed: bool,
    /// It is read-only for good.
    pub immutable: bool,
    /// 64 bytes for the callers' use.
    pub metadata: Data,
    /// What is kept by its kind.
    pub body: Kept,
}

/// A new record: nothing fixed, not immutable, its metadata 64 bytes of 0.
pub fn fresh_record(label: LabelIx, quota: u32, body: Kept) -> Record
    ensures { result ≡ fresh_record label.0 quota body }
{
    Record {
        label,
        quota,
        fixed: false,
        immutable: false,
        metadata: Data::from_slice(&[0; 64]),
        body,
    }
}

/// A new thread, which has no address space.
pub fn kept_thread(clearance: LabelIx, verify: LabelIx, entry_point: u64) -> KeptThread
    ensures { result ≡ fresh_thread clearance.0 verify.0 entry_point }
{
    KeptThread {
        clearance,
        verify,
        space: Entry {
            container: ObjectId::new(0),
            object: ObjectId::new(0),
        },
        entry_point,
        closure: 0,
    }
}

/// A container uses so many pages more, at most so many in all. No other record changes.
pub fn charge(given: &mut Record, pages: u32, most: u32)
    requires { body_use given.old.body + pages ≤ most }
    ensures { given.new ≡ with_use (body_use given.old.body + pages) given.old }
{
    let _most = most;
    if let Kept::Container(_, used) = &mut given.body {
        *used += pages;
    }
}

/// A container uses so many pages less. No other record changes.
pub fn discharge(given: &mut Record, pages: u32)
    requires { pages ≤ body_use given.old.body }
    ensures { given.new ≡ with_use (body_use given.old.body - pages) given.old }
{
    if let Kept::Container(_, used) = &mut given.body {
        *used -= pages;
    }
}

/// The quota is so many pages more, and so many less, at first at most so many.
pub fn requote(given: &mut Record, up: u32, down: u32, most: u32)
    requires fits { given.old.quota + up ≤ most }
    requires enough { down ≤ given.old.quota + up }
    ensures { given.new ≡ with_quota ((given.old.quota + up) - down) given.old }
{
    let _most = most;
    given.quota = given.quota + up - down;
}

/// A thread has another address space. No other record changes.
pub fn respace(given: &mut Record, space: Entry)
    ensures { given.new ≡ with_space space given.old }
{
    if let Kept::Thread(thread) = &mut given.body {
        thread.space = space;
    }
}

/// A thread has another clearance, by its index. No other record changes.
pub fn reclear(given: &mut Record, clearance: LabelIx)
    ensures { given.new ≡ with_clearance clearance.0 given.old }
{
    if let Kept::Thread(thread) = &mut given.body {
        thread.clearance = clearance;
    }
}

/// A record of another label that is this thread's, with the use and the flags that it had.
pub fn rebind(given: &mut Record, label: LabelIx, thread: KeptThread)
    ensures { given.new ≡ with_thread label.0 thread given.old }
{
    given.label = label;
    given.body = Kept::Thread(thread);
}
