//! The two copies, as their writer has them.
ghost use Rattle.core.specs.Mem.{manually_drop_value};
ghost use Rattle.std.specs.Prelude.{◌≡◌, ◌<◌, ◌≤◌, ◌∷◌, [], drop, fold, IfOk, OnErr, IsTrue};
ghost use Rattle.left_right.specs.Sides.{view};
ghost use Rattle.kernel_rules.specs.History.{IsLegal, state_of};
ghost use Rattle.kernel_rules.specs.Runs.{booted};
ghost use Rattle.syscall_core.specs.Kernel.{kernel_state};
ghost use Rattle.published_copy.specs.Absorbed.{shown_of, absorbed};
ghost use Rattle.published_copy.specs.Boots.{boot_of};
ghost use Rattle.published_copy.specs.Entries.{made};
ghost use Rattle.published_copy.specs.Shares.{IsShown, IsGood, IsAwaited, Succeeds, copies_with};
ghost use Rattle.published_copy.specs.Shares.{EndsWithReplies, tag_of};
ghost use Rattle.published_copy.specs.declared.copies.Copied.{Copied};

use crate::copies::{Copied, copy_reply, first_copy};
use crate::logs::SeenLog;
use crate::naming::Naming;
use crate::ops::Op;
use crate::read_handles::ReadHandle;
use crate::rules::{Mark, Published, Tag, Tell};
use crate::whole_logs::WholeLog;
use base::{Limits, NoMemory};
use core::mem::replace_with;
use kept_events::KeptReply;
use kernel_rules::Reply;
use left_right::reader::Reader;
use std::alloc::Global;
use std::marker::{Model, PhantomData};
use std::mem::ManuallyDrop;
use std::sync::Wait;
use syscall_core::Kernel;

/// The writer of the two copies.
pub(crate) type Writer = left_right::writer::Writer<Copied, Op, Tag, Published>;

/// The two copies, of which readers are shown one. Contracts see the list of the one that is shown,
/// which is legal and whose state it is in, the operations that it lacks, and the replies of its last event. Where they are
/// dropped and not closed, their memory is not given back: that waits for readers.
#[derive(Drop)]
pub(crate) struct Copies<B: Naming> {
    writer: ManuallyDrop<Writer>,
    /// Whether a copy was published, from which on the writer knows the boot of what it shows.
    marked: bool,
    of: PhantomData<B>,
}

impl<B: Naming> Model for Copies<B> {
    ghost use Rattle.core.specs.Mem.{manually_drop_value};
    ghost use Rattle.std.specs.Prelude.{◌≡◌, drop, IsTrue};
    ghost use Rattle.left_right.specs.Sides.{view as view_of};
    ghost use Rattle.published_copy.specs.Absorbed.{list_of};
    ghost use Rattle.published_copy.specs.Shares.{CopiesView, IsShown, copies_with, tag_of};

    ghost Value = { CopiesView };

    ghost view = { λ c. copies_with
        (list_of (manually_drop_value c.writer).desk.shown.value.sealed
        (manually_drop_value c.writer).desk.shown.value.seen.log)
        (drop (manually_drop_value c.writer).behind (manually_drop_value c.writer).log.items)
        (manually_drop_value c.writer).desk.shown.value.reply
        (manually_drop_value c.writer).desk.shown.value.further };

    ghost invariant = { λ c. IsShown B.boot (manually_drop_value c.writer).desk.shown.value
        (list_of (manually_drop_value c.writer).desk.shown.value.sealed
        (manually_drop_value c.writer).desk.shown.value.seen.log)
        × (IsTrue c.marked → view_of (manually_drop_value c.writer).desk.place
        ≡ tag_of (manually_drop_value c.writer).desk.shown.value) };
}

/// A copy with a newly booted kernel and a second like it, with a place for the reader of each seat.
pub(crate) fn first_copies(
    alloc: Global,
    limits: &Limits,
    kernel: Kernel,
    seen: &SeenLog,
    seats: usize,
) -> Result<Writer, NoMemory>
    requires booted { kernel_state kernel ≡ booted limits.now }
    requires empty { seen.now.log ≡ [] }
    requires seats { (0 < seats) × (seats ≤ 64) }
    ensures shown { IfOk result
        (λ w. IsShown (boot_of seen.now.book limits.now seats) w.desk.shown.value []) }
    ensures pending { IfOk result (λ w. drop w.behind w.log.items ≡ []) }
{
    let first = first_copy(alloc, limits, kernel, seen)?;
    let Ok(other) = Kernel::boot(alloc, limits) else {
        return Err(NoMemory);
    };
    let second = first_copy(alloc, limits, other, seen)?;
    Ok(Writer::new(alloc, first, second, seats)?)
}

/// Readers take the copy that has all calls.
fn publish<R: Wait>(writer: &mut Writer, rt: &R)
    requires { (next : Copied)
        → shown_of next ≡ fold absorbed (shown_of writer.old.desk.shown.value)
        (drop writer.old.behind writer.old.log.items)
        → Succeeds writer.old.desk.shown.value next }
    ensures shown { shown_of writer.new.desk.shown.value
        ≡ fold absorbed (shown_of writer.old.desk.shown.value)
        (drop writer.old.behind writer.old.log.items) }
    ensures pending { drop writer.new.behind writer.new.log.items ≡ [] }
    ensures tag { view writer.new.desk.place ≡ tag_of writer.new.desk.shown.value }
{
    replace_with(
        writer,
        rt,
        |writer: Writer, rt: &R| -> (Writer, ())
            requires { (next : Copied)
                → shown_of next ≡ fold absorbed (shown_of writer.desk.shown.value)
                (drop writer.behind writer.log.items)
                → Succeeds writer.desk.shown.value next }
            ensures { (shown_of result.0.desk.shown.value
                ≡ fold absorbed (shown_of writer.desk.shown.value)
                (drop writer.behind writer.log.items))
                × (drop result.0.behind result.0.log.items ≡ [])
                × (view result.0.desk.place ≡ tag_of result.0.desk.shown.value) }
        {
            let (writer, _done) = writer.publish_as::<Mark, R>(rt);
            (writer, ())
        },
    )
}

/// The writer knows the boot of what it shows: a copy is published where none was before. What is
/// shown stays.
fn mark<R: Wait>(writer: &mut Writer, marked: bool, rt: &R)
    requires good { IsGood writer.old.desk.shown.value }
    requires pending { drop writer.old.behind writer.old.log.items ≡ [] }
    requires marked { IsTrue marked
        → view writer.old.desk.place ≡ tag_of writer.old.desk.shown.value }
    ensures shown { shown_of writer.new.desk.shown.value ≡ shown_of writer.old.desk.shown.value }
    ensures pending { drop writer.new.behind writer.new.log.items ≡ [] }
    ensures tag { view writer.new.desk.place ≡ tag_of writer.new.desk.shown.value }
{
    if !marked {
        publish(writer, rt);
    }
}

/// A reader of the copies that knows no boot. Each seat has a place, so one is free.
fn claim<R: Wait>(writer: &Writer, rt: &R) -> Reader<Copied, Tag, Published>
    ensures { result.place.table_id ≡ writer.now.desk.place.table_id }
{
    for _ in rt.forever() {
        if let Ok(reader) = writer.factory().reader() {
            return reader;
        }
    }
    unreachable!()
}

impl<B: Naming> Copies<B> {
    /// The copies of a boot, with no event.
    pub(crate) fn new(writer: ManuallyDrop<Writer>) -> Copies<B>
        requires shown { IsShown B.boot (manually_drop_value writer).desk.shown.value [] }
        requires pending { drop (manually_drop_value writer).behind
            (manually_drop_value writer).log.items ≡ [] }
        ensures list { result.list ≡ [] }
        ensures pending { result.pending ≡ [] }
    {
        Copies {
            writer,
            marked: false,
            of: PhantomData,
        }
    }

    /// The copies are to take in this operation. Without memory they are not, and nothing changes.
    pub(crate) fn queue(&mut self, op: Op) -> Result<(), NoMemory>
        requires { self.old.pending ≡ [] }
        ensures queued { IfOk result (λ _. self.new
            ≡ copies_with self.old.list (op ∷ []) self.old.reply self.old.further) }
        ensures kept { OnErr result (self.new ≡ self.old) }
    {
        let writer: &mut Writer = &mut self.writer;
        match writer.append(op) {
            Ok(()) => Ok(()),
            Err(_) => Err(NoMemory),
        }
    }

    /// The kernel of the copy that is shown, in the state of its list.
    pub(crate) fn kernel(&self) -> &Kernel
        ensures { kernel_state result.now ≡ state_of B.boot.limits self.now.list }
    {
        let writer: &Writer = &self.writer;
        &writer.published().kernel
    }

    /// Readers are shown what the operation makes: the events that the log has made, with all calls of the
    /// last. The reply becomes that of its first call.
    pub(crate) fn publish<R: Wait>(&mut self, rt: &R, whole: &WholeLog<B>, reply: &mut Reply)
        requires { IsAwaited B.boot self.old (made whole.now) }
        ensures list { self.new.list ≡ made whole.now }
        ensures pending { self.new.pending ≡ [] }
        ensures legal { IsLegal B.boot.limits (made whole.now) }
        ensures replies { EndsWithReplies (made whole.now) (self.new.reply ∷ self.new.further) }
        ensures reply { reply.new ≡ self.new.reply }
    {
        let writer: &mut Writer = &mut self.writer;
        publish(writer, rt);
        copy_reply(reply, &writer.published().reply);
        self.marked = true;
    }

    /// What the calls after the first of the last event were answered.
    pub(crate) fn further(&self) -> &[KeptReply]
        ensures { result.now ≡ self.now.further }
    {
        let writer: &Writer = &self.writer;
        writer.published().further.replies()
    }

    /// A reader of the copies, which knows their boot.
    pub(crate) fn handle<R: Wait>(&mut self, rt: &R) -> ReadHandle<B>
        requires { self.old.pending ≡ [] }
        ensures { self.new ≡ self.old }
    {
        let writer: &mut Writer = &mut self.writer;
        mark(writer, self.marked, rt);
        self.marked = true;
        let mut reader = claim(writer, rt);
        reader.learn::<Tell>(writer.tell::<Tell>());
        ReadHandle::new(reader)
    }

    /// Gives back the copies' memory, once no reader has one.
    pub(crate) fn close<R: Wait>(self, rt: &R) {
        let Copies {
            writer,
            marked: _,
            of: _,
        } = self;
        let _last = ManuallyDrop::into_inner(writer).take(rt);
    }
}
