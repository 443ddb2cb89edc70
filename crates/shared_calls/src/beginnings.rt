//! Where dumps of the list begin.
ghost use Rattle.std.specs.Prelude.{◌≡◌, ◌≢◌, ◌+◌, ◌<◌, ◌≤◌, [], true, IfOk, IfErr, IsErrOf, IsTrue};
ghost use Rattle.std.specs.Arc.{arc_value};
ghost use mathlib.Core.List.{IsPrefix};
ghost use Rattle.base.specs.Limits.{in_range};
ghost use Rattle.checkpoints.specs.Restorable.{is_restorable};
ghost use Rattle.checkpoints.specs.Restored.{restored};
ghost use Rattle.dump_text.specs.Boot.{boot_checkpoint};
ghost use Rattle.kernel_rules.specs.Runs.{booted};
ghost use Rattle.shared_calls.specs.Cursors.{IsPlaced};
ghost use Rattle.shared_calls.specs.Dumps.{IsAt, IsTelling, state_in};
ghost use Rattle.shared_calls.specs.Seats.{state_of};
ghost use Rattle.syscall_core.specs.Kernel.{kernel_state};

use crate::chairs::Chair;
use crate::cursors::Cursor;
use crate::journals::empty_journal;
use crate::refusals::{DumpRefusal, SeatRefusal};
use crate::tellings::Telling;
use checkpoints::Checkpoint;
use dump_text::{boot_checkpoint, boots_can_begin};
use std::alloc::Global;
use syscall_core::Kernel;

/// Of two that saw one list, the first, which has seen no more, has seen a beginning of what the other has.
pub(crate) fn compare(cursor: &Cursor, end: &Cursor)
    requires placed { IsPlaced cursor.now }
    requires ended { IsPlaced end.now }
    requires list { cursor.now.seen.book ≡ end.now.seen.book }
    requires less { cursor.now.count ≤ end.now.count }
    ensures { IsPrefix cursor.now.seen.log end.now.seen.log }
{
    let mut both = end.seen.again();
    both.learn(&cursor.seen);
}

/// Another chair at a chair's list, at a beginning of it. The error is `TooMany`, or want of memory.
fn chair_at(chair: &Chair, cursor: &Cursor) -> Result<Chair, SeatRefusal>
    ensures { IfOk result (λ other. arc_value other.list ≡ arc_value chair.now.list) }
{
    let list = chair.list_again()?;
    match Chair::new(list, cursor.block.number) {
        Some(other) => Ok(other),
        None => Err(SeatRefusal::TooMany),
    }
}

/// A dump of what comes after a beginning of the list, up to an end, of which nothing was told: from a kernel that is in the state of that
/// beginning, and a checkpoint of it. The error is want of memory.
fn begin_telling(
    alloc: Global,
    chair: Chair,
    kernel: Kernel,
    origin: Checkpoint,
    cursor: Cursor,
    end: Cursor,
) -> Result<Telling, SeatRefusal>
    requires placed { IsPlaced cursor × IsPlaced end }
    requires list { (cursor.seen.book ≡ (arc_value chair.list).start.book) × (end.seen.book ≡ (arc_value chair.list).start.book) }
    requires within { cursor.count ≤ end.count }
    requires fit { (in_range (arc_value chair.list).limits ≡ true) × (is_restorable (arc_value chair.list).limits origin ≡ true) }
    requires anew { origin.next ≡ [] }
    requires state { kernel_state kernel ≡ restored (arc_value chair.list).limits origin }
    ensures telling { IfOk result (λ telling. IsTelling telling) }
    ensures at { IfOk result (λ telling. IsAt telling 0) }
    ensures list { IfOk result (λ telling. telling.chair.list ≡ chair.list) }
    ensures origin { IfOk result (λ telling. telling.origin ≡ origin) }
    ensures before { IfOk result (λ telling. telling.before ≡ cursor.count) }
    ensures end { IfOk result (λ telling. telling.end ≡ end) }
{
    let journal = empty_journal(alloc, kernel)?;
    Ok(Telling {
        chair,
        origin,
        before: cursor.count,
        journal,
        cursor,
        end,
    })
}

/// A dump of all that was seen of a chair's list, which has a log. The error is `TooMany`, or want of memory.
pub(crate) fn whole_telling(
    alloc: Global,
    chair: &Chair,
    end: &Cursor,
) -> Result<Telling, SeatRefusal>
    requires placed { IsPlaced end.now }
    requires list { end.now.seen.book ≡ (arc_value chair.now.list).start.book }
    ensures telling { IfOk result (λ telling. IsTelling telling) }
    ensures at { IfOk result (λ telling. IsAt telling 0) }
    ensures list { IfOk result (λ telling. arc_value telling.chair.list ≡ arc_value chair.now.list) }
    ensures origin { IfOk result (λ telling. telling.origin ≡ boot_checkpoint (arc_value chair.now.list).limits) }
    ensures state { IfOk result (λ telling. state_in telling ≡ booted (arc_value chair.now.list).limits) }
    ensures before { IfOk result (λ telling. telling.before ≡ 0) }
    ensures end { IfOk result (λ telling. telling.end.seen ≡ end.now.seen) }
{
    boots_can_begin();
    let Some(cursor) = chair.list.beginning() else {
        return Err(SeatRefusal::Memory);
    };
    let Ok(kernel) = Kernel::boot(alloc, &chair.list.limits) else {
        return Err(SeatRefusal::Memory);
    };
    let origin = boot_checkpoint(alloc, &chair.list.limits)?;
    let end = end.again()?;
    let other = chair_at(chair, &cursor)?;
    let telling = begin_telling(alloc, other, kernel, origin, cursor, end)?;
    Ok(telling)
}

/// Goes on to the next batch of a chair's list, and tells whether there was one.
fn pass_next(chair: &Chair, cursor: &mut Cursor) -> bool
    requires placed { IsPlaced cursor.old }
    requires list { cursor.old.seen.book ≡ (arc_value chair.now.list).start.book }
    ensures placed { IsPlaced cursor.new }
    ensures list { cursor.new.seen.book ≡ cursor.old.seen.book }
    ensures begins { IsPrefix cursor.old.seen.log cursor.new.seen.log }
    ensures count { IsTrue result → cursor.new.count ≡ cursor.old.count + 1 }
{
    if !chair.list.reach(cursor) {
        return false;
    }
    let Some(next) = cursor.block.next(cursor.at, &cursor.seen) else {
        return false;
    };
    let seen = next.seen.again();
    cursor.step(seen);
    true
}

/// A beginning of a chair's list of so many batches, which begins with this one. The error is `Short`, or want of memory.
pub(crate) fn end_at(chair: &Chair, cursor: &Cursor, count: usize) -> Result<Cursor, DumpRefusal>
    requires placed { IsPlaced cursor.now }
    requires list { cursor.now.seen.book ≡ (arc_value chair.now.list).start.book }
    requires within { cursor.now.count ≤ count }
    ensures placed { IfOk result (λ end. IsPlaced end) }
    ensures list { IfOk result (λ end. end.seen.book ≡ cursor.now.seen.book) }
    ensures begins { IfOk result (λ end. IsPrefix cursor.now.seen.log end.seen.log) }
    ensures count { IfOk result (λ end. end.count ≡ count) }
    ensures short { IsErrOf result DumpRefusal.Short → cursor.now.count < count }
    ensures other { IfErr result (λ why. (why ≢ DumpRefusal.NoLog) × (why ≢ DumpRefusal.Ahead)) }
{
    let Ok(mut end) = cursor.again() else {
        return Err(DumpRefusal::Memory);
    };
    while end.count < count {
        if !pass_next(chair, &mut end) {
            return Err(DumpRefusal::Short);
        }
    }
    Ok(end)
}

/// A dump of what comes in a chair's list after a beginning of it, up to an end; a kernel is in the state of that beginning. The error is
/// `TooMany`, or want of memory.
pub(crate) fn telling_since(
    alloc: Global,
    chair: &Chair,
    kernel: &Kernel,
    cursor: &Cursor,
    end: Cursor,
) -> Result<Telling, SeatRefusal>
    requires placed { IsPlaced cursor.now × IsPlaced end }
    requires list { (cursor.now.seen.book ≡ (arc_value chair.now.list).start.book) × (end.seen.book ≡ (arc_value chair.now.list).start.book) }
    requires within { cursor.now.count ≤ end.count }
    requires state { kernel_state kernel.now ≡ state_of (arc_value chair.now.list).limits cursor.now.seen.log }
    ensures telling { IfOk result (λ telling. IsTelling telling) }
    ensures at { IfOk result (λ telling. IsAt telling 0) }
    ensures list { IfOk result (λ telling. arc_value telling.chair.list ≡ arc_value chair.now.list) }
    ensures state { IfOk result (λ telling. state_in telling ≡ kernel_state kernel.now) }
    ensures before { IfOk result (λ telling. telling.before ≡ cursor.now.count) }
    ensures end { IfOk result (λ telling. telling.end ≡ end) }
{
    let origin = kernel.checkpoint(alloc, Vec::new(alloc))?;
    let kernel = kernel.copy(alloc)?;
    let cursor = cursor.again()?;
    let other = chair_at(chair, &cursor)?;
    let telling = begin_telling(alloc, other, kernel, origin, cursor, end)?;
    Ok(telling)
}
