//! Where the blocks of a list stand.
ghost use Rattle.std.specs.Prelude.{◌≡◌, ◌≢◌, ◌+◌, ◌*◌, ◌%◌, ◌/◌, ◌<◌, ◌≤◌, ◌^◌, length, IfOk, IfSome, IsSome, IsErrOf};
ghost use Rattle.std.specs.Arc.{arc_value};
ghost use Rattle.counted_slot.specs.Counting.{readers};
ghost use Rattle.shared_calls.specs.Directories.{AreOf};

use crate::blocks::{BLOCKS, Block, PLACES};
use crate::refusals::SubmitRefusal;
use crate::rules::Prefix;
use crate::standing::Standing;
use base::NoMemory;
use counted_slot::{Counted, FREE, Fits, MOST_READERS, ONE_READER, PRESENT, TAKEN};
use std::alloc::Global;
use std::sync::Arc;
use std::sync::atomic::AtomicU64;
use std::sync::atomic::Ordering::SeqCst;

/// A block that is laid.
#[derive(Drop)]
pub(crate) struct Laid {
    pub(crate) block: Arc<Block>,
}

impl Fits for Laid {
    type Tag = Prefix;

    ghost fits = { λ start laid. (arc_value laid.block).start.book ≡ start.book };
}

/// Where a block may stand. Its word has the number of the block in its high half.
pub(crate) type Slot = Counted<Option<Laid>>;

/// The blocks of a list, those that are laid and not given back: each stands in the slot of its number, taken round the ring of slots.
#[derive(Drop)]
pub(crate) struct Directory {
    pub(crate) slots: Vec<Slot>,
    /// No block before this one stands in a slot.
    pub(crate) first: AtomicU64,
    pub(crate) start: Prefix,
    pub(crate) ghost own: { AreOf (λ s. s.book) start.book slots.items },
    pub(crate) ghost some: { 0 < length slots.items },
}

/// How many slots there are at most.
const SLOTS: usize = 1 << 14;

/// The high half of a word, in its place, that tells of the block of this number.
fn high_of(number: usize) -> u64
    ensures { result % 4294967296 ≡ 0 }
{
    number as u64 % 0x1_0000_0000 * 0x1_0000_0000
}

/// Whether a word tells of the block of this number.
fn is_of(word: u64, number: usize) -> bool {
    word / 0x1_0000_0000 == number as u64 % 0x1_0000_0000
}

/// How many read by this word.
fn reader_count(word: u64) -> u64
    ensures { result ≡ readers word }
{
    word % 0x1_0000_0000 / ONE_READER
}

/// How many slots serve for so many batches and a block that is being filled.
fn slots_for(most: usize) -> usize
    ensures { 0 < result }
{
    (most / PLACES).min(SLOTS - 2) + 2
}

/// Slots of a list, in which no block stands. The error is want of memory.
fn new_slots(alloc: Global, start: &Prefix, count: usize) -> Result<Vec<Slot>, NoMemory>
    ensures own { IfOk result (λ slots. AreOf (λ s. s.book) start.now.book slots.items) }
    ensures count { IfOk result (λ slots. length slots.items ≡ count) }
{
    let mut slots = Vec::with_capacity(alloc, count)?;
    let mut number = 0;
    while number < count {
        slots.push_reserved(Counted::new(None, start));
        number += 1;
    }
    Ok(slots)
}

/// A block of this number in which nothing stands. The error is want of memory.
fn new_block(alloc: Global, start: &Prefix, number: usize) -> Result<Arc<Block>, NoMemory>
    requires { number < 2 ^ 50 }
    ensures { IfOk result (λ block. (arc_value block).start.book ≡ start.now.book) }
{
    let block = Block::new(alloc, start, number)?;
    Ok(Arc::new(alloc, block)?)
}

/// The block that stands in a slot, where it is the one of this number.
fn shown(standing: &Option<Laid>, number: usize) -> Option<Arc<Block>>
    ensures number { IfSome result (λ block. (arc_value block).number ≡ number) }
    ensures same { IfSome result (λ block.
        IfSome standing.now (λ laid. arc_value block ≡ arc_value laid.block)) }
    ensures some { IfSome result (λ _. IsSome standing.now) }
{
    match standing {
        Some(laid) if laid.block.number == number => match Arc::try_clone(&laid.block) {
            Ok(block) => Some(block),
            Err(_) => None,
        },
        _ => None,
    }
}

impl Directory {
    /// Where no block of a list stands, with slots for so many batches. The error is want of memory.
    pub(crate) fn new(alloc: Global, start: &Prefix, most: usize) -> Result<Directory, NoMemory>
        ensures { IfOk result (λ directory. directory.start.book ≡ start.now.book) }
    {
        let slots = new_slots(alloc, start, slots_for(most))?;
        Ok(Directory {
            slots,
            first: AtomicU64::new(0),
            start: start.again(),
        })
    }

    /// The slot of this number.
    fn slot(&self, number: usize) -> &Slot
        ensures { result.now.book ≡ self.now.start.book }
    {
        &self.slots[number % self.slots.len()]
    }

    /// The block of this number, where it stands.
    pub(crate) fn find(&self, number: usize) -> Option<Arc<Block>>
        ensures number { IfSome result (λ block. (arc_value block).number ≡ number) }
        ensures list { IfSome result (λ block. (arc_value block).start.book ≡ self.now.start.book) }
    {
        let slot = self.slot(number);
        for _ in 0..u64::MAX {
            let word = slot.load();
            if word % 4 != PRESENT || !is_of(word, number) || reader_count(word) == MOST_READERS {
                return None;
            }
            let (found, claim) = slot.turn(word, word + ONE_READER);
            if found == word {
                let block = shown(claim.get(), number);
                claim.leave();
                return block;
            }
            claim.done();
        }
        None
    }

    /// Lays the block of this number where it does not stand. The error is `Full` where a block stands in its slot that is not given
    /// back, `Memory`, or `Busy` where another seat uses the slot at this moment.
    pub(crate) fn lay(&self, alloc: Global, number: usize) -> Result<(), SubmitRefusal>
        ensures { IsErrOf result SubmitRefusal.BadBatch → ⊥ }
    {
        let slot = self.slot(number);
        let word = slot.load();
        if word % 4 == PRESENT && is_of(word, number) {
            return Ok(());
        }
        if number >= BLOCKS || word % 4 == PRESENT && reader_count(word) == 0 {
            return Err(SubmitRefusal::Full);
        }
        if word % 4 != FREE {
            return Err(SubmitRefusal::Busy);
        }
        let block = new_block(alloc, &self.start, number)?;
        let (found, claim) = slot.turn(word, word + TAKEN);
        if found != word {
            claim.done();
            return Err(SubmitRefusal::Busy);
        }
        drop(claim.put(Some(Laid { block }), high_of(number) + PRESENT));
        Ok(())
    }

    /// Takes the block of this number out of its slot where no seat reads there, and tells whether it stands there no more.
    fn take_out(&self, number: usize) -> bool {
        let slot = self.slot(number);
        let word = slot.load();
        if word % 4 == FREE || !is_of(word, number) {
            return true;
        }
        if word % 4 != PRESENT || reader_count(word) != 0 {
            return false;
        }
        let (found, claim) = slot.turn(word, word + (TAKEN - PRESENT));
        if found != word {
            claim.done();
            return false;
        }
        drop(claim.put(None, high_of(number)));
        true
    }

    /// Takes out the blocks that all seats have passed. It tells whether it knew which they are: it does not where no seat
    /// stands yet, or one was opened meanwhile.
    pub(crate) fn give_back(&self, standing: &Standing) -> bool {
        let Some(least) = standing.least() else {
            return false;
        };
        let mut number = self.first.load(SeqCst);
        for _ in 0..self.slots.len() {
            if number >= least as u64 || !self.take_out(number as usize) {
                break;
            }
            number += 1;
        }
        self.first.store(number, SeqCst);
        true
    }
}
