//! The list of calls.
ghost use Rattle.std.specs.Prelude.{◌≡◌, ◌+◌, ◌<◌, ◌^◌, ◌++◌, ◌∷◌, [], IfOk, IfSome, IfNone, IsErrOf, IsTrue, OnOk, OnErr, length, true};
ghost use Rattle.logbook.specs.Pages.{may_write};
ghost use Rattle.kernel_rules.specs.History.{is_batch};
ghost use Rattle.shared_calls.specs.Cursors.{IsPlaced};
ghost use Rattle.shared_calls.specs.Knowledge.{IsKnown};
ghost use Rattle.shared_calls.specs.Lists.{AreMarked, IsSource, Lacks, head_of, made, source_of, word_of};

use crate::blocks::PLACES;
use crate::cursors::Cursor;
use crate::directory::Directory;
use crate::refusals::SubmitRefusal;
use crate::rules::{Add, Asked, Draw, Entry, Law, Look, Made, Marked, Nothing, Prefix, Tracked};
use crate::standing::Standing;
use base::{Limits, NoMemory};
use kept_events::KeptCall;
use logbook::{Offer, Pen, Seen, Start, Word};
use std::alloc::Global;

/// The one list of the batches of all seats. Threads share it. A block that all its seats have passed is given back, unless the list
/// has a log.
#[derive(Drop)]
pub(crate) struct CallList {
    pub(crate) head: Tracked,
    pub(crate) source: Tracked,
    pub(crate) directory: Directory,
    pub(crate) standing: Standing,
    pub(crate) limits: Limits,
    pub(crate) is_logged: bool,
    pub(crate) start: Prefix,
    pub(crate) ghost headed: { head ≡ head_of start.book },
    pub(crate) ghost sourced: { source ≡ source_of start.book },
    pub(crate) ghost own: { directory.start.book ≡ start.book },
    pub(crate) ghost empty: { start.log ≡ [] },
}

/// What a seat knows of the list: a beginning of it, and the mark of the seat's next batch, which no batch of the list has as long as
/// the seat has the right to it.
#[derive(Drop)]
pub(crate) struct Known {
    /// How far the seat has seen the list.
    pub(crate) cursor: Cursor,
    /// The word of the mark, which is not at home.
    pub(crate) word: Tracked,
    /// The right to bring it home.
    pub(crate) pen: Pen,
}

/// A mark which no batch has: its word, and the right to bring it home. It is drawn from a word that is at home.
fn draw(from: &Tracked, seen: &Prefix) -> (Tracked, Pen)
    requires word { from.now ≡ word_of seen.now.book from.now.key }
    requires source { IsSource from.now.key seen.now.log }
    ensures word { result.0 ≡ word_of seen.now.book result.1.nib.key }
    ensures book { result.1.book ≡ seen.now.book }
    ensures right { result.1.nib.right ≡ may_write }
{
    let mut later = seen.again();
    let mut offer: Offer<Made, u64, Law, Nothing> = later.plain::<Nothing, (), Draw>(&());
    let mut pen = later.no_pen();
    from.compare_exchange::<Draw, Nothing>(0, 0, &mut later, &mut offer, &mut pen);
    let word = Word::tracked(0, &mut pen);
    (word, pen)
}

impl Known {
    /// One batch more was seen, which has the mark. Another mark is drawn from its word.
    fn renew(&mut self, next: Prefix)
        requires word { self.old.word ≡ word_of next.book self.old.word.key }
        requires source { IsSource self.old.word.key next.log }
        requires placed { IsPlaced self.old.cursor }
        requires within { self.old.cursor.at < 256 }
        requires list { next.book ≡ self.old.cursor.seen.book }
        requires count { length next.log ≡ length self.old.cursor.seen.log + 1 }
        ensures known { IsKnown next.book self.new }
        ensures seen { self.new.cursor.seen ≡ next }
    {
        let (word, pen) = draw(&self.word, &next);
        self.cursor.step(next);
        self.word = word;
        self.pen = pen;
    }
}

impl CallList {
    /// An empty list, of calls to a kernel with these limits. A seat may lack so many batches of it; with a log it may have so many.
    /// The error is want of memory.
    pub(crate) fn new(
        alloc: Global,
        limits: &Limits,
        most: usize,
        is_logged: bool,
    ) -> Result<CallList, NoMemory>
        ensures limits { IfOk result (λ list. list.limits ≡ limits.now) }
        ensures log { IfOk result (λ list. list.is_logged ≡ is_logged) }
    {
        let (start, mut first, mut second) = Seen::open(Start::alone(), 0, 0);
        let head = Word::tracked(0, &mut first);
        let source = Word::tracked(0, &mut second);
        let directory = Directory::new(alloc, &start, most)?;
        let standing = Standing::new(alloc)?;
        Ok(CallList {
            head,
            source,
            directory,
            standing,
            limits: *limits,
            is_logged,
            start,
        })
    }

    /// Before the first batch. None where the first block is not laid.
    pub(crate) fn beginning(&self) -> Option<Cursor>
        ensures placed { IfSome result (λ cursor. IsPlaced cursor) }
        ensures seen { IfSome result (λ cursor. cursor.seen ≡ self.now.start) }
    {
        let block = self.directory.find(0)?;
        Some(Cursor {
            count: 0,
            seen: self.start.again(),
            block,
            at: 0,
        })
    }

    /// What a seat knows that has seen so far.
    pub(crate) fn known_at(&self, cursor: Cursor) -> Known
        requires placed { IsPlaced cursor }
        requires list { cursor.seen.book ≡ self.now.start.book }
        ensures known { IsKnown self.now.start.book result }
        ensures seen { result.cursor.seen ≡ cursor.seen }
    {
        let (word, pen) = draw(&self.source, &cursor.seen);
        Known { cursor, word, pen }
    }

    /// Lays the block of this number where it does not stand, and gives back those that all seats have passed. The error is `Full`
    /// where there is no room for it, `Memory`, or `Busy` where another seat is about it.
    #[cold]
    pub(crate) fn lay(&self, alloc: Global, number: usize) -> Result<(), SubmitRefusal>
        ensures { IsErrOf result SubmitRefusal.BadBatch → ⊥ }
    {
        let is_known = self.is_logged || self.directory.give_back(&self.standing);
        match self.directory.lay(alloc, number) {
            Err(SubmitRefusal::Full) if !is_known => Err(SubmitRefusal::Busy),
            laid => laid,
        }
    }

    /// Goes on to the next block where its own was seen to the end and that is laid, and tells whether the next place is in its block.
    pub(crate) fn reach(&self, cursor: &mut Cursor) -> bool
        requires placed { IsPlaced cursor.old }
        requires list { cursor.old.seen.book ≡ self.now.start.book }
        ensures placed { IsPlaced cursor.new }
        ensures seen { cursor.new.seen ≡ cursor.old.seen }
        ensures within { IsTrue result → cursor.new.at < 256 }
    {
        if cursor.at < PLACES {
            return true;
        }
        let Some(block) = self.directory.find(cursor.block.number + 1) else {
            return false;
        };
        cursor.block = block;
        cursor.at = 0;
        true
    }

    /// Adds a batch to what is known of the list, where that is all of it, and gives the list with it: the right to its mark is used
    /// up then. None where the list is longer: nothing is added, and the right is as it was.
    fn exchange(&self, known: &mut Known, asked: &Asked<'_>) -> Option<Prefix>
        requires known { IsKnown self.now.start.book known.old }
        requires size { is_batch (asked.now.call.now ∷ asked.now.more.now) ≡ true }
        requires room { known.old.cursor.count + 1 < 2 ^ 64 }
        ensures rest { known.new ≡ record known.old { pen = known.new.pen } }
        ensures book { IfSome result (λ next. next.book ≡ self.now.start.book) }
        ensures log { IfSome result (λ next. next.log ≡ known.old.cursor.seen.log
            ++ made known.old.pen.nib.key asked.now.thread (asked.now.call.now ∷ asked.now.more.now) ∷ []) }
        ensures none { IfNone result
            ((known.new.pen.book ≡ known.old.pen.book) × (known.new.pen.nib ≡ known.old.pen.nib)) }
    {
        let mut next = known.cursor.seen.again();
        let marked = Marked {
            asked,
            pen: &known.pen,
        };
        let mut offer: Offer<Made, u64, Law, Nothing> = next.plain::<Nothing, Marked<'_>, Add>(
            &marked,
        );
        let count = known.cursor.count as u64;
        let found = self
            .head
            .compare_exchange::<Add, Nothing>(
                count,
                count + 1,
                &mut next,
                &mut offer,
                &mut known.pen,
            );
        if found == count {
            return Some(next);
        }
        None
    }

    /// Adds a batch to what is known of the list, where that is all of it and the place is in the block. It has the mark that was kept
    /// for it, and another mark is drawn. The error is `Busy`, where the list is longer: nothing is added then, and the mark is kept.
    pub(crate) fn add(
        &self,
        known: &mut Known,
        asked: &Asked<'_>,
        call: KeptCall,
        more: Vec<KeptCall>,
    ) -> Result<(), SubmitRefusal>
        requires known { IsKnown self.now.start.book known.old }
        requires size { is_batch (asked.now.call.now ∷ asked.now.more.now) ≡ true }
        requires kept { call ∷ more.items ≡ asked.now.call.now ∷ asked.now.more.now }
        requires within { known.old.cursor.at < 256 }
        ensures known { IsKnown self.now.start.book known.new }
        ensures log { OnOk result (known.new.cursor.seen.log ≡ known.old.cursor.seen.log
            ++ made known.old.pen.nib.key asked.now.thread (asked.now.call.now ∷ asked.now.more.now) ∷ []) }
        ensures seen { OnErr result (known.new.cursor.seen ≡ known.old.cursor.seen) }
        ensures mark { OnErr result (known.new.pen.nib ≡ known.old.pen.nib) }
        ensures good { IsErrOf result SubmitRefusal.BadBatch → ⊥ }
    {
        let Some(next) = self.exchange(known, asked) else {
            return Err(SubmitRefusal::Busy);
        };
        let entry = Entry {
            thread: asked.thread,
            call,
            more,
            seen: next.again(),
        };
        drop(known.cursor.block.places[known.cursor.at].set_written(entry));
        known.renew(next);
        Ok(())
    }

    /// A look at the list, which changes nothing: no batch that was seen of it has the mark of what is known, and no two have one
    /// mark.
    pub(crate) fn look(&self, known: &mut Known, seen: &Prefix)
        requires known { IsKnown self.now.start.book known.old }
        requires book { seen.now.book ≡ self.now.start.book }
        ensures known { IsKnown self.now.start.book known.new }
        ensures rest { known.new ≡ record known.old { pen = known.new.pen } }
        ensures mark { known.new.pen.nib ≡ known.old.pen.nib }
        ensures lacks { Lacks known.old.pen.nib.key seen.now.log }
        ensures marked { AreMarked seen.now.log }
    {
        let mut later = seen.again();
        let mut offer: Offer<Made, u64, Law, Nothing> = later.plain::<Nothing, (), Draw>(&());
        self.head
            .compare_exchange::<Look, Nothing>(0, 0, &mut later, &mut offer, &mut known.pen);
    }
}
