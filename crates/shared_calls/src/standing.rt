//! In which blocks of the list its seats stand. What a seat plays does not rest on it: a wrong number here could only keep a block too
//! long, or give back one that a seat lacks, which then sees no more of the list.
use base::NoMemory;
use std::alloc::Global;
use std::sync::atomic::AtomicU64;
use std::sync::atomic::Ordering::SeqCst;

/// How many seats a list may have at a time.
pub(crate) const SEATS: usize = 4096;

/// In which block each seat stands.
#[derive(Drop)]
pub(crate) struct Standing {
    /// One more than the number of the block in which a seat stands; 0 where there is no seat.
    words: Vec<AtomicU64>,
    /// How many of the words have been a seat's.
    used: AtomicU64,
    /// How many seats were opened.
    opened: AtomicU64,
}

impl Standing {
    /// Where no seat stands. The error is want of memory.
    pub(crate) fn new(alloc: Global) -> Result<Standing, NoMemory> {
        let mut words = Vec::with_capacity(alloc, SEATS)?;
        for _ in 0..SEATS {
            words.push(AtomicU64::new(0))?;
        }
        Ok(Standing {
            words,
            used: AtomicU64::new(0),
            opened: AtomicU64::new(0),
        })
    }

    /// No fewer words are used than so many.
    fn raise(&self, used: u64) {
        for _ in 0..u64::MAX {
            let seen = self.used.load(SeqCst);
            if seen >= used
                || self
                    .used
                    .compare_exchange(seen, used, SeqCst, SeqCst)
                    .is_ok()
            {
                return;
            }
        }
    }

    /// A word for a seat that stands in that block, beside another that does. None where each word is a seat's.
    pub(crate) fn sit(&self, block: usize) -> Option<usize> {
        let stands = (block as u64).saturating_add(1);
        for at in 0..self.words.len() {
            let word = &self.words[at];
            if word.load(SeqCst) == 0 && word.compare_exchange(0, stands, SeqCst, SeqCst).is_ok() {
                self.raise(at as u64 + 1);
                self.opened.fetch_add(1, SeqCst);
                return Some(at);
            }
        }
        None
    }

    /// The seat of this word stands in that block.
    pub(crate) fn stand(&self, at: usize, block: usize) {
        if let Some(word) = self.words.get(at) {
            word.store((block as u64).saturating_add(1), SeqCst);
        }
    }

    /// The word is no seat's.
    pub(crate) fn leave(&self, at: usize) {
        if let Some(word) = self.words.get(at) {
            word.store(0, SeqCst);
        }
    }

    /// The least number of a block in which a seat stands. None where none stands anywhere, and where a seat was opened meanwhile: it
    /// may stand where the look had been already, and the seat beside which it was opened may have gone on.
    pub(crate) fn least(&self) -> Option<usize> {
        let opened = self.opened.load(SeqCst);
        let used = self.used.load(SeqCst) as usize;
        let mut least = u64::MAX;
        for at in 0..used.min(self.words.len()) {
            let word = self.words[at].load(SeqCst);
            if word != 0 {
                least = least.min(word - 1);
            }
        }
        if least == u64::MAX || self.opened.load(SeqCst) != opened {
            return None;
        }
        Some(least as usize)
    }
}
