//! The pages of each slot, and the frames that they lie in.
ghost use Rattle.std.specs.Prelude.{◌≡◌, ◌+◌, ◌-◌, ◌<◌, ◌≤◌, [], ◌∷◌, ◌++◌, length, take, replicate};
ghost use Rattle.std.specs.Prelude.{IfOk, slice_set};
ghost use Rattle.base.specs.Counts.{probed, ProbesAtMost};
ghost use Rattle.kernel_rules.specs.Written.{written};

use crate::segments::tables::Table;
use base::{Data, Meter, NoMemory};
use std::alloc::Global;
use std::marker::Model;

/// The pages of each slot, of 256 bytes. A contract sees the list of them, by slot. A frame that no slot has holds 0 alone.
#[derive(Drop)]
pub struct Frames {
    frames: Vec<[u8; 256]>,
    // Of each slot, the frames of its pages.
    tables: Vec<Table>,
    free: Vec<usize>,
}

impl Model for Frames {
    ghost use Rattle.std.specs.Prelude.{◌≡◌, ◌≤◌, ℕ, List, map, length, vec_capacity};
    ghost use Rattle.arena_memory.specs.Pages.{pages_from, IsKept};

    ghost Value = { List (List (List ℕ)) };

    ghost view = { λ a. map (pages_from a.frames.items) a.tables.items };

    ghost invariant = { λ a. IsKept a.frames.items a.tables.items a.free.items
        × (length a.frames.items ≡ length a.tables.items)
        × (length a.frames.items ≤ vec_capacity a.free) };
}

// Writes over the bytes of a page from one on. (Most who write give as many as data hold, and these are moved at once.)
#[inline(always)]
fn overwrite(page: &mut [u8; 256], from: usize, part: &[u8])
    requires { from + length part.now ≤ 256 }
    ensures { page.new ≡ written from part.now page.old }
{
    if part.len() == Data::MOST {
        page[from..from + Data::MOST].copy_from_slice(part);
    } else {
        page[from..from + part.len()].copy_from_slice(part);
    }
}

impl Frames {
    ghost use Rattle.arena_memory.specs.Pages.{pages_at, page_at, page_total, IsPaged};

    /// So many slots without a page, and as many frames. Only this takes memory; the error is want of it.
    pub fn boot(alloc: Global, slots: usize) -> Result<Frames, NoMemory>
        ensures { IfOk result (λ frames. frames ≡ replicate slots []) }
    {
        let mut frames = Vec::with_capacity(alloc, slots)?;
        let mut tables = Vec::with_capacity(alloc, slots)?;
        let mut free = Vec::with_capacity(alloc, slots)?;
        for frame in 0..slots {
            frames.push_reserved([0; 256]);
            tables.push_reserved(Table::new());
            free.push_reserved(frame);
        }
        Ok(Frames {
            frames,
            tables,
            free,
        })
    }

    /// How many slots there are.
    pub fn slots(&self) -> usize
        ensures { result ≡ length self.now }
    {
        self.tables.len()
    }

    /// How many pages a slot has.
    pub fn count(&self, slot: usize) -> usize
        requires { slot < length self.now }
        ensures count { result ≡ length (pages_at self.now slot) }
        ensures paged { IsPaged self.now }
    {
        self.tables[slot].len()
    }

    /// A page of a slot. One probe.
    pub fn page(&self, slot: usize, place: usize, meter: &mut Meter) -> &[u8; 256]
        requires slot { slot < length self.now }
        requires place { place < length (pages_at self.now slot) }
        ensures value { result.now ≡ page_at self.now slot place }
        ensures counted { meter.new ≡ probed 1 meter.old }
    {
        meter.probe();
        let frame = self.tables[slot].at(place);
        &self.frames[frame]
    }

    /// Writes over a page of a slot from a byte on, as far as the page goes. All others stay. One probe.
    pub fn put(&mut self, slot: usize, place: usize, from: usize, part: &[u8], meter: &mut Meter)
        requires slot { slot < length self.old }
        requires place { place < length (pages_at self.old slot) }
        requires within { from + length part.now ≤ 256 }
        ensures after { self.new ≡ slice_set self.old slot (slice_set (pages_at self.old slot) place
            (written from part.now (page_at self.old slot place))) }
        ensures counted { meter.new ≡ probed 1 meter.old }
    {
        meter.probe();
        let frame = self.tables[slot].at(place);
        let page = &mut self.frames[frame];
        overwrite(page, from, part);
    }

    /// Gives a slot one more page, with these bytes. All others stay. One probe.
    pub fn push(&mut self, slot: usize, page: &[u8; 256], meter: &mut Meter)
        requires slot { slot < length self.old }
        requires few { length (pages_at self.old slot) < 16 }
        requires room { page_total self.old < length self.old }
        ensures after { self.new
            ≡ slice_set self.old slot (pages_at self.old slot ++ page.now ∷ []) }
        ensures counted { meter.new ≡ probed 1 meter.old }
    {
        meter.probe();
        match self.free.pop() {
            Some(frame) => {
                let table = &mut self.tables[slot];
                table.push(frame);
                self.frames[frame] = *page;
            }
            None => unreachable!(),
        }
    }

    /// Takes the last page from a slot. All others stay. One probe. (Its frame is cleared: a frame that is free holds 0 alone.)
    pub fn pop(&mut self, slot: usize, meter: &mut Meter)
        requires slot { slot < length self.old }
        requires some { 0 < length (pages_at self.old slot) }
        ensures after { self.new ≡ slice_set self.old slot
            (take (length (pages_at self.old slot) - 1) (pages_at self.old slot)) }
        ensures counted { meter.new ≡ probed 1 meter.old }
    {
        meter.probe();
        let table = &mut self.tables[slot];
        let frame = table.pop();
        self.frames[frame] = [0; 256];
        self.free.push_reserved(frame);
    }

    /// Pages are 256 bytes, a slot has 16 at most, and all have no more than there are slots. Nothing is done: a caller's
    /// proof has this from a call.
    pub fn paged(&self)
        ensures { IsPaged self.now }
    {
        let _frames = &self.frames;
    }

    /// Takes the pages of a slot from a place on, if it has as many. All others stay. At most 16 probes.
    pub fn shrink(&mut self, slot: usize, pages: usize, meter: &mut Meter)
        requires { slot < length self.old }
        ensures after { self.new ≡ slice_set self.old slot (take pages (pages_at self.old slot)) }
        ensures probes { ProbesAtMost (length (pages_at self.old slot) - pages) meter.old meter.new }
    {
        while self.count(slot) > pages {
            self.pop(slot, meter);
        }
    }

    /// Gives a slot pages of 0, until it has so many. All others stay. At most 16 probes.
    pub fn grow(&mut self, slot: usize, pages: usize, meter: &mut Meter)
        requires slot { slot < length self.old }
        requires few { pages ≤ 16 }
        requires room { page_total self.old + pages
            ≤ length self.old + length (pages_at self.old slot) }
        ensures after { self.new ≡ slice_set self.old slot (pages_at self.old slot
            ++ replicate (pages - length (pages_at self.old slot)) (replicate 256 0)) }
        ensures probes { ProbesAtMost (pages - length (pages_at self.old slot)) meter.old meter.new }
    {
        while self.count(slot) < pages {
            self.push(slot, &[0; 256], meter);
        }
    }

    /// Gives a slot without a page the pages of another. All others stay. Two probes a page.
    pub fn append(&mut self, from: usize, to: usize, meter: &mut Meter)
        requires from { from < length self.old }
        requires to { to < length self.old }
        requires blank { pages_at self.old to ≡ [] }
        requires room { page_total self.old + length (pages_at self.old from) ≤ length self.old }
        ensures after { self.new ≡ slice_set self.old to (pages_at self.old from) }
        ensures probes { ProbesAtMost 32 meter.old meter.new }
    {
        let count = self.count(from);
        for place in 0..count {
            let page = *self.page(from, place, meter);
            self.push(to, &page, meter);
        }
    }
}
