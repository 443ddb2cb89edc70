//! The bytes of segments, by slot.
ghost use Rattle.std.specs.Prelude.{◌≡◌, ◌+◌, ◌*◌, ◌/◌, ◌<◌, ◌≤◌, [], ◌++◌, length, replicate, IfOk};
ghost use Rattle.std.specs.Prelude.{slice_range, slice_set};
ghost use Rattle.base.specs.Counts.{ProbesAtMost};
ghost use Rattle.kernel_rules.specs.Written.{written, resized};

use crate::segments::frames::Frames;
use base::{Data, Meter, NoMemory, Slot};
use std::alloc::Global;
use std::marker::Model;

/// The bytes of each slot, 0 to 16 pages of 256. There are as many frames for them as slots. A contract sees the list of
/// the bytes, by slot; a slot that is no segment has none.
#[derive(Drop)]
pub struct Segments {
    frames: Frames,
}

impl Model for Segments {
    ghost use Rattle.std.specs.Prelude.{ℕ, List, map};
    ghost use Rattle.std.specs.List.{concat};

    ghost Value = { List (List ℕ) };

    ghost view = { λ a. map concat a.frames };
}

// So many bytes of a page, up to 64, from one on. (Most who read ask for as many as data hold, and these are moved at once.)
fn part(page: &[u8; 256], from: usize, count: usize) -> Data
    requires few { count ≤ 64 }
    requires within { from + count ≤ 256 }
    ensures { result ≡ slice_range page.now from (from + count) }
{
    if count == Data::MOST {
        Data::from_slice(&page[from..from + Data::MOST])
    } else {
        Data::from_slice(&page[from..from + count])
    }
}

// Some bytes and then others, up to 64 in all.
fn joined(first: &[u8], second: &[u8]) -> Data
    requires { length first.now + length second.now ≤ 64 }
    ensures { result ≡ first.now ++ second.now }
{
    let mut bytes = [0; 64];
    let middle = first.len();
    let end = middle + second.len();
    bytes[..middle].copy_from_slice(first);
    bytes[middle..end].copy_from_slice(second);
    Data::from_slice(&bytes[..end])
}

impl Segments {
    ghost use Rattle.arena_memory.specs.Segments.{bytes_in, pages_in, HasRoom, IsWellFormed};

    /// So many slots with no byte, and as many frames. Only this takes memory; the error is want of it.
    pub fn boot(alloc: Global, slots: usize) -> Result<Segments, NoMemory>
        ensures { IfOk result (λ segments. segments ≡ replicate slots []) }
    {
        let frames = Frames::boot(alloc, slots)?;
        Ok(Segments { frames })
    }

    /// Each slot has whole pages, 16 at most, and all have no more than there are slots. Nothing is done: a caller's proof
    /// has this from a call.
    pub fn well_formed(&self)
        ensures { IsWellFormed self.now }
    {
        self.frames.paged();
    }

    /// How many slots there are.
    pub fn slots(&self) -> usize
        ensures { result ≡ length self.now }
    {
        self.frames.slots()
    }

    /// How many pages of 256 bytes a slot has, 0 to 16.
    pub fn page_count(&self, slot: Slot) -> u32
        requires { slot.0 < length self.now }
        ensures { result ≡ pages_in self.now slot.0 }
    {
        self.frames.count(slot.0) as u32
    }

    /// So many bytes of a slot, up to 64, from a byte on, where 0 is the first. At most two probes.
    pub fn read(&self, slot: Slot, from: usize, count: usize, meter: &mut Meter) -> Data
        requires slot { slot.0 < length self.now }
        requires few { count ≤ 64 }
        requires within { from + count ≤ length (bytes_in self.now slot.0) }
        ensures value { result ≡ slice_range (bytes_in self.now slot.0) from (from + count) }
        ensures probes { ProbesAtMost 2 meter.old meter.new }
    {
        if count == 0 {
            return Data::from_slice(&[]);
        }
        self.frames.paged();
        let place = from / 256;
        let offset = from % 256;
        let page = self.frames.page(slot.0, place, meter);
        let first = 256 - offset;
        if count <= first {
            return part(page, offset, count);
        }
        let next = self.frames.page(slot.0, place + 1, meter);
        joined(&page[offset..], &next[..count - first])
    }

    // Writes over the bytes of a slot from a byte on, page by page.
    #[inline(never)]
    fn write_pages(&mut self, slot: Slot, at: usize, given: &[u8], meter: &mut Meter)
        requires slot { slot.0 < length self.old }
        requires within { at + length given.now ≤ length (bytes_in self.old slot.0) }
        ensures after { self.new
            ≡ slice_set self.old slot.0 (written at given.now (bytes_in self.old slot.0)) }
        ensures probes { ProbesAtMost (length given.now / 256 + 2) meter.old meter.new }
    {
        let mut done = 0;
        while done < given.len() {
            self.frames.paged();
            let place = (at + done) / 256;
            let offset = (at + done) % 256;
            let part = (given.len() - done).min(256 - offset);
            self.frames
                .put(slot.0, place, offset, &given[done..done + part], meter);
            done += part;
        }
    }

    /// Writes over the bytes of a slot from a byte on, where 0 is the first. All other bytes stay. At most two probes, and
    /// one for each 256 bytes that are given. (It is put into those who write: most write within one page.)
    #[inline(always)]
    pub fn write(&mut self, slot: Slot, at: usize, given: &[u8], meter: &mut Meter)
        requires slot { slot.0 < length self.old }
        requires within { at + length given.now ≤ length (bytes_in self.old slot.0) }
        ensures after { self.new
            ≡ slice_set self.old slot.0 (written at given.now (bytes_in self.old slot.0)) }
        ensures probes { ProbesAtMost (length given.now / 256 + 2) meter.old meter.new }
    {
        let offset = at % 256;
        if 0 < given.len() && given.len() <= 256 - offset {
            self.frames.paged();
            self.frames.put(slot.0, at / 256, offset, given, meter);
        } else {
            self.write_pages(slot, at, given, meter);
        }
    }

    /// Gives a slot so many pages, 16 at most: what is cut off is gone, what is new is 0. All other slots stay. At most 16
    /// probes.
    pub fn resize(&mut self, slot: Slot, pages: u32, meter: &mut Meter)
        requires slot { slot.0 < length self.old }
        requires few { pages ≤ 16 }
        requires room { HasRoom self.old slot.0 pages }
        ensures after { self.new
            ≡ slice_set self.old slot.0 (resized (256 * pages) (bytes_in self.old slot.0)) }
        ensures probes { ProbesAtMost 16 meter.old meter.new }
    {
        self.frames.paged();
        self.frames.shrink(slot.0, pages as usize, meter);
        self.frames.grow(slot.0, pages as usize, meter);
    }

    /// Takes all bytes from a slot, if it has any. All other slots stay. At most 16 probes.
    pub fn clear(&mut self, slot: Slot, meter: &mut Meter)
        requires { slot.0 < length self.old }
        ensures after { self.new ≡ slice_set self.old slot.0 [] }
        ensures probes { ProbesAtMost 16 meter.old meter.new }
    {
        self.frames.paged();
        self.frames.shrink(slot.0, 0, meter);
    }

    /// Gives a slot that has no byte the bytes of another. All other slots stay. At most 32 probes.
    pub fn copy(&mut self, from: Slot, to: Slot, meter: &mut Meter)
        requires from { from.0 < length self.old }
        requires to { to.0 < length self.old }
        requires blank { bytes_in self.old to.0 ≡ [] }
        requires room { HasRoom self.old to.0 (pages_in self.old from.0) }
        ensures after { self.new ≡ slice_set self.old to.0 (bytes_in self.old from.0) }
        ensures probes { ProbesAtMost 32 meter.old meter.new }
    {
        self.frames.paged();
        self.frames.append(from.0, to.0, meter);
    }
}
