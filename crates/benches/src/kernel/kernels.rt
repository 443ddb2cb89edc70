//! A kernel that is asked the same again and again.
use crate::asked::{
    asker, category_in, fix, is_done, link, map, name_object, new_container, new_segment,
    new_space, object_in, unref, use_space,
};
use crate::timing::nanos_since;
use anyhow::{Result, bail};
use base::{Category, Level, Limits, Meter, ObjectId};
use kernel_rules::{Call, Query, Reply};
use label_lattice::{Pair, Pairs, RawLabel};
use std::alloc::Global;
use std::rt::Clock;
use std::time::Instant;
use syscall_core::Kernel;

/// A kernel, the label of what is made in it, and the reply that each call and query puts where the one before it stood.
#[derive(Drop)]
pub struct Bench {
    kernel: Kernel,
    meter: Meter,
    label: RawLabel,
    reply: Reply,
}

/// A time, and how many of the calls that it took were done.
#[derive(Clone, Copy)]
pub struct Timed {
    /// Nanoseconds.
    pub nanos: u64,
    /// Calls that were not refused.
    pub done: u64,
}

/// The limits of a kernel with so many pages.
fn limits(pages: u32) -> Limits {
    Limits {
        pages,
        device: Level::L1,
        next_id: 4,
        next_category: 1,
    }
}

impl Bench {
    /// A booted kernel, in which what is made has the label 1.
    pub fn boot(alloc: Global, pages: u32) -> Result<Bench> {
        let meter = Meter::new(alloc)?;
        let kernel = Kernel::boot(alloc, &limits(pages))?;
        Ok(Bench {
            kernel,
            meter,
            label: RawLabel::new(Level::L1, &[]),
            reply: Reply::Done,
        })
    }

    /// The kernel and its memory go. (Here alone: what drops a kernel is long to prove.)
    pub fn free(self) {}

    /// Whether a call was done. Its reply is put where it is looked at: one that is returned is moved.
    fn ask(&mut self, call: &Call) -> bool {
        self.kernel
            .step_into(asker(), call, &mut self.reply, &mut self.meter);
        is_done(&self.reply)
    }

    /// A new category of the asker's.
    fn new_category(&mut self) -> Result<Category> {
        let reply = self
            .kernel
            .step_surely(asker(), &Call::CatCreate, &mut self.meter);
        match category_in(&reply) {
            Some(category) => Ok(category),
            None => bail!("no category"),
        }
    }

    /// What a call makes.
    fn made(&mut self, call: &Call) -> Result<ObjectId> {
        let reply = self.kernel.step_surely(asker(), call, &mut self.meter);
        match object_in(&reply) {
            Some(id) => Ok(id),
            None => bail!("nothing was made"),
        }
    }

    /// So many new categories: the asker owns them, and what is made from now on has 3 in each, up to 24 of them.
    pub fn own(&mut self, categories: u64) -> Result<()> {
        let mut pairs = Pairs::new();
        for _ in 0..categories {
            let category = self.new_category()?;
            if pairs.len() < 24 {
                pairs.push(Pair {
                    category,
                    level: Level::L3,
                });
            }
        }
        self.label = RawLabel {
            default: Level::L1,
            pairs,
        };
        Ok(())
    }

    /// A segment of so many pages.
    fn segment(&mut self, pages: u32) -> Result<ObjectId> {
        let call = new_segment(&self.label, pages);
        self.made(&call)
    }

    /// An address space.
    fn space(&mut self) -> Result<ObjectId> {
        let call = new_space(&self.label);
        self.made(&call)
    }

    /// A segment of a page, which the asker's space maps.
    pub fn mapped_segment(&mut self) -> Result<ObjectId> {
        let segment = self.segment(1)?;
        let space = self.space()?;
        self.ask(&map(space, segment));
        self.ask(&use_space(space));
        Ok(segment)
    }

    /// A segment without pages whose quota is fixed.
    pub fn fixed_segment(&mut self) -> Result<ObjectId> {
        let segment = self.segment(0)?;
        self.ask(&fix(segment));
        Ok(segment)
    }

    /// A container with room for such a segment.
    pub fn container(&mut self) -> Result<ObjectId> {
        let call = new_container(&self.label);
        self.made(&call)
    }

    /// So many segments without pages, or as many as there is room for.
    pub fn fill(&mut self, others: u64) {
        let call = new_segment(&self.label, 0);
        for _ in 0..others {
            self.ask(&call);
        }
    }

    /// A call that is made so often.
    pub fn time_step(&mut self, rt: &impl Clock, call: &Call, rounds: u64) -> Result<Timed> {
        let mut done = 0u64;
        let start = Instant::now(rt)?;
        for _ in 0..rounds {
            if self.ask(call) {
                done = done.wrapping_add(1);
            }
        }
        let nanos = nanos_since(rt, start)?;
        Ok(Timed { nanos, done })
    }

    /// A query that is made so often.
    pub fn time_ask(&mut self, rt: &impl Clock, query: &Query, rounds: u64) -> Result<Timed> {
        let mut done = 0u64;
        let start = Instant::now(rt)?;
        for _ in 0..rounds {
            self.kernel
                .ask_into(asker(), query, &mut self.reply, &mut self.meter);
            if is_done(&self.reply) {
                done = done.wrapping_add(1);
            }
        }
        let nanos = nanos_since(rt, start)?;
        Ok(Timed { nanos, done })
    }

    /// Makes an object in the root container, and takes it out again by a call that is told its id: whether both were
    /// done.
    fn make_and_unref(&mut self, making: &Call, unlinking: &mut Call) -> bool {
        self.kernel
            .step_into(asker(), making, &mut self.reply, &mut self.meter);
        match object_in(&self.reply) {
            Some(id) => {
                name_object(unlinking, id);
                self.ask(unlinking)
            }
            None => false,
        }
    }

    /// A segment without pages that is made and goes so often.
    pub fn time_segments(&mut self, rt: &impl Clock, rounds: u64) -> Result<Timed> {
        let making = new_segment(&self.label, 0);
        let mut unlinking = unref(ObjectId::root(), ObjectId::root());
        let mut done = 0u64;
        let start = Instant::now(rt)?;
        for _ in 0..rounds {
            if self.make_and_unref(&making, &mut unlinking) {
                done = done.wrapping_add(1);
            }
        }
        let nanos = nanos_since(rt, start)?;
        Ok(Timed { nanos, done })
    }

    /// A container's link to a segment that is made and goes so often.
    pub fn time_links(
        &mut self,
        rt: &impl Clock,
        container: ObjectId,
        segment: ObjectId,
        rounds: u64,
    ) -> Result<Timed> {
        let linking = link(container, segment);
        let unlinking = unref(container, segment);
        let mut done = 0u64;
        let start = Instant::now(rt)?;
        for _ in 0..rounds {
            if self.ask(&linking) && self.ask(&unlinking) {
                done = done.wrapping_add(1);
            }
        }
        let nanos = nanos_since(rt, start)?;
        Ok(Timed { nanos, done })
    }
}
