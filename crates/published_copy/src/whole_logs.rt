//! The whole log, as the lock's holder knows it.
ghost use Rattle.std.specs.Prelude.{◌≡◌, ◌+◌, ◌<◌, ◌^◌, ◌++◌, ◌∷◌, []};
ghost use Rattle.published_copy.specs.Entries.{weight, weight_of, tried};
ghost use Rattle.published_copy.specs.Rules.{head_of};
ghost use Rattle.published_copy.specs.Turns.{event_at};
ghost use Rattle.published_copy.specs.declared.entries.Entry.TheVariants.{Made};
ghost use Rattle.syscall_core.specs.Kernel.{kernel_state};

use crate::entries::{Add, Entry, Law, Nothing, Sealing, Trial};
use crate::logs::{Head, SeenLog};
use crate::naming::Naming;
use crate::passes::Pass;
use kernel_rules::Call;
use logbook::{Offer, Plain};
use std::marker::{Model, PhantomData};
use std::sync::Wait;
use syscall_core::Kernel;

/// The whole log, as the lock's holder knows it. Contracts see its entries.
#[derive(Drop)]
pub(crate) struct WholeLog<B: Naming> {
    weight: u64,
    seen: SeenLog,
    of: PhantomData<B>,
}

impl<B: Naming> Model for WholeLog<B> {
    ghost use Rattle.std.specs.Prelude.{◌≡◌, List};
    ghost use Rattle.published_copy.specs.declared.entries.Entry.{Entry};
    ghost use Rattle.published_copy.specs.Entries.{weight as weight_of_log};

    ghost Value = { List Entry };

    ghost view = { λ t. t.seen.log };

    ghost invariant = { λ t. (t.weight ≡ weight_of_log t.seen.log)
        × (t.seen.book ≡ B.boot.log) };
}

/// It does not return. A function that comes here where no run does is proved with it.
fn never<R: Wait>(rt: &R)
    ensures { ⊥ }
{
    for _ in rt.forever() {}
    unreachable!()
}

impl<B: Naming> WholeLog<B> {
    /// The log of a boot, which has no entry.
    pub(crate) fn new(seen: SeenLog) -> WholeLog<B>
        requires empty { seen.log ≡ [] }
        requires log { seen.book ≡ B.boot.log }
        ensures { result ≡ [] }
    {
        WholeLog {
            weight: 0,
            seen,
            of: PhantomData,
        }
    }

    /// What the log weighs.
    pub(crate) fn weight(&self) -> u64
        ensures { result ≡ weight self.now }
    {
        self.weight
    }

    /// The log, as what was seen.
    pub(crate) fn seen(&self) -> SeenLog
        ensures book { result.book ≡ B.boot.log }
        ensures log { result.log ≡ self.now }
    {
        self.seen.again()
    }

    /// One entry more, in one step of the head. Only the lock's holder adds to the log, so no run
    /// finds it longer than what is known.
    fn add<X, P: Plain<X, Entry, u64>, R: Wait>(
        &mut self,
        rt: &R,
        head: &Head,
        about: &X,
        weighs: u64,
    )
        requires head { head.now ≡ head_of B.boot.log }
        requires weighs { weighs ≡ weight_of (P.ask about.now) }
        requires room { weight self.old + weighs < 2 ^ 64 }
        ensures { self.new ≡ self.old ++ P.ask about.now ∷ [] }
    {
        let mut seen = self.seen.again();
        let mut offer: Offer<Entry, u64, Law, Nothing> = seen.plain::<Nothing, X, P>(about);
        let mut pen = seen.no_pen();
        let weight = self.weight;
        let found = head.compare_exchange::<Add, Nothing>(
            weight,
            weight + weighs,
            &mut seen,
            &mut offer,
            &mut pen,
        );
        if found != weight {
            never(rt);
            return;
        }
        self.seen = seen;
        self.weight = weight + weighs;
    }

    /// A pass's batch is tried: the log has the event that it is to be.
    pub(crate) fn attempt<R: Wait>(
        &mut self,
        rt: &R,
        head: &Head,
        kernel: &Kernel,
        pass: &Pass<B>,
        call: &Call,
        more: &[Call],
    )
        requires head { head.now ≡ head_of B.boot.log }
        requires room { weight self.old + 2 < 2 ^ 64 }
        ensures { self.new
            ≡ self.old ++ tried (event_at (kernel_state kernel.now) pass.now
            (call.now ∷ more.now)) ∷ [] }
    {
        let trial = Trial {
            kernel,
            thread: pass.thread(),
            number: pass.number(),
            call,
            more,
        };
        self.add::<Trial<'_>, Add, R>(rt, head, &trial, 2)
    }

    /// What was tried last is made.
    pub(crate) fn settle<R: Wait>(&mut self, rt: &R, head: &Head)
        requires head { head.now ≡ head_of B.boot.log }
        requires room { weight self.old + 1 < 2 ^ 64 }
        ensures { self.new ≡ self.old ++ Made ∷ [] }
    {
        self.add::<Sealing, Add, R>(rt, head, &Sealing, 1)
    }
}
