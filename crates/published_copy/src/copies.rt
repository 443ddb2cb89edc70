//! The copies of the kernel that readers take, and how they take in calls.
ghost use Rattle.std.specs.Prelude.{◌≡◌, ◌∷◌, ℕ, [], IfOk, true};
ghost use Rattle.kernel_rules.specs.Events.{by};
ghost use Rattle.kernel_rules.specs.Runs.{booted, replies_to, state_after};
ghost use Rattle.kernel_rules.specs.declared.replies.Reply.TheVariants as told;
ghost use Rattle.published_copy.specs.Absorbed.{calls_with};
ghost use Rattle.published_copy.specs.Boots.{boot_of};
ghost use Rattle.published_copy.specs.Shares.{IsShown};
ghost use Rattle.syscall_core.specs.Kernel.{kernel_state};

use crate::further::Further;
use crate::logs::{SeenLog, weighed};
use crate::ops::Op;
use base::{Limits, Meter, NoMemory};
use kernel_rules::Reply;
use kernel_rules::histories::Event;
use left_right::Absorb;
use std::alloc::{AllocError, Global};
use std::marker::Model;
use syscall_core::Kernel;

/// A copy of the kernel, in the state after a list of events, with a meter of its own.
#[derive(Drop)]
pub(crate) struct Copied {
    pub(crate) kernel: Kernel,
    pub(crate) limits: Limits,
    /// How many events the list has.
    pub(crate) length: u64,
    /// Whether the log that was seen has made the list's last event. It has whenever a copy is
    /// published: the event is made before.
    pub(crate) sealed: bool,
    pub(crate) seen: SeenLog,
    /// What the first call of the list's last event was answered; `Done` where there is none.
    pub(crate) reply: Reply,
    /// What the calls after it were answered.
    pub(crate) further: Further,
    pub(crate) meter: Meter,
}

/// A kernel that contracts see as its state. No value of it is made.
#[derive(Drop)]
pub(crate) struct Stood {
    kernel: Kernel,
}

impl Model for Stood {
    ghost use Rattle.kernel_rules.specs.State.{State};
    ghost use Rattle.syscall_core.specs.Kernel.{kernel_state};

    ghost Value = { State };

    ghost view = { λ s. kernel_state s.kernel };
}

/// What the two copies have in common: the state, the limits, the length, the log by its name, the
/// list, and the replies of its last event. No value of it is made.
pub(crate) struct Shown {
    pub(crate) state: Stood,
    pub(crate) limits: Limits,
    pub(crate) length: u64,
    pub(crate) number: u64,
    pub(crate) log_name: u64,
    pub(crate) cells_name: u64,
    pub(crate) list: [Event; 0],
    pub(crate) replies: [Reply; 0],
}

/// The reply becomes this one. Most are `Done`, and then nothing is written where it is `Done` already.
pub(crate) fn copy_reply(reply: &mut Reply, given: &Reply)
    ensures { reply.new ≡ given.now }
{
    match (&*reply, given) {
        (Reply::Done, Reply::Done) => {}
        _ => *reply = *given,
    }
}

/// A kernel makes the calls of an operation, and the replies become its answers.
fn make(
    kernel: &mut Kernel,
    meter: &mut Meter,
    operation: &Op,
    reply: &mut Reply,
    further: &mut Further,
)
    ensures replies { reply.new ∷ further.new ≡ replies_to (kernel_state kernel.old)
        (by operation.now.thread (calls_with operation.now)) }
    ensures state { kernel_state kernel.new ≡ state_after (kernel_state kernel.old)
        (by operation.now.thread (calls_with operation.now)) }
{
    let (call, more) = (&operation.call, operation.more.as_slice());
    further.make(kernel, meter, operation.thread, call, more, reply);
}

impl Absorb<Op> for Copied {
    ghost use Rattle.published_copy.specs.Absorbed.{shown_of, absorbed};

    type State = Shown;

    ghost state = { shown_of };

    ghost applied = { absorbed };

    ghost never_fails = { Unit {0} };

    fn absorb_first(&mut self, operation: &Op, _other: &Copied) -> Result<(), AllocError> {
        make(
            &mut self.kernel,
            &mut self.meter,
            operation,
            &mut self.reply,
            &mut self.further,
        );
        self.length = operation.length;
        let (weight, seen) = weighed(&operation.head, &operation.seen);
        if weight > operation.weight && weight - 1 == operation.weight {
            self.sealed = true;
            self.seen = seen;
        } else {
            self.sealed = false;
            self.seen = operation.seen.again();
        }
        Ok(())
    }
}

/// A copy with a newly booted kernel, whose log has no entry.
pub(crate) fn first_copy(
    alloc: Global,
    limits: &Limits,
    kernel: Kernel,
    seen: &SeenLog,
) -> Result<Copied, NoMemory>
    requires booted { kernel_state kernel ≡ booted limits.now }
    requires empty { seen.now.log ≡ [] }
    ensures shown { IfOk result
        (λ copy. (seats : ℕ) → IsShown (boot_of seen.now.book limits.now seats) copy []) }
    ensures state { IfOk result (λ copy. kernel_state copy.kernel ≡ booted limits.now) }
    ensures rest { IfOk result (λ copy. (copy.limits ≡ limits.now) × (copy.length ≡ 0)
        × (copy.sealed ≡ true) × (copy.seen ≡ seen.now) × (copy.reply ≡ told.Done)
        × (copy.further ≡ [])) }
{
    let meter = Meter::new(alloc)?;
    let further = Further::new(alloc)?;
    Ok(Copied {
        kernel,
        limits: *limits,
        length: 0,
        sealed: true,
        seen: seen.again(),
        reply: Reply::Done,
        further,
        meter,
    })
}
