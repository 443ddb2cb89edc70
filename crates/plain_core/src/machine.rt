//! What a machine is, and whole runs on one.
ghost use Rattle.std.specs.Prelude.{◌≡◌, ◌≤◌, ℕ, IfOk, IsOk, OnOk, OnErr, length, take};
ghost use Rattle.kernel_rules.specs.State.{State};
ghost use Rattle.kernel_rules.specs.Step.{answer, next, query_answer};
ghost use Rattle.kernel_rules.specs.Runs.{replies_to, state_after};

use base::{Meter, NoMemory, ObjectId};
use kernel_rules::{Call, Query, Reply};
use std::alloc::Global;

/// A machine that answers calls by the rules, however it keeps its state.
pub trait Machine {
    /// The state that it is in.
    ghost state: { Self → State };

    /// Whether its calls take no memory, so that none is refused for want of it.
    ghost sure: { Type 0 } = { ⊥ };

    /// One call of a thread that may change the state. The reply is the answer of the rules, and
    /// the new state the next one. A call that is refused changes nothing, nor does one for which
    /// there is no memory, which is the only error.
    fn step(&mut self, thread: ObjectId, call: &Call, meter: &mut Meter) -> Result<Reply, NoMemory>
        ensures reply { IfOk result (λ reply. reply ≡ answer (state self.old) thread call.now) }
        ensures ok { OnOk result (state self.new ≡ next (state self.old) thread call.now) }
        ensures err { OnErr result (state self.new ≡ state self.old) }
        ensures sure { sure → IsOk result };

    /// One query of a thread, which changes nothing. The reply is the answer of the rules, and want
    /// of memory the only error.
    fn ask(&self, thread: ObjectId, query: &Query, meter: &mut Meter) -> Result<Reply, NoMemory>
        ensures reply { IfOk result
            (λ reply. reply ≡ query_answer (state self.now) thread query.now) }
        ensures sure { sure → IsOk result };
}

/// Calls in order, each by its thread. The replies are those of the rules, from the state that the
/// machine was in, and the new state is where the rules lead. Want of memory is the only error: the
/// machine is then in the state after some beginning of the list, and if its calls take no memory,
/// in the state that it was in.
pub fn run<M: Machine>(
    alloc: Global,
    machine: &mut M,
    calls: &[(ObjectId, Call)],
) -> Result<Vec<Reply>, NoMemory>
    ensures replies { IfOk result
        (λ replies. replies.items ≡ replies_to (M.state machine.old) calls.now) }
    ensures state { OnOk result
        (M.state machine.new ≡ state_after (M.state machine.old) calls.now) }
    ensures stopped { OnErr result ((n : ℕ) × (n ≤ length calls.now)
        × (M.state machine.new ≡ state_after (M.state machine.old) (take n calls.now))) }
    ensures unchanged { M.sure → OnErr result (M.state machine.new ≡ M.state machine.old) }
{
    let mut meter = Meter::new(alloc)?;
    let mut replies = Vec::with_capacity(alloc, calls.len())?;
    for call in calls {
        let reply = machine.step(call.0, &call.1, &mut meter)?;
        replies.push_reserved(reply);
    }
    Ok(replies)
}
