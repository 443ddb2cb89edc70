//! The records of a state's objects, with their labels stored anew.
ghost use Rattle.std.specs.Prelude.{◌≡◌, ◌+◌, ◌≤◌, length, true};
ghost use Rattle.label_intern.specs.Held.{owned};
ghost use Rattle.label_intern.specs.Owners.{Takes};
ghost use Rattle.kernel_rules.specs.WellFormed.{is_whole_body};
ghost use Rattle.kernel_rules.specs.declared.objects.Body.TheVariants as is;
ghost use Rattle.arena_state.specs.Assembled.{body_claims, claims};
ghost use Rattle.arena_state.specs.Restored.{uses_own, IsKeptOf, IsRecordOf};

use crate::records::{Kept, KeptGate, KeptThread, Record};
use base::Meter;
use kernel_rules::{Body, Gate, Object, Thread};
use label_intern::Labels;

fn thread_of(labels: &mut Labels, thread: &Thread, meter: &mut Meter) -> Kept
    requires { owned labels.old + 2 ≤ length labels.old }
    ensures takes { Takes labels.old labels.new (λ i. body_claims i result) }
    ensures kept { IsKeptOf labels.new (is.Thread thread.now) 1 result }
    ensures owners { owned labels.new ≤ owned labels.old + 2 }
{
    let clearance = labels.intern(&thread.clearance, meter);
    let verify = labels.intern(&thread.verify, meter);
    Kept::Thread(KeptThread {
        clearance,
        verify,
        space: thread.space,
        entry_point: thread.entry_point,
        closure: thread.closure,
    })
}

fn gate_of(labels: &mut Labels, gate: &Gate, meter: &mut Meter) -> Kept
    requires { owned labels.old + 1 ≤ length labels.old }
    ensures takes { Takes labels.old labels.new (λ i. body_claims i result) }
    ensures kept { IsKeptOf labels.new (is.Gate gate.now) 1 result }
    ensures owners { owned labels.new ≤ owned labels.old + 2 }
{
    let clearance = labels.intern(&gate.clearance, meter);
    Kept::Gate(KeptGate {
        clearance,
        space: gate.space,
        entry_point: gate.entry_point,
        closure: gate.closure,
    })
}

// What is kept of a body by its kind, which uses so much.
fn kept_of(labels: &mut Labels, body: &Body, used: u32, meter: &mut Meter) -> Kept
    requires room { owned labels.old + 2 ≤ length labels.old }
    requires whole { is_whole_body body.now ≡ true }
    requires own { uses_own body.now used }
    ensures takes { Takes labels.old labels.new (λ i. body_claims i result) }
    ensures kept { IsKeptOf labels.new body.now used result }
    ensures owners { owned labels.new ≤ owned labels.old + 2 }
{
    match body {
        Body::Container(avoid, _) => Kept::Container(*avoid, used),
        Body::Segment(bytes) => Kept::Segment((bytes.as_slice().len() / 256) as u32),
        Body::AddressSpace(_) => Kept::AddressSpace,
        Body::Thread(thread) => thread_of(labels, thread, meter),
        Body::Gate(gate) => gate_of(labels, gate, meter),
        Body::Device(_) => Kept::Device,
    }
}

/// The record of an object, which uses so much: its labels have an owner more each.
pub fn record_of(labels: &mut Labels, object: &Object, used: u32, meter: &mut Meter) -> Record
    requires room { owned labels.old + 3 ≤ length labels.old }
    requires whole { is_whole_body object.now.body ≡ true }
    requires own { uses_own object.now.body used }
    ensures takes { Takes labels.old labels.new (λ i. claims i result) }
    ensures kept { IsRecordOf labels.new object.now used result }
    ensures owners { owned labels.new ≤ owned labels.old + 3 }
{
    let label = labels.intern(&object.label, meter);
    let body = kept_of(labels, &object.body, used, meter);
    Record {
        label,
        quota: object.quota,
        fixed: object.fixed,
        immutable: object.immutable,
        metadata: object.metadata,
        body,
    }
}
