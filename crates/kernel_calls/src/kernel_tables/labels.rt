//! The labels that objects store, and how they compare.
ghost use Rattle.std.specs.Prelude.{◌≡◌, ◌≤◌, ◌<◌, ◌+◌, ◌^◌, IfOk, OnOk, length, map};
ghost use Rattle.std.specs.Prelude.{◌++◌, []};
ghost use Rattle.std.specs.List.{flat_map};
ghost use Rattle.kernel_rules.specs.State.{label_at};
ghost use Rattle.kernel_rules.specs.Scratch.{place_of_label, is_stored_in, with_label, with_labels};
ghost use Rattle.kernel_rules.specs.Scratch.{compared_with, compared_from};
ghost use Rattle.label_lattice.specs.Raw.{raw_of};
ghost use Rattle.kernel_calls.specs.ById.{label_list, thread_labels, gate_labels, labels_at};

use base::{Meter, NoMemory, ObjectId};
use kernel_rules::{Compared, Gate, Thread};
use kernel_store::Store;
use label_lattice::{Label, RawLabel};
use std::alloc::Global;

/// How many labels come before one, up to the first that doesn't.
fn place_of(labels: &[Label], label: &Label, meter: &mut Meter) -> usize
    ensures within { result ≤ length labels.now }
    ensures place { result ≡ place_of_label label.now labels.now }
{
    match labels {
        [] => 0,
        [first, rest @ ..] => {
            if label.listing_cmp(first, meter).is_gt() {
                place_of(rest, label, meter) + 1
            } else {
                0
            }
        }
    }
}

/// Whether a label stands among labels.
fn is_stored(labels: &[Label], label: &Label, meter: &mut Meter) -> bool
    ensures { result ≡ is_stored_in label.now labels.now }
{
    match labels {
        [] => false,
        [first, rest @ ..] => {
            label.listing_cmp(first, meter).is_eq() || is_stored(rest, label, meter)
        }
    }
}

/// Puts a label in its place, unless it stands among the labels.
fn add(labels: &mut Vec<Label>, label: &Label, meter: &mut Meter) -> Result<(), NoMemory>
    ensures { OnOk result (labels.new.items ≡ with_label label.now labels.old.items) }
{
    if is_stored(labels.as_slice(), label, meter) {
        return Ok(());
    }
    let place = place_of(labels.as_slice(), label, meter);
    labels.insert(place, *label)?;
    Ok(())
}

/// Puts in their places the labels that a thread has beside its own.
fn add_thread(
    labels: &mut Vec<Label>,
    thread: &Option<Thread>,
    meter: &mut Meter,
) -> Result<(), NoMemory>
    ensures { OnOk result
        (labels.new.items ≡ with_labels labels.old.items (thread_labels thread.now)) }
{
    match thread {
        Some(thread) => {
            add(labels, &thread.clearance, meter)?;
            add(labels, &thread.verify, meter)
        }
        None => Ok(()),
    }
}

/// Puts in its place the label that a gate has beside its own.
fn add_gate(labels: &mut Vec<Label>, gate: &Option<Gate>, meter: &mut Meter) -> Result<(), NoMemory>
    ensures { OnOk result
        (labels.new.items ≡ with_labels labels.old.items (gate_labels gate.now)) }
{
    match gate {
        Some(gate) => add(labels, &gate.clearance, meter),
        None => Ok(()),
    }
}

/// Puts in its place an object's own label.
fn add_own<S: Store>(
    labels: &mut Vec<Label>,
    state: &S,
    at: S::Location,
    meter: &mut Meter,
) -> Result<(), NoMemory>
    requires { S.stands state.now at }
    ensures { OnOk result (labels.new.items
        ≡ with_labels labels.old.items (label_list (label_at (S.state state.now) (S.id_of at)))) }
{
    match state.label(at) {
        Some(label) => add(labels, label, meter),
        None => Ok(()),
    }
}

/// Puts in their places the labels that an object stores.
fn add_object<S: Store>(
    labels: &mut Vec<Label>,
    state: &S,
    id: ObjectId,
    meter: &mut Meter,
) -> Result<(), NoMemory>
    ensures { OnOk result
        (labels.new.items ≡ with_labels labels.old.items (labels_at (S.state state.now) id)) }
{
    let at = state.find(id, meter);
    add_own(labels, state, at, meter)?;
    let thread = state.thread(at);
    add_thread(labels, &thread, meter)?;
    let gate = state.gate(at);
    add_gate(labels, &gate, meter)
}

/// The labels that these objects store, each once and in their order. Want of memory is the only error.
pub fn stored_labels<S: Store>(
    alloc: Global,
    state: &S,
    ids: &[ObjectId],
    meter: &mut Meter,
) -> Result<Vec<Label>, NoMemory>
    ensures { IfOk result (λ labels. labels.items
        ≡ with_labels [] (flat_map (labels_at (S.state state.now)) ids.now)) }
{
    let mut labels = Vec::new(alloc);
    for id in ids {
        add_object(&mut labels, state, *id, meter)?;
    }
    Ok(labels)
}

/// The labels in their raw forms. Want of memory is the only error.
pub fn raw_labels(
    alloc: Global,
    labels: &[Label],
    meter: &mut Meter,
) -> Result<Vec<RawLabel>, NoMemory>
    ensures { IfOk result (λ raws. raws.items ≡ map raw_of labels.now) }
{
    let mut raws = Vec::new(alloc);
    for label in labels {
        raws.push(label.to_raw(meter))?;
    }
    Ok(raws)
}

/// Puts at the end how a label, which has the place `first`, compares with labels, the first of which
/// has the place `second`.
fn compare_with(
    orders: &mut Vec<Compared>,
    first: usize,
    label: &Label,
    second: usize,
    others: &[Label],
    meter: &mut Meter,
) -> Result<(), NoMemory>
    requires { second + length others.now < 2 ^ 63 }
    ensures { OnOk result (orders.new.items
        ≡ orders.old.items ++ compared_with first label.now second others.now) }
{
    match others {
        [] => Ok(()),
        [other, rest @ ..] => {
            let bits = label.order_bits(other, meter);
            orders.push(Compared {
                first,
                second,
                bits,
            })?;
            compare_with(orders, first, label, second + 1, rest, meter)
        }
    }
}

/// Puts at the end how labels, the first of which has the place `first`, compare with all.
fn compare_from(
    orders: &mut Vec<Compared>,
    all: &[Label],
    first: usize,
    labels: &[Label],
    meter: &mut Meter,
) -> Result<(), NoMemory>
    requires { first + length labels.now < 2 ^ 63 }
    ensures { OnOk result (orders.new.items
        ≡ orders.old.items ++ compared_from all.now first labels.now) }
{
    match labels {
        [] => Ok(()),
        [label, rest @ ..] => {
            compare_with(orders, first, label, 0, all, meter)?;
            compare_from(orders, all, first + 1, rest, meter)
        }
    }
}

/// How every two of these labels compare, by rising places. Want of memory is the only error.
pub fn compared(
    alloc: Global,
    labels: &[Label],
    meter: &mut Meter,
) -> Result<Vec<Compared>, NoMemory>
    ensures { IfOk result (λ orders. orders.items ≡ compared_from labels.now 0 labels.now) }
{
    let mut orders = Vec::new(alloc);
    compare_from(&mut orders, labels, 0, labels, meter)?;
    Ok(orders)
}
