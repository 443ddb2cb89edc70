//! The call that makes a category.
#![tactic(auto, unfolding(kernel_rules::specs::Table::refused, kernel_rules::specs::Table::query_refused), using(kernel_store::proofs::SightLaws::kind_seen, kernel_store::proofs::CallLaws::calls))]

ghost use Rattle.std.specs.Prelude.{◌≡◌, ◌≤◌, ◌+◌, ◌||◌, is_none, true, IfSome};
ghost use Rattle.label_lattice.specs.Label.{IsStored};
ghost use Rattle.kernel_rules.specs.Conditions.{own_label, own_clearance};
ghost use Rattle.kernel_rules.specs.Table.{refused};
ghost use Rattle.kernel_rules.specs.Step.{answer, next};
ghost use Rattle.kernel_rules.specs.WellFormed.{is_well_formed};
ghost use Rattle.kernel_rules.specs.declared.calls.Call.TheVariants as call;
ghost use Rattle.kernel_rules.specs.declared.replies.Reply.TheVariants as told;
ghost use Rattle.kernel_store.specs.Storing.{storing};

use base::{Category, Level, Meter, ObjectId, Refusal};
use kernel_rules::Reply;
use kernel_store::{Store, halted, refusal_of, refuse};
use label_lattice::Label;
use label_lattice::label_rules::with_category;

/// The thread's label with the next category as its own, where it has room for it.
fn own_label<S: Store>(state: &S, caller: S::Location, meter: &mut Meter) -> Option<Label>
    requires { S.stands state.now caller }
    ensures value { result ≡ own_label (S.state state.now) (S.id_of caller) }
    ensures fit { IfSome result IsStored }
    ensures meter { S.kept meter.new ≤ S.kept meter.old + 1 }
{
    let category = Category(state.next_category());
    match state.label(caller) {
        None => None,
        Some(label) => with_category(label, category, Level::Star, meter),
    }
}

/// Its clearance with the next category at 3, where it has room for it.
fn own_clearance<S: Store>(state: &S, caller: S::Location, meter: &mut Meter) -> Option<Label>
    requires { S.stands state.now caller }
    ensures value { result ≡ own_clearance (S.state state.now) (S.id_of caller) }
    ensures fit { IfSome result IsStored }
    ensures meter { S.kept meter.new ≤ S.kept meter.old + 1 }
{
    let category = Category(state.next_category());
    match state.clearance(caller) {
        None => None,
        Some(clearance) => with_category(clearance, category, Level::L3, meter),
    }
}

fn is_full<S: Store>(state: &S, caller: S::Location, meter: &mut Meter) -> bool
    requires { S.stands state.now caller }
    ensures value { result ≡ (is_none (own_label (S.state state.now) (S.id_of caller))
        || is_none (own_clearance (S.state state.now) (S.id_of caller))) }
    ensures meter { S.kept meter.new ≤ S.kept meter.old + 2 }
{
    own_label(state, caller, meter).is_none() || own_clearance(state, caller, meter).is_none()
}

// What refuses to make a category.
fn refused_cat_create<S: Store>(
    state: &S,
    caller: S::Location,
    meter: &mut Meter,
) -> Option<Refusal>
    requires { S.stands state.now caller }
    ensures value { result ≡ refused (S.state state.now) (S.id_of caller) call.CatCreate }
    ensures meter { S.kept meter.new ≤ S.kept meter.old + 2 }
{
    let full = is_full(state, caller, meter);
    let spent = 1 << 61 <= state.next_category();
    refusal_of(&[
        &halted(state, caller),
        &[(Refusal::LabelFull, full), (Refusal::Spent, spent)],
    ])
}

#[inline(never)]
fn set_category(reply: &mut Reply, made: Category)
    ensures { reply.new ≡ told.Category made }
{
    *reply = Reply::Category(made);
}

// The reply is the new category. The second clause is that of `kernel_store::tell_done`.
#[inline(always)]
fn tell_category<S: Store>(state: &S, made: Category, reply: &mut Reply)
    ensures reply { reply.new ≡ told.Category made }
    ensures sound { is_well_formed (S.state state.now) ≡ true }
{
    let _state = state;
    set_category(reply, made);
}

/// Makes a category, which the thread owns, or tells what refuses to.
#[inline(never)]
pub fn cat_create<S: Store>(state: &mut S, thread: ObjectId, reply: &mut Reply, meter: &mut Meter)
    ensures reply { reply.new ≡ answer (S.state state.old) thread call.CatCreate }
    ensures state { S.state state.new ≡ next (S.state state.old) thread call.CatCreate }
    ensures meter { S.kept meter.new ≤ S.kept meter.old + 4 + storing 2 (S.stored state.old) }
{
    let caller = state.find(thread, meter);
    if let Some(refusal) = refused_cat_create(state, caller, meter) {
        return refuse(reply, refusal);
    }
    let category = Category(state.next_category());
    let label = own_label(state, caller, meter);
    let clearance = own_clearance(state, caller, meter);
    state.own_category(caller, label.as_ref(), clearance.as_ref(), meter);
    tell_category(state, category, reply);
}
