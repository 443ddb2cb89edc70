//! Why a call is refused, or is not.
ghost use Rattle.std.specs.Prelude.{◌≡◌, ◌↔◌, ◌++◌, IfOk, IsTrue, None, map};
ghost use Rattle.kernel_rules.specs.Table.{halted, row, refused, query_row, query_refused};
ghost use Rattle.kernel_rules.specs.Step.{answer, query_answer, or_refused, accepted};
ghost use Rattle.kernel_rules.specs.Step.{found as found_by};
ghost use Rattle.plain_state.specs.StateOf.{state_of};
ghost use Rattle.explained.specs.Explained.{explained, query_explained};
ghost use Rattle.explained.specs.Laws.{least, none_holds};
ghost use Rattle.explained.specs.Parts.{condition};

use crate::conditions::Condition;
use crate::parts::Finding;
use crate::rows::Row;
use base::{Meter, NoMemory, ObjectId, Refusal};
use kernel_rules::{Call, Query};
use plain_state::PlainState;

/// Each condition of a call's row, in the row's order, with the parts by which it is decided. The
/// call is refused by the least number among those that hold, and is accepted where none does. The
/// error is want of memory.
pub fn explain(state: &PlainState, thread: ObjectId, call: &Call) -> Result<Vec<Finding>, NoMemory>
    ensures findings { IfOk result (λ found. found.items
        ≡ explained (state_of state.now) thread call.now) }
    ensures row { IfOk result (λ found. map condition found.items
        ≡ halted (state_of state.now) thread ++ row (state_of state.now) thread call.now) }
    ensures refusal { IfOk result (λ found. least found.items
        ≡ refused (state_of state.now) thread call.now) }
    ensures reply { IfOk result (λ found. answer (state_of state.now) thread call.now
        ≡ or_refused (least found.items) (accepted (state_of state.now) thread call.now)) }
    ensures accepted { IfOk result (λ found.
        (refused (state_of state.now) thread call.now ≡ None)
        ↔ IsTrue (none_holds found.items)) }
{
    let mut meter = Meter::new(state.alloc())?;
    let mut row = Row::new(state.alloc());
    row.put(Refusal::Halted, Condition::Halted)?;
    row.put_call(state, call)?;
    let found = row.findings(state, thread, &mut meter)?;
    Ok(found)
}

/// Each condition of a query's row, as `explain` has those of a call's.
pub fn explain_query(
    state: &PlainState,
    thread: ObjectId,
    query: &Query,
) -> Result<Vec<Finding>, NoMemory>
    ensures findings { IfOk result (λ found. found.items
        ≡ query_explained (state_of state.now) thread query.now) }
    ensures row { IfOk result (λ found. map condition found.items
        ≡ halted (state_of state.now) thread ++ query_row (state_of state.now) thread query.now) }
    ensures refusal { IfOk result (λ found. least found.items
        ≡ query_refused (state_of state.now) thread query.now) }
    ensures reply { IfOk result (λ found. query_answer (state_of state.now) thread query.now
        ≡ or_refused (least found.items) (found_by (state_of state.now) thread query.now)) }
    ensures accepted { IfOk result (λ found.
        (query_refused (state_of state.now) thread query.now ≡ None)
        ↔ IsTrue (none_holds found.items)) }
{
    let mut meter = Meter::new(state.alloc())?;
    let mut row = Row::new(state.alloc());
    row.put(Refusal::Halted, Condition::Halted)?;
    row.put_query(state, query)?;
    let found = row.findings(state, thread, &mut meter)?;
    Ok(found)
}
