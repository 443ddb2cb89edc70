//! Why a call is refused, or is not: for a state of the plain machine, a thread and a call, each
//! condition of the call's row in the row's order, with the values by which it is decided, and for
//! each comparison of labels the categories at which it fails: all of them and no other. It
//! promises that these are the conditions of the table of calls, and that the least number among
//! those that hold is the reply's refusal. How it is told to people is left to others.
#![tactic(auto)]

mod comparing;
mod conditions;
mod deciding;
mod explaining;
mod facts;
mod failing;
mod laws;
mod parts;
mod relations;
mod rows;
mod tables;

pub use comparing::refusal_among;
pub use explaining::{explain, explain_query};
pub use facts::Fact;
pub use failing::{Failing, Failure, Ranks, failing_of};
pub use laws::{
    comparisons_are_exact, failing_is_exact, findings_are_the_row, holds_where_none_fails,
    least_is_the_refusal, none_holds_where_accepted,
};
pub use parts::{Comparison, Finding, Part, Parts, Role, Side};
pub use relations::{Rank, Relation};
