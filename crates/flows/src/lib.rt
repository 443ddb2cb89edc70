//! Which flows there are outside a category. `check_flows` plays a list of calls from a boot on the plain
//! machine, and tells each pair of objects with a flow from the first to the second. `flows_of` tells what
//! flows from one object reach, from any state on. Both promise exactly these, rising, each once.
//! `flow_rules` says what a flow is, and proves that levels never fall along one. Covert channels, refusals
//! and deaths are no flows.
#![tactic(auto)]

mod carriers;
mod checks;
mod looks;
mod plays;
mod rising;
mod touches;

pub use checks::{FlowFault, check_flows, flows_of};
pub use flow_rules::Step;
