//! What flows from an object reach in a dump. `trace` tells each object that what was in one object of an audited dump
//! can have reached by the calls of the dump's events and the queries of its reads, outside a category. It promises exactly
//! these, rising, each once, and an answer only for a dump that is clean. `flow_rules` says what a flow is. A dump of format 1
//! tells no queries; covert channels, refusals and deaths are no part of a flow.

mod steps;
mod traces;

pub use traces::trace;
