//! Laws of the kernel's rules, which a reader may ask for: each is the contract of a function with an empty body, which
//! hands the law to its caller's proof. They speak of the definitions of `kernel_rules`, so they hold of every machine
//! that is proved to follow them.
#![tactic(auto)]

mod laws;
pub mod translation_laws;

pub use laws::{
    categories_rise, ids_rise, labels_are_listed, labels_are_own, labels_rise, linked_stays,
    mappings_are_apart, read_only_stays, recorded_are_edited, recorded_are_live, root_bounds_all,
    root_bounds_costs,
};
