//! The words that every layer speaks: the sets and limits, labels, the label rules, and what objects hold.
pub mod labels;
pub mod parts;
pub mod rules;
