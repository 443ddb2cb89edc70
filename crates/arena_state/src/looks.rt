//! What is read of a state. No label is scanned.
mod bearers;
mod contents;
mod kept_labels;
mod labels;
mod lists;
mod objects;
mod sights;
mod uses;
