//! The structures that the arena kernel stands on, and a storm of calls of containers against what a plain twin answers.
pub mod objects;
pub mod pages;
pub mod pool;
pub mod rings;
pub mod rows;
pub mod seen;
pub mod spaces;
pub mod storm;
pub mod trees;
