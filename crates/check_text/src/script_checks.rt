//! What is doubtful in a script that can be played: names that are bound and never used, workers that are not bound, and
//! names that no line gives to the line that uses them.
//!
//! It promises exactly these warnings, in the order of the lines. That a call may be refused, so that it binds no name,
//! plays no part.

mod binders;
mod givers;
mod mentions;
mod outlines;
mod surveys;
mod warnings;

pub use mentions::Mention;
pub use warnings::{Warned, Warning, warnings_of};
