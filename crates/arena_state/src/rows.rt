//! The rows of translation: what slots of threads' address spaces show.
mod remakes;
mod repairs;
mod translations;

pub use repairs::Change;
