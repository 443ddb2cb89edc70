//! How many looks each call takes, by a store that counts them.
pub mod counting;
pub mod looked;
