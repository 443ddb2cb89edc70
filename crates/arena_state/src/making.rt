//! New objects.
mod bearers;
mod copies;
mod creations;
mod new_objects;
mod placing;
mod uniform;

pub(crate) use uniform::uniform;
