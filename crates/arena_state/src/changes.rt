//! The changes of objects that are there.
mod contents;
mod gates;
mod labels;
mod links;
mod objects;
mod quotas;
mod unrefs;
