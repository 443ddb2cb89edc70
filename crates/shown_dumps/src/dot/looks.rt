//! How the objects of a graph are shown.
use base::ObjectId;
use call_text::Named;

/// How objects are shown.
#[derive(Clone, Copy)]
pub struct Look<'a> {
    /// The names that are known. What has none is shown by its number.
    pub names: &'a [Named],
    /// The objects that are reached, which are red.
    pub reached: &'a [ObjectId],
}
