//! How a tree is shown.
use base::ObjectId;
use call_text::Named;

/// How a tree is shown.
#[derive(Clone, Copy)]
pub struct Look<'a> {
    /// The names that are known. What has none is shown by its number.
    pub names: &'a [Named],
    /// The thread that is asked about: what it may delete is marked.
    pub asked: Option<ObjectId>,
    /// Whether in colours.
    pub is_coloured: bool,
}
