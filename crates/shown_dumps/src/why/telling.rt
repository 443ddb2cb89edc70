//! How something is told.
use call_text::Named;

/// How a call or a read is told.
#[derive(Clone, Copy)]
pub struct Telling<'a> {
    /// The names that are known. What has none is told by its number.
    pub names: &'a [Named],
    /// Whether all conditions are told, or the reasons of a refusal alone.
    pub is_whole: bool,
}
