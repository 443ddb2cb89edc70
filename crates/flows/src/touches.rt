//! What is kept of one event.
use base::ObjectId;
use kernel_rules::Ids;

/// What one event of a thread does to flows outside a category.
#[derive(Clone, Copy)]
pub struct Touch {
    /// The thread.
    pub thread: ObjectId,
    /// What it observes, which is nothing where the step is refused.
    pub observed: Ids,
    /// What it modifies.
    pub modified: Ids,
    /// The thread does not own the category before it, and enters no gate that does.
    pub outside: bool,
    /// The thread owns the category after it.
    pub owner: bool,
}
