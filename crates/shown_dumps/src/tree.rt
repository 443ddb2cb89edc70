//! The objects that a dump leads to, as a tree. `tree` shows the root, and below each container what it lists: of each object
//! its kind, label and quota, what it uses, and where else it is listed. It promises exactly this text, a definition over the
//! state that the dump's first events lead to and over the names that are known, and `tree_is_whole` that no object stands
//! deeper than it looks. A mark stands at each object that a thread may delete, where one is asked about. Colours are beside the text: `colours_are_beside`. The words of the command line are left to others.

mod colours;
mod deleting;
mod laws;
mod looks;
mod objects;
mod painting;
mod places;
mod program;
mod slots;
mod trees;

pub use colours::{Mark, Style, marks_of};
pub use deleting::may_delete;
pub use laws::tree_is_whole;
pub use looks::Look;
pub use objects::{put_indent, put_object};
pub use painting::{colours_are_beside, painted_if};
pub use places::Place;
pub use program::tree_on;
pub use slots::slots_of;
pub use trees::{named_tree, tree};
