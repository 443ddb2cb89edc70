//! What scenes are played with: limits, labels, entries and calls to ask with, and looks at what is answered.
mod calls;
mod labels;
mod limits;
mod memory;
mod objects;
mod replies;
mod tables;

pub use calls::{new_container, new_segment, new_thread};
pub use labels::{everywhere, label_with, pair, plain};
pub use limits::{EIGHT_PAGES, LIMITS, MOST_PAGES};
pub use memory::meter_again;
pub use objects::{boot_thread, device, in_root, no_entry};
pub use replies::{answered, is_data, is_done, is_number, is_object, made, object_in, refusal_in};
pub use tables::{are_equal, is_labelled, is_shown};
