//! The lists that objects hold. A contract sees each as the list.
mod bytes;
mod ids;
mod packets;
mod slots;

pub use bytes::Bytes;
pub use ids::{IdList, Ids};
pub use packets::Packets;
pub use slots::Slots;
