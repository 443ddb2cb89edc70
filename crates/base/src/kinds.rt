//! The kinds of objects.

/// What an object is (HiStar, OSDI 2006).
#[derive(Clone, Copy, PartialEq, Eq, Debug)]
pub enum Kind {
    /// It lists objects.
    Container,
    /// It holds bytes, in pages of 256.
    Segment,
    /// It maps pages of segments.
    AddressSpace,
    /// It makes calls.
    Thread,
    /// Threads enter it.
    Gate,
    /// Packets wait in it.
    Device,
}
