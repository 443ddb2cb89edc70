//! Facts that stand against a call beside labels and numbers.
use base::Kind;

/// A fact by which a call is refused, where it is so. A condition tells it whether it is so or not.
#[derive(Clone, Copy)]
pub enum Fact {
    /// The caller is no live thread.
    NoThread,
    /// The container that is named is no live container.
    NoContainer,
    /// The entry does not stand: the container neither lists the object nor is it.
    NoEntry,
    /// The container does not list the object.
    NotListed,
    /// The container lists the object already.
    Listed,
    /// The entry is that of the root in itself.
    IsRoot,
    /// The object is not of this kind.
    NotOfKind(Kind),
    /// The object is of this kind.
    OfKind(Kind),
    /// The object is read-only for good.
    Immutable,
    /// The object's quota may change.
    NotFixed,
    /// The object's quota never changes again.
    Fixed,
    /// The container holds no object of this kind.
    Avoided,
    /// The label can't be stored: it has a category twice, or more than 16 exceptions.
    Unstorable,
    /// The label names a category that nobody made.
    NotMade,
    /// The label has a star.
    HasStar,
    /// The thread's label has no room for one more category.
    LabelFull,
    /// The thread's clearance has none.
    ClearanceFull,
    /// All ids were given.
    IdsSpent,
    /// All categories were made.
    CategoriesSpent,
    /// The mapping allows neither reads nor writes.
    NoRights,
    /// The slot maps nothing.
    SlotEmpty,
    /// The address is in no mapping of the thread's address space that it can use.
    Unmapped,
    /// The mapping at the address does not allow it.
    RightsLacking,
    /// Four packets wait.
    QueueFull,
    /// No packet waits.
    QueueEmpty,
}
