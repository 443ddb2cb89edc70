//! What is told of a reply that hidden threads changed.
use base::ObjectId;
use call_text::Asked;
use kernel_rules::Reply;

/// What a hidden thread told something by: the exceptions of the law that nothing is told, by name.
#[derive(Clone, Copy, PartialEq, Eq, Debug)]
pub enum Channel {
    /// The id of the next new object is another one.
    NextId,
    /// The next new category is another one.
    NextCategory,
    /// The label or a flag of an object that is named, and need not be observed, is another one.
    Untold,
    /// A container that the observer doesn't observe lists what it observes.
    NotOpen,
    /// A hidden thread is observed after a call of its own: it entered a gate, or it made a category that the observer owns.
    Shown,
    /// Who calls observes more than the observer: it may hand on what it owns.
    Owner,
}

/// A call or a read of a dump.
#[derive(Clone, Copy)]
pub struct Placed {
    /// The place of a call's event in the dump, from 1; how many events stand before a read.
    pub event: u64,
    /// The place of a call in its event, or of a read among those after the same event, from 1.
    pub place: u64,
    /// Who asked.
    pub thread: ObjectId,
    /// The call or the read.
    pub asked: Asked,
}

/// A reply that is another one without the calls of hidden threads.
#[derive(Clone, Copy)]
pub struct Difference {
    /// The place of a call's event in the dump, from 1; how many events stand before a read.
    pub event: u64,
    /// The place of a call in its event, or of a read among those after the same event, from 1.
    pub place: u64,
    /// Whether it is the reply to a call, and not to a read.
    pub is_call: bool,
    /// Who asked.
    pub thread: ObjectId,
    /// The reply, as it stands in the dump.
    pub reply: Reply,
    /// The reply without the calls of hidden threads.
    pub otherwise: Reply,
    /// What it was told by.
    pub channel: Channel,
}
