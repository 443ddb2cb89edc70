//! What an audit finds.

/// What an audit finds. Lines count from 1.
#[derive(Clone, Copy, PartialEq, Eq, Debug)]
pub enum Verdict {
    /// The bytes are the dump of a legal list of events.
    Clean,
    /// The bytes are a dump, and this line is the first that is not true: one of an event or a batch whose number is not
    /// its thread's next, one of a call whose reply is not the rules' answer, or one of the tables that is not what the
    /// calls lead to.
    False(u64),
    /// The first line at which the bytes stop being the beginning of a dump, the next after the last where they end too
    /// early.
    Unreadable(u64),
}
