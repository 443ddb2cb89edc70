//! What comes of a line.
use kernel_rules::Reply;
use text_words::Name;

/// What comes of a line.
#[derive(Clone, Copy)]
pub enum LineAnswer {
    /// It was asked, and this is the reply. No other answer changes anything.
    Told(Reply),
    /// It is no script of its own: the first faulty line of its text, from 1.
    Faulty(u32),
    /// It binds a name that is known already.
    Rebound(Name),
    /// It uses a name that isn't known, or known as the other kind.
    Unbound(Name),
    /// The thread of its worker isn't live.
    NoThread(Name),
    /// It asks nothing.
    Nothing,
    /// The dialogue has as many lines as it may have.
    Full,
}
