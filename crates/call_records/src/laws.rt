//! Laws of all records at once. Each function does nothing: its contract is the law, which a caller's proof has from a
//! call.
ghost use Rattle.call_records.specs.Laws.{AnswersTellOneReply, WritesAreNoReads};

/// An answer tells one reply, so equal answers come from equal replies.
pub fn answers_tell_one_reply()
    ensures { AnswersTellOneReply }
{}

/// What asks for a write call asks for no read call.
pub fn writes_are_no_reads()
    ensures { WritesAreNoReads }
{}
