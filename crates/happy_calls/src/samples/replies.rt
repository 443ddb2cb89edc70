//! Looks at what a call answers.
use base::{NoMemory, ObjectId, Refusal};
use kernel_rules::Reply;

/// What refused the call, if something did.
pub fn refusal_in(reply: Reply) -> Option<Refusal> {
    match reply {
        Reply::Refused(refusal) => Some(refusal),
        _ => None,
    }
}

/// The object that the call made, if it made one.
pub fn object_in(reply: Reply) -> Option<ObjectId> {
    match reply {
        Reply::Object(id) => Some(id),
        _ => None,
    }
}

/// What refused the call, if there was memory for it.
pub fn answered(outcome: Result<Reply, NoMemory>) -> Result<Option<Refusal>, NoMemory> {
    match outcome {
        Ok(reply) => Ok(refusal_in(reply)),
        Err(error) => Err(error),
    }
}

/// The object that the call made, if there was memory for it.
pub fn made(outcome: Result<Reply, NoMemory>) -> Result<Option<ObjectId>, NoMemory> {
    match outcome {
        Ok(reply) => Ok(object_in(reply)),
        Err(error) => Err(error),
    }
}

/// Whether the call was made, and answers nothing more.
pub fn is_done(reply: Reply) -> bool {
    matches!(reply, Reply::Done)
}

/// Whether the call answers these bytes.
pub fn is_data(reply: Reply, wanted: &[u8]) -> bool {
    match reply {
        Reply::Bytes(data) => data.as_slice() == wanted,
        _ => false,
    }
}

/// Whether the call made the object of this number.
pub fn is_object(reply: Reply, number: u64) -> bool {
    matches!(reply, Reply::Object(object) if object.number() == number)
}

/// Whether the call was refused by this number.
pub fn is_number(reply: Reply, number: u8) -> bool {
    matches!(reply, Reply::Refused(refusal) if refusal.number() == number)
}
