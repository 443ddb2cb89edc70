//! What a spoken call asks, with the names that are known.
ghost use Rattle.std.specs.Prelude.{◌≡◌};
ghost use Rattle.call_text.specs.Asked.{asked_of};
ghost use Rattle.call_text.specs.Resolve.{resolved, resolved_by, written};

use crate::asking::{Asked, ask};
use crate::known_names::Known;
use kernel_rules::{Call, Query};
use text_words::Name;
use text_words::spoken_calls::SpokenCall;

/// What the spoken call asks, where each of its names is known as what stands there, or the first name, in the order of
/// the words, that is not known or known as the other kind. A number stands for itself. A query is the answer, and a call is
/// written to `call`, with 0 for each name that is not known, or known as the other kind; a query leaves it as it was.
pub fn resolve_into<K: Known>(
    spoken: &SpokenCall<'_>,
    names: &K,
    call: &mut Call,
) -> Result<Option<Query>, Name>
    ensures resolved { resolved_by result call.new ≡ resolved spoken.now (K.names names.now) }
    ensures written { call.new ≡ written (asked_of spoken.now.verb spoken.now.args (K.names names.now)) call.old }
{
    let mut unbound = None;
    let asked = ask(spoken.verb(), spoken.args(), names, &mut unbound, call);
    match unbound {
        Some(name) => Err(name),
        None => Ok(asked),
    }
}

/// What the spoken call asks, as `resolve_into` answers it, with a call by value.
pub fn resolve<K: Known>(call: &SpokenCall<'_>, names: &K) -> Result<Asked, Name>
    ensures { result ≡ resolved call.now (K.names names.now) }
{
    let mut asked = Call::CatCreate;
    match resolve_into(call, names, &mut asked) {
        Err(name) => return Err(name),
        Ok(Some(query)) => return Ok(Asked::Read(query)),
        Ok(None) => return Ok(Asked::Write(asked)),
    }
}
