//! The word of a call.
ghost use Rattle.std.specs.Prelude.{◌≡◌};
ghost use Rattle.text_words.specs.Reading.{Reads};
ghost use Rattle.text_words.specs.declared.spoken_calls.verbs.Verb.{Verb as VerbValue};
ghost use Rattle.text_words.specs.Verb.{name_of, IsOneOf};
ghost use Rattle.check_text.specs.Faults.{suits};
ghost use Rattle.check_text.specs.Verbs as spec;

use text_words::is_same;
use text_words::spoken_calls::Verb;

/// All calls, the write calls first.
pub fn all_verbs() -> &'static [Verb]
    ensures all { result.now ≡ spec.all_verbs }
    ensures each { (v : VerbValue) → IsOneOf v result.now }
{
    &[
        Verb::CatCreate,
        Verb::SelfSetLabel,
        Verb::SelfSetClearance,
        Verb::SelfSetAs,
        Verb::ContainerCreate,
        Verb::SegmentCreate,
        Verb::SegmentCopy,
        Verb::AsCreate,
        Verb::ThreadCreate,
        Verb::GateCreate,
        Verb::Link,
        Verb::Unref,
        Verb::QuotaMove,
        Verb::SetFixed,
        Verb::SetImmutable,
        Verb::MetaSet,
        Verb::SegmentResize,
        Verb::SegmentWrite,
        Verb::AsMap,
        Verb::AsUnmap,
        Verb::Store,
        Verb::GateEnter,
        Verb::DevSend,
        Verb::DevRecv,
        Verb::SelfGet,
        Verb::ObjLabel,
        Verb::ObjQuota,
        Verb::ContainerList,
        Verb::ContainerParent,
        Verb::SegmentLen,
        Verb::SegmentRead,
        Verb::MetaGet,
        Verb::AsGet,
        Verb::Load,
    ]
}

/// The call that the word names.
pub fn verb_of(word: &[u8]) -> Option<Verb>
    ensures { Reads name_of (λ _. Unit) word.now result }
{
    for verb in all_verbs() {
        if is_same(verb.name().as_bytes(), word) {
            return Some(*verb);
        }
    }
    None
}

/// Whether the call may stand where a name is bound or not, and its batch goes on or not.
pub fn suits(binds: bool, more: bool, verb: Verb) -> bool
    ensures { result ≡ suits binds more verb }
{
    (!binds || verb.makes()) && (!more || verb.writes())
}
