//! Write calls, each object and category by its number.
ghost use Rattle.std.specs.Prelude.{◌≡◌, ◌++◌, [], IfOk, OnOk};
ghost use Rattle.std.specs.List.{AllByRecursion};
ghost use Rattle.text_words.specs.Reading.{Reads};
ghost use Rattle.text_words.specs.Arg.{FitsArg};
ghost use Rattle.text_words.specs.Spoken.{spoken_text};
ghost use Rattle.call_text.specs.Resolve.{resolved};
ghost use Rattle.dump_text.specs.Call.{call_text, IsCall, write_of, spoken_as, creation_words};
ghost use Rattle.dump_text.specs.Call.{entry_words, mapping_words};
ghost use Rattle.dump_text.specs.Word.{arg_of};

use crate::words::{Word, put_further, put_spoken};
use base::ObjectId;
use call_text::{Asked, NameList, resolve};
use kernel_rules::{Call, Entry, Mapping};
use label_lattice::RawLabel;
use std::alloc::{AllocError, Global};
use text_words::spoken_calls::{SpokenCall, Verb, read_spoken};

/// The write call that the call asks where no name is known.
fn write_call(call: &SpokenCall<'_>) -> Option<Call>
    ensures { result ≡ write_of (resolved call.now []) }
{
    match resolve(call, &NameList { named: &[] }) {
        Ok(Asked::Write(call)) => Some(call),
        _ => None,
    }
}

/// The write call that the text spells.
pub fn read_call(alloc: Global, text: &[u8]) -> Result<Option<Call>, AllocError>
    ensures { IfOk result (λ found. Reads call_text IsCall text.now found) }
{
    let mut args = Vec::new(alloc);
    let Some(verb) = read_spoken(alloc, text, &mut args)? else {
        return Ok(None);
    };
    Ok(write_call(&SpokenCall::new(verb, args.as_slice())))
}

/// The words of an entry.
fn entry_words(entry: Entry) -> [Word; 2]
    ensures { result ≡ entry_words entry }
{
    [Word::Object(entry.container), Word::Object(entry.object)]
}

/// Adds a verb, the entry that it names, and further words.
pub fn put_on_entry(
    out: &mut Vec<u8>,
    verb: Verb,
    entry: Entry,
    further: &[Word],
) -> Result<(), AllocError>
    ensures text { OnOk result (out.new.items
        ≡ out.old.items ++ spoken_text (spoken_as verb (entry_words entry ++ further.now))) }
    ensures fits { OnOk result
        (AllByRecursion (λ w. FitsArg (arg_of w)) (entry_words entry ++ further.now)) }
{
    put_spoken(out, verb, &entry_words(entry))?;
    put_further(out, further)?;
    Ok(())
}

/// Adds a verb, where a new object is listed, its label and quota, and further words.
fn put_creation(
    out: &mut Vec<u8>,
    verb: Verb,
    container: ObjectId,
    label: RawLabel,
    quota: u32,
    further: &[Word],
) -> Result<(), AllocError>
    ensures text { OnOk result (out.new.items ≡ out.old.items
        ++ spoken_text (spoken_as verb (creation_words container label quota ++ further.now))) }
    ensures fits { OnOk result (AllByRecursion (λ w. FitsArg (arg_of w))
        (creation_words container label quota ++ further.now)) }
{
    let creation = [
        Word::Object(container),
        Word::Label(label),
        Word::Number(quota),
    ];
    put_spoken(out, verb, &creation)?;
    put_further(out, further)?;
    Ok(())
}

/// The words of a mapping in a slot.
fn words_of(slot: u32, mapping: &Mapping) -> [Word; 7]
    ensures { result ≡ mapping_words slot mapping.now }
{
    [
        Word::Number(slot),
        Word::Number(mapping.page),
        Word::Object(mapping.entry.container),
        Word::Object(mapping.entry.object),
        Word::Number(mapping.first),
        Word::Number(mapping.count),
        Word::Rights(mapping.rights),
    ]
}

/// Adds the spelling of the call, which has one: each word is in its range by its type.
#[tactic(auto, using(crate::proofs::WordLemmas::spoken_fits))]
pub fn put_call(out: &mut Vec<u8>, call: &Call) -> Result<(), AllocError>
    ensures text { OnOk result (out.new.items ≡ out.old.items ++ call_text call.now) }
    ensures fits { OnOk result (IsCall call.now) }
{
    match *call {
        Call::CatCreate => put_spoken(out, Verb::CatCreate, &[]),
        Call::SelfSetLabel { label } => put_spoken(out, Verb::SelfSetLabel, &[Word::Label(label)]),
        Call::SelfSetClearance { clearance } => {
            put_spoken(out, Verb::SelfSetClearance, &[Word::Label(clearance)])
        }
        Call::SelfSetAs { space } => put_on_entry(out, Verb::SelfSetAs, space, &[]),
        Call::ContainerCreate(made) => {
            let further = [Word::Types(made.avoid)];
            put_creation(
                out,
                Verb::ContainerCreate,
                made.container,
                made.label,
                made.quota,
                &further,
            )
        }
        Call::SegmentCreate(made) => {
            let further = [Word::Number(made.pages)];
            put_creation(
                out,
                Verb::SegmentCreate,
                made.container,
                made.label,
                made.quota,
                &further,
            )
        }
        Call::SegmentCopy(made) => {
            let further = entry_words(made.source);
            put_creation(
                out,
                Verb::SegmentCopy,
                made.container,
                made.label,
                made.quota,
                &further,
            )
        }
        Call::AsCreate(made) => {
            put_creation(
                out,
                Verb::AsCreate,
                made.container,
                made.label,
                made.quota,
                &[],
            )
        }
        Call::ThreadCreate(made) => {
            let further = [Word::Label(made.clearance), Word::Wide(made.entry_point)];
            put_creation(
                out,
                Verb::ThreadCreate,
                made.container,
                made.label,
                made.quota,
                &further,
            )
        }
        Call::GateCreate(made) => {
            let further = [
                Word::Label(made.clearance),
                Word::Object(made.space.container),
                Word::Object(made.space.object),
                Word::Wide(made.entry_point),
                Word::Wide(made.closure),
            ];
            put_creation(
                out,
                Verb::GateCreate,
                made.container,
                made.label,
                made.quota,
                &further,
            )
        }
        Call::Link { target, entry } => {
            let words = [
                Word::Object(target),
                Word::Object(entry.container),
                Word::Object(entry.object),
            ];
            put_spoken(out, Verb::Link, &words)
        }
        Call::Unref { entry } => put_on_entry(out, Verb::Unref, entry, &[]),
        Call::QuotaMove { entry, change } => {
            put_on_entry(out, Verb::QuotaMove, entry, &[Word::Signed(change)])
        }
        Call::SetFixed { entry } => put_on_entry(out, Verb::SetFixed, entry, &[]),
        Call::SetImmutable { entry } => put_on_entry(out, Verb::SetImmutable, entry, &[]),
        Call::MetaSet { entry, data } => {
            put_on_entry(out, Verb::MetaSet, entry, &[Word::Data(data)])
        }
        Call::SegmentResize { entry, pages } => {
            put_on_entry(out, Verb::SegmentResize, entry, &[Word::Number(pages)])
        }
        Call::SegmentWrite {
            entry,
            offset,
            data,
        } => {
            let further = [Word::Number(offset), Word::Data(data)];
            put_on_entry(out, Verb::SegmentWrite, entry, &further)
        }
        Call::AsMap {
            space,
            slot,
            mapping,
        } => put_on_entry(out, Verb::AsMap, space, &words_of(slot, &mapping)),
        Call::AsUnmap { space, slot } => {
            put_on_entry(out, Verb::AsUnmap, space, &[Word::Number(slot)])
        }
        Call::Store { address, data } => {
            put_spoken(out, Verb::Store, &[Word::Wide(address), Word::Data(data)])
        }
        Call::GateEnter {
            gate,
            label,
            clearance,
            verify,
        } => {
            let further = [
                Word::Label(label),
                Word::Label(clearance),
                Word::Label(verify),
            ];
            put_on_entry(out, Verb::GateEnter, gate, &further)
        }
        Call::DevSend { entry, data } => {
            put_on_entry(out, Verb::DevSend, entry, &[Word::Data(data)])
        }
        Call::DevRecv { entry } => put_on_entry(out, Verb::DevRecv, entry, &[]),
    }
}
