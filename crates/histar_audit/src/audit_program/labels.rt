//! The label of an observer, as a text.
ghost use Rattle.std.specs.Prelude.{◌≡◌, ◌++◌, [], codes, IfOk};
ghost use Rattle.histar_audit.specs.Labels.{label_set, ReadsLabel};
ghost use Rattle.call_text.specs.Resolve.{resolved};
ghost use Rattle.dump_text.specs.Call.{call_text, write_of, IsCall};
ghost use Rattle.text_words.specs.Reading.{Reads};

use base::{Meter, NoMemory};
use call_text::{Asked, NameList, resolve};
use kernel_rules::Call;
use label_lattice::Label;
use std::alloc::Global;
use text_words::spoken_calls::{SpokenCall, read_spoken};

/// The call that is asked for where no name is known.
fn call_of(spoken: &SpokenCall<'_>) -> Option<Call>
    ensures { result ≡ write_of (resolved spoken.now []) }
{
    match resolve(spoken, &NameList { named: &[] }) {
        Ok(Asked::Write(call)) => Some(call),
        _ => None,
    }
}

/// The call that a line spells.
fn read_call(alloc: Global, line: &[u8]) -> Result<Option<Call>, NoMemory>
    ensures { IfOk result (λ found. Reads call_text IsCall line.now found) }
{
    let mut args = Vec::new(alloc);
    let Some(verb) = read_spoken(alloc, line, &mut args)? else {
        return Ok(None);
    };
    Ok(call_of(&SpokenCall::new(verb, args.as_slice())))
}

/// The line of the call whose one argument is the text.
fn line_of(alloc: Global, text: &[u8]) -> Result<Vec<u8>, NoMemory>
    ensures { IfOk result (λ line. line.items ≡ codes "self_set_label " ++ text.now) }
{
    let mut line = Vec::new(alloc);
    line.extend_from_slice(b"self_set_label ")?;
    line.extend_from_slice(text)?;
    Ok(line)
}

/// The label that a call sets, stored.
fn label_set(call: Option<Call>, meter: &mut Meter) -> Option<Label>
    ensures { result ≡ label_set call }
{
    match call {
        Some(Call::SelfSetLabel { label }) => Label::if_good(&label, meter),
        _ => None,
    }
}

/// The label that a text spells as scripts do, with its categories by number, as `{1}` or `{#1:3,1}`. There is none where it
/// spells none, or one that can't be stored. The error is want of memory.
pub fn read_label(alloc: Global, text: &[u8]) -> Result<Option<Label>, NoMemory>
    ensures { IfOk result (ReadsLabel text.now) }
{
    let line = line_of(alloc, text)?;
    let mut meter = Meter::new(alloc)?;
    let call = read_call(alloc, line.as_slice())?;
    Ok(label_set(call, &mut meter))
}
