//! What stands in the lines of objects.
ghost use Rattle.std.specs.Prelude.{◌≡◌, ◌++◌, [], ℕ, List, Bool, IfSome, IfNone};
ghost use Rattle.checkpoints.specs.declared.checkpoints.RawGate.{RawGate as GateValue};
ghost use Rattle.text_words.specs.declared.spoken_calls.args.Arg.{Arg as ArgValue};
ghost use Rattle.dump_text.specs.declared.heads.Common.{Common as CommonValue};
ghost use Rattle.dump_text.specs.Word.{args_of, spoken_label};
ghost use Rattle.dump_text.specs.Making.{Makes};
ghost use Rattle.dump_text.specs.Allowed.{Anything};
ghost use Rattle.dump_text.specs.Head.{flag_of, with_flags, container_words, segment_words, space_words};
ghost use Rattle.dump_text.specs.Head.{state_words, hand_words, plain_entry};
ghost use Rattle.dump_text.specs.Head.{thread_words, gate_words, device_words, IsFull};
ghost use Rattle.dump_text.specs.Head.{IsContainerHead, IsSegmentHead, IsSpaceHead, IsGateHead};
ghost use Rattle.dump_text.specs.Head.{IsDeviceHead};

use crate::heads::{
    Common, ContainerHead, DeviceHead, GateHead, SegmentHead, SpaceHead, ThreadHead,
};
use crate::labels::numbered;
use crate::line_words::Worded;
use crate::part_words::{entry_in, is_full};
use base::Data;
use checkpoints::{Attributes, RawGate, RawThread};
use text_words::SpokenLabel;
use text_words::spoken_calls::Arg;

/// What 0 and 1 tell.
pub fn flag_in(number: u32) -> Option<bool>
    ensures some { IfSome result (λ flag. number ≡ flag_of flag) }
    ensures none { IfNone result ((flag : Bool) → number ≡ flag_of flag → ⊥) }
{
    match number {
        0 => Some(false),
        1 => Some(true),
        _ => None,
    }
}

/// What an object of any kind has.
fn common_of(quota: u32, fixed: u32, label: &SpokenLabel) -> Option<Common>
    ensures some { IfSome result (λ c. (quota ≡ c.quota) × (fixed ≡ flag_of c.fixed)
        × (label.now ≡ spoken_label c.label)) }
    ensures none { IfNone result ((c : CommonValue)
        → fixed ≡ flag_of c.fixed → label.now ≡ spoken_label c.label → ⊥) }
{
    let Some(fixed) = flag_in(fixed) else {
        return None;
    };
    let Some(label) = numbered(label) else {
        return None;
    };
    Some(Common {
        label,
        quota,
        fixed,
    })
}

/// What stands before the words of a kind, and these words.
#[derive(Clone, Copy)]
struct Front {
    common: Common,
    immutable: bool,
}

/// The quota, both flags and the label, and the words after them.
fn front_of(args: &[Arg]) -> Option<(Front, &[Arg])>
    ensures some { IfSome result (λ r. args.now
        ≡ args_of (with_flags r.0.common r.0.immutable []) ++ r.1.now) }
    ensures none { IfNone result ((c : CommonValue) (immutable : Bool) (rest : List ArgValue)
        → args.now ≡ args_of (with_flags c immutable []) ++ rest → ⊥) }
{
    let [
        Arg::Number(quota),
        Arg::Number(fixed),
        Arg::Number(immutable),
        Arg::Label(label),
        rest @ ..,
    ] = args
    else {
        return None;
    };
    let Some(common) = common_of(*quota, *fixed, label) else {
        return None;
    };
    let Some(immutable) = flag_in(*immutable) else {
        return None;
    };
    Some((Front { common, immutable }, rest))
}

/// A container.
impl Worded for ContainerHead {
    ghost words = { container_words };

    ghost Allows = { IsContainerHead };

    fn of_args(args: &[Arg]) -> Option<ContainerHead> {
        let Some((front, rest)) = front_of(args) else {
            return None;
        };
        let [Arg::Types(avoid), Arg::Data(metadata)] = rest else {
            return None;
        };
        if !is_full(metadata) {
            return None;
        }
        Some(ContainerHead {
            common: front.common,
            attributes: Attributes {
                immutable: front.immutable,
                metadata: *metadata,
            },
            avoid: *avoid,
        })
    }
}

/// A segment of at most 16 pages.
impl Worded for SegmentHead {
    ghost words = { segment_words };

    ghost Allows = { IsSegmentHead };

    fn of_args(args: &[Arg]) -> Option<SegmentHead> {
        let Some((front, rest)) = front_of(args) else {
            return None;
        };
        let [Arg::Wide(pages), Arg::Data(metadata)] = rest else {
            return None;
        };
        if !is_full(metadata) || *pages > 16 {
            return None;
        }
        Some(SegmentHead {
            common: front.common,
            attributes: Attributes {
                immutable: front.immutable,
                metadata: *metadata,
            },
            pages: *pages as usize,
        })
    }
}

/// An address space.
impl Worded for SpaceHead {
    ghost words = { space_words };

    ghost Allows = { IsSpaceHead };

    fn of_args(args: &[Arg]) -> Option<SpaceHead> {
        let Some((front, rest)) = front_of(args) else {
            return None;
        };
        let [Arg::Data(metadata)] = rest else {
            return None;
        };
        if !is_full(metadata) {
            return None;
        }
        Some(SpaceHead {
            common: front.common,
            attributes: Attributes {
                immutable: front.immutable,
                metadata: *metadata,
            },
        })
    }
}

/// What a thread has beside its label.
impl Worded for RawThread {
    ghost words = { state_words };

    ghost Allows = { Anything };

    fn of_args(args: &[Arg]) -> Option<RawThread> {
        let [Arg::Label(clearance), Arg::Label(verify), more @ ..] = args else {
            return None;
        };
        let Some((space, last)) = entry_in(more) else {
            return None;
        };
        let [Arg::Wide(entry_point), Arg::Wide(closure)] = last else {
            return None;
        };
        let Some(clearance) = numbered(clearance) else {
            return None;
        };
        let Some(verify) = numbered(verify) else {
            return None;
        };
        Some(RawThread {
            clearance,
            verify,
            space,
            entry_point: *entry_point,
            closure: *closure,
        })
    }
}

/// A thread.
impl Worded for ThreadHead {
    ghost words = { thread_words };

    ghost Allows = { Anything };

    fn of_args(args: &[Arg]) -> Option<ThreadHead> {
        let [
            Arg::Number(quota),
            Arg::Number(fixed),
            Arg::Label(label),
            rest @ ..,
        ] = args
        else {
            return None;
        };
        let Some(common) = common_of(*quota, *fixed, label) else {
            return None;
        };
        let Some(thread) = RawThread::of_args(rest) else {
            return None;
        };
        Some(ThreadHead { common, thread })
    }
}

/// What a gate hands on, and its metadata.
fn hand_of(args: &[Arg]) -> Option<(RawGate, Data)>
    ensures some { IfSome result (λ r. args.now ≡ args_of (hand_words r.0 r.1)) }
    ensures none { IfNone result ((g : GateValue) (metadata : List ℕ)
        → args.now ≡ args_of (hand_words g metadata) → ⊥) }
{
    let [Arg::Label(clearance), more @ ..] = args else {
        return None;
    };
    let Some((space, last)) = entry_in(more) else {
        return None;
    };
    let [
        Arg::Wide(entry_point),
        Arg::Wide(closure),
        Arg::Data(metadata),
    ] = last
    else {
        return None;
    };
    let Some(clearance) = numbered(clearance) else {
        return None;
    };
    let gate = RawGate {
        clearance,
        space,
        entry_point: *entry_point,
        closure: *closure,
    };
    Some((gate, *metadata))
}

/// A gate.
impl Worded for GateHead {
    ghost words = { gate_words };

    ghost Allows = { IsGateHead };

    fn of_args(args: &[Arg]) -> Option<GateHead> {
        let Some((front, rest)) = front_of(args) else {
            return None;
        };
        let Some((gate, metadata)) = hand_of(rest) else {
            return None;
        };
        if !is_full(&metadata) {
            return None;
        }
        Some(GateHead {
            common: front.common,
            attributes: Attributes {
                immutable: front.immutable,
                metadata,
            },
            gate,
        })
    }
}

/// A device.
impl Worded for DeviceHead {
    ghost words = { device_words };

    ghost Allows = { IsDeviceHead };

    fn of_args(args: &[Arg]) -> Option<DeviceHead> {
        let [
            Arg::Number(quota),
            Arg::Number(fixed),
            Arg::Label(label),
            Arg::Data(metadata),
        ] = args
        else {
            return None;
        };
        let Some(common) = common_of(*quota, *fixed, label) else {
            return None;
        };
        if !is_full(metadata) {
            return None;
        }
        Some(DeviceHead {
            common,
            metadata: *metadata,
        })
    }
}
