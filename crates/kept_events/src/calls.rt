//! Calls.
ghost use Rattle.std.specs.Prelude.{◌≡◌, IfOk, IfSome};
ghost use Rattle.kept_events.specs.Calls.{call_of, formed, labelled_call};

use crate::labels::KeptLabel;
use base::{Data, NoMemory, ObjectId, TypeSet};
use kernel_rules::{Call, Entry, Mapping, NewAddressSpace, NewContainer, NewCopy, NewSegment};
use std::alloc::Global;
use std::marker::Model;

/// A call that carries no label: the calls of these names.
#[derive(Clone, Copy)]
pub(crate) enum Unlabelled {
    CatCreate,
    SelfSetAs {
        space: Entry,
    },
    Link {
        target: ObjectId,
        entry: Entry,
    },
    Unref {
        entry: Entry,
    },
    QuotaMove {
        entry: Entry,
        change: i32,
    },
    SetFixed {
        entry: Entry,
    },
    SetImmutable {
        entry: Entry,
    },
    MetaSet {
        entry: Entry,
        data: Data,
    },
    SegmentResize {
        entry: Entry,
        pages: u32,
    },
    SegmentWrite {
        entry: Entry,
        offset: u32,
        data: Data,
    },
    AsMap {
        space: Entry,
        slot: u32,
        mapping: Mapping,
    },
    AsUnmap {
        space: Entry,
        slot: u32,
    },
    Store {
        address: u64,
        data: Data,
    },
    DevSend {
        entry: Entry,
        data: Data,
    },
    DevRecv {
        entry: Entry,
    },
}

impl Unlabelled {
    /// The call, where it carries no label.
    fn of(call: &Call) -> Option<Unlabelled>
        ensures { IfSome result (λ u. call_of u ≡ call.now) }
    {
        let kept = match *call {
            Call::CatCreate => Unlabelled::CatCreate,
            Call::SelfSetAs { space } => Unlabelled::SelfSetAs { space },
            Call::Link { target, entry } => Unlabelled::Link { target, entry },
            Call::Unref { entry } => Unlabelled::Unref { entry },
            Call::QuotaMove { entry, change } => Unlabelled::QuotaMove { entry, change },
            Call::SetFixed { entry } => Unlabelled::SetFixed { entry },
            Call::SetImmutable { entry } => Unlabelled::SetImmutable { entry },
            Call::MetaSet { entry, data } => Unlabelled::MetaSet { entry, data },
            Call::SegmentResize { entry, pages } => Unlabelled::SegmentResize { entry, pages },
            Call::SegmentWrite {
                entry,
                offset,
                data,
            } => Unlabelled::SegmentWrite {
                entry,
                offset,
                data,
            },
            Call::AsMap {
                space,
                slot,
                mapping,
            } => Unlabelled::AsMap {
                space,
                slot,
                mapping,
            },
            Call::AsUnmap { space, slot } => Unlabelled::AsUnmap { space, slot },
            Call::Store { address, data } => Unlabelled::Store { address, data },
            Call::DevSend { entry, data } => Unlabelled::DevSend { entry, data },
            Call::DevRecv { entry } => Unlabelled::DevRecv { entry },
            _ => return None,
        };
        Some(kept)
    }

    /// The call.
    fn call(&self) -> Call
        ensures { result ≡ call_of self.now }
    {
        match *self {
            Unlabelled::CatCreate => Call::CatCreate,
            Unlabelled::SelfSetAs { space } => Call::SelfSetAs { space },
            Unlabelled::Link { target, entry } => Call::Link { target, entry },
            Unlabelled::Unref { entry } => Call::Unref { entry },
            Unlabelled::QuotaMove { entry, change } => Call::QuotaMove { entry, change },
            Unlabelled::SetFixed { entry } => Call::SetFixed { entry },
            Unlabelled::SetImmutable { entry } => Call::SetImmutable { entry },
            Unlabelled::MetaSet { entry, data } => Call::MetaSet { entry, data },
            Unlabelled::SegmentResize { entry, pages } => Call::SegmentResize { entry, pages },
            Unlabelled::SegmentWrite {
                entry,
                offset,
                data,
            } => Call::SegmentWrite {
                entry,
                offset,
                data,
            },
            Unlabelled::AsMap {
                space,
                slot,
                mapping,
            } => Call::AsMap {
                space,
                slot,
                mapping,
            },
            Unlabelled::AsUnmap { space, slot } => Call::AsUnmap { space, slot },
            Unlabelled::Store { address, data } => Call::Store { address, data },
            Unlabelled::DevSend { entry, data } => Call::DevSend { entry, data },
            Unlabelled::DevRecv { entry } => Call::DevRecv { entry },
        }
    }
}

/// A call that carries one label: the calls of these names.
#[derive(Drop)]
pub(crate) enum Labelled {
    SelfSetLabel {
        label: KeptLabel,
    },
    SelfSetClearance {
        clearance: KeptLabel,
    },
    ContainerCreate {
        container: ObjectId,
        label: KeptLabel,
        quota: u32,
        avoid: TypeSet,
    },
    SegmentCreate {
        container: ObjectId,
        label: KeptLabel,
        quota: u32,
        pages: u32,
    },
    SegmentCopy {
        container: ObjectId,
        label: KeptLabel,
        quota: u32,
        source: Entry,
    },
    AsCreate {
        container: ObjectId,
        label: KeptLabel,
        quota: u32,
    },
}

impl Labelled {
    /// The call, where it carries one label.
    fn of(alloc: Global, call: &Call) -> Result<Option<Labelled>, NoMemory>
        ensures { IfOk result (λ found. IfSome found (λ l. labelled_call l ≡ call.now)) }
    {
        let kept = match call {
            Call::SelfSetLabel { label } => Labelled::SelfSetLabel {
                label: KeptLabel::new(alloc, label)?,
            },
            Call::SelfSetClearance { clearance } => Labelled::SelfSetClearance {
                clearance: KeptLabel::new(alloc, clearance)?,
            },
            Call::ContainerCreate(new) => Labelled::ContainerCreate {
                container: new.container,
                label: KeptLabel::new(alloc, &new.label)?,
                quota: new.quota,
                avoid: new.avoid,
            },
            Call::SegmentCreate(new) => Labelled::SegmentCreate {
                container: new.container,
                label: KeptLabel::new(alloc, &new.label)?,
                quota: new.quota,
                pages: new.pages,
            },
            Call::SegmentCopy(new) => Labelled::SegmentCopy {
                container: new.container,
                label: KeptLabel::new(alloc, &new.label)?,
                quota: new.quota,
                source: new.source,
            },
            Call::AsCreate(new) => Labelled::AsCreate {
                container: new.container,
                label: KeptLabel::new(alloc, &new.label)?,
                quota: new.quota,
            },
            _ => return Ok(None),
        };
        Ok(Some(kept))
    }

    /// The call.
    fn call(&self) -> Call
        ensures { result ≡ labelled_call self.now }
    {
        match self {
            Labelled::SelfSetLabel { label } => Call::SelfSetLabel { label: label.raw() },
            Labelled::SelfSetClearance { clearance } => Call::SelfSetClearance {
                clearance: clearance.raw(),
            },
            Labelled::ContainerCreate {
                container,
                label,
                quota,
                avoid,
            } => Call::ContainerCreate(NewContainer {
                container: *container,
                label: label.raw(),
                quota: *quota,
                avoid: *avoid,
            }),
            Labelled::SegmentCreate {
                container,
                label,
                quota,
                pages,
            } => Call::SegmentCreate(NewSegment {
                container: *container,
                label: label.raw(),
                quota: *quota,
                pages: *pages,
            }),
            Labelled::SegmentCopy {
                container,
                label,
                quota,
                source,
            } => Call::SegmentCopy(NewCopy {
                container: *container,
                label: label.raw(),
                quota: *quota,
                source: *source,
            }),
            Labelled::AsCreate {
                container,
                label,
                quota,
            } => Call::AsCreate(NewAddressSpace {
                container: *container,
                label: label.raw(),
                quota: *quota,
            }),
        }
    }
}

/// How a call is kept.
#[derive(Drop)]
pub(crate) enum Form {
    Unlabelled(Unlabelled),
    Labelled(Labelled),
    Whole(Box<Call>),
}

/// How a call is kept that carries labels.
fn form_with_labels(alloc: Global, call: &Call) -> Result<Form, NoMemory>
    ensures { IfOk result (λ form. formed form ≡ call.now) }
{
    match Labelled::of(alloc, call)? {
        Some(labelled) => Ok(Form::Labelled(labelled)),
        None => Ok(Form::Whole(Box::new(alloc, *call)?)),
    }
}

/// A call that is kept. It has room for the pairs of its label that there are; one with two labels and more stands whole in
/// memory of its own.
#[derive(Drop)]
pub struct KeptCall {
    form: Form,
}

impl Model for KeptCall {
    ghost use Rattle.kernel_rules.specs.declared.calls.Call.{Call};
    ghost use Rattle.kept_events.specs.Calls.{formed};

    ghost Value = { Call };

    ghost view = { λ k. formed k.form };
}

impl KeptCall {
    /// Keeps a call. One without a label, or with one that has no pairs, takes no memory. The error is want of memory.
    pub fn new(alloc: Global, call: &Call) -> Result<KeptCall, NoMemory>
        ensures { IfOk result (λ kept. kept ≡ call.now) }
    {
        let form = match Unlabelled::of(call) {
            Some(unlabelled) => Form::Unlabelled(unlabelled),
            None => form_with_labels(alloc, call)?,
        };
        Ok(KeptCall { form })
    }

    /// The call.
    pub fn call(&self) -> Call
        ensures { result ≡ self.now }
    {
        match &self.form {
            Form::Unlabelled(unlabelled) => unlabelled.call(),
            Form::Labelled(labelled) => labelled.call(),
            Form::Whole(call) => **call,
        }
    }
}
