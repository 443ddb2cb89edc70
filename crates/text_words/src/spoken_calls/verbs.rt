//! The table of calls.
ghost use Rattle.std.specs.Prelude.{◌≡◌, length};
ghost use Rattle.text_words.specs.Reading.{Reads};
ghost use Rattle.text_words.specs.declared.spoken_calls.verbs.Verb.{Verb};
ghost use Rattle.text_words.specs.Verb.{name_of, kinds_of, makes, writes, IsOneOf};

use crate::is_same;
use crate::spoken_calls::args::ArgKind;
use crate::spoken_calls::args::ArgKind::{
    Data, Label, Number, Object, Rights, Signed, Types, Wide,
};

/// A call's first word.
#[derive(Clone, Copy, PartialEq, Eq)]
pub enum Verb {
    CatCreate,
    SelfSetLabel,
    SelfSetClearance,
    SelfSetAs,
    ContainerCreate,
    SegmentCreate,
    SegmentCopy,
    AsCreate,
    ThreadCreate,
    GateCreate,
    Link,
    Unref,
    QuotaMove,
    SetFixed,
    SetImmutable,
    MetaSet,
    SegmentResize,
    SegmentWrite,
    AsMap,
    AsUnmap,
    Store,
    GateEnter,
    DevSend,
    DevRecv,
    SelfGet,
    ObjLabel,
    ObjQuota,
    ContainerList,
    ContainerParent,
    SegmentLen,
    SegmentRead,
    MetaGet,
    AsGet,
    Load,
}

impl Verb {
    /// The word.
    pub fn name(self) -> &'static str
        ensures { result.now ≡ name_of self }
    {
        match self {
            Verb::CatCreate => "cat_create",
            Verb::SelfSetLabel => "self_set_label",
            Verb::SelfSetClearance => "self_set_clearance",
            Verb::SelfSetAs => "self_set_as",
            Verb::ContainerCreate => "container_create",
            Verb::SegmentCreate => "segment_create",
            Verb::SegmentCopy => "segment_copy",
            Verb::AsCreate => "as_create",
            Verb::ThreadCreate => "thread_create",
            Verb::GateCreate => "gate_create",
            Verb::Link => "link",
            Verb::Unref => "unref",
            Verb::QuotaMove => "quota_move",
            Verb::SetFixed => "set_fixed",
            Verb::SetImmutable => "set_immutable",
            Verb::MetaSet => "meta_set",
            Verb::SegmentResize => "segment_resize",
            Verb::SegmentWrite => "segment_write",
            Verb::AsMap => "as_map",
            Verb::AsUnmap => "as_unmap",
            Verb::Store => "store",
            Verb::GateEnter => "gate_enter",
            Verb::DevSend => "dev_send",
            Verb::DevRecv => "dev_recv",
            Verb::SelfGet => "self_get",
            Verb::ObjLabel => "obj_label",
            Verb::ObjQuota => "obj_quota",
            Verb::ContainerList => "container_list",
            Verb::ContainerParent => "container_parent",
            Verb::SegmentLen => "segment_len",
            Verb::SegmentRead => "segment_read",
            Verb::MetaGet => "meta_get",
            Verb::AsGet => "as_get",
            Verb::Load => "load",
        }
    }

    /// The kinds of its arguments, in order.
    pub fn kinds(self) -> &'static [ArgKind]
        ensures { result.now ≡ kinds_of self }
    {
        match self {
            Verb::CatCreate => &[],
            Verb::SelfSetLabel => &[Label],
            Verb::SelfSetClearance => &[Label],
            Verb::SelfSetAs => &[Object, Object],
            Verb::ContainerCreate => &[Object, Label, Number, Types],
            Verb::SegmentCreate => &[Object, Label, Number, Number],
            Verb::SegmentCopy => &[Object, Label, Number, Object, Object],
            Verb::AsCreate => &[Object, Label, Number],
            Verb::ThreadCreate => &[Object, Label, Number, Label, Wide],
            Verb::GateCreate => &[Object, Label, Number, Label, Object, Object, Wide, Wide],
            Verb::Link => &[Object, Object, Object],
            Verb::Unref => &[Object, Object],
            Verb::QuotaMove => &[Object, Object, Signed],
            Verb::SetFixed => &[Object, Object],
            Verb::SetImmutable => &[Object, Object],
            Verb::MetaSet => &[Object, Object, Data],
            Verb::SegmentResize => &[Object, Object, Number],
            Verb::SegmentWrite => &[Object, Object, Number, Data],
            Verb::AsMap => &[
                Object, Object, Number, Number, Object, Object, Number, Number, Rights,
            ],
            Verb::AsUnmap => &[Object, Object, Number],
            Verb::Store => &[Wide, Data],
            Verb::GateEnter => &[Object, Object, Label, Label, Label],
            Verb::DevSend => &[Object, Object, Data],
            Verb::DevRecv => &[Object, Object],
            Verb::SelfGet => &[],
            Verb::ObjLabel => &[Object, Object],
            Verb::ObjQuota => &[Object, Object],
            Verb::ContainerList => &[Object, Number],
            Verb::ContainerParent => &[Object],
            Verb::SegmentLen => &[Object, Object],
            Verb::SegmentRead => &[Object, Object, Number, Number],
            Verb::MetaGet => &[Object, Object],
            Verb::AsGet => &[Object, Object, Number],
            Verb::Load => &[Wide, Number],
        }
    }

    /// Whether the call makes something that a name can be bound to.
    pub fn makes(self) -> bool
        ensures { result ≡ makes self }
    {
        matches!(
            self,
            Verb::CatCreate
                | Verb::ContainerCreate
                | Verb::SegmentCreate
                | Verb::SegmentCopy
                | Verb::AsCreate
                | Verb::ThreadCreate
                | Verb::GateCreate
        )
    }

    /// Whether it is a write call.
    pub fn writes(self) -> bool
        ensures { result ≡ writes self }
    {
        !matches!(
            self,
            Verb::SelfGet
                | Verb::ObjLabel
                | Verb::ObjQuota
                | Verb::ContainerList
                | Verb::ContainerParent
                | Verb::SegmentLen
                | Verb::SegmentRead
                | Verb::MetaGet
                | Verb::AsGet
                | Verb::Load
        )
    }
}

/// The verbs whose words have so many bytes.
fn of_length(len: usize) -> &'static [Verb]
    ensures { (v : Verb) → length (name_of v) ≡ len → IsOneOf v result.now }
{
    match len {
        4 => &[Verb::Link, Verb::Load],
        5 => &[Verb::Unref, Verb::Store],
        6 => &[Verb::AsMap, Verb::AsGet],
        8 => &[
            Verb::MetaSet,
            Verb::AsUnmap,
            Verb::DevSend,
            Verb::DevRecv,
            Verb::SelfGet,
            Verb::MetaGet,
        ],
        9 => &[
            Verb::AsCreate,
            Verb::SetFixed,
            Verb::ObjLabel,
            Verb::ObjQuota,
        ],
        10 => &[Verb::CatCreate, Verb::QuotaMove, Verb::GateEnter],
        11 => &[Verb::SelfSetAs, Verb::GateCreate, Verb::SegmentLen],
        12 => &[Verb::SegmentCopy, Verb::SegmentRead],
        13 => &[Verb::ThreadCreate, Verb::SetImmutable, Verb::SegmentWrite],
        14 => &[
            Verb::SelfSetLabel,
            Verb::SegmentCreate,
            Verb::SegmentResize,
            Verb::ContainerList,
        ],
        16 => &[Verb::ContainerCreate, Verb::ContainerParent],
        18 => &[Verb::SelfSetClearance],
        _ => &[],
    }
}

/// The verb that the word names.
pub fn read_verb(word: &[u8]) -> Option<Verb>
    ensures { Reads name_of (λ _. Unit) word.now result }
{
    for verb in of_length(word.len()) {
        if is_same(verb.name().as_bytes(), word) {
            return Some(*verb);
        }
    }
    None
}
