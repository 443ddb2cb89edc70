//! What queries are answered, as it stands in a dump.
ghost use Rattle.std.specs.Prelude.{◌≡◌};
ghost use Rattle.dump_text.specs.Whole.{raw_reply};

use base::{Data, Meter, ObjectId, Refusal};
use checkpoints::RawThread;
use kernel_rules::{Ids, Mapping, Reply};
use label_lattice::RawLabel;

/// What a thread is.
#[derive(Clone, Copy)]
pub struct OwnReply {
    /// Its label, as it is written.
    pub label: RawLabel,
    /// Its other labels, and where it runs.
    pub thread: RawThread,
}

/// The label of an object.
#[derive(Clone, Copy)]
pub struct LabelReply {
    /// The label, as it is written.
    pub label: RawLabel,
}

/// What an object may use and uses, in pages of 256 bytes.
#[derive(Clone, Copy)]
pub struct QuotaReply {
    /// What it may use.
    pub quota: u32,
    /// What it uses.
    pub used: u32,
    /// Its quota never changes again.
    pub fixed: bool,
    /// It is read-only for good.
    pub immutable: bool,
}

/// Ids that a container lists.
#[derive(Clone, Copy)]
pub struct ListReply {
    /// How many it lists.
    pub count: u64,
    /// Up to 16 of them.
    pub ids: Ids,
}

/// The container that lists a container.
#[derive(Clone, Copy)]
pub struct ParentReply {
    /// Its id.
    pub container: ObjectId,
}

/// The length of a segment.
#[derive(Clone, Copy)]
pub struct PagesReply {
    /// How many pages of 256 bytes it has.
    pub pages: u32,
}

/// What a query was answered, as it stands in a dump: its labels with their pairs as they are written.
#[derive(Clone, Copy)]
pub enum ReadReply {
    /// What the caller is.
    Own(OwnReply),
    /// The label of an object.
    Label(LabelReply),
    /// What an object may use and uses.
    Quota(QuotaReply),
    /// Ids that a container lists.
    Listed(ListReply),
    /// The container that lists a container.
    Parent(ParentReply),
    /// The length of a segment.
    Pages(PagesReply),
    /// Bytes that were read.
    Bytes(Data),
    /// What a slot maps.
    Mapping(Mapping),
    /// The slot maps nothing.
    Unmapped,
    /// The query was refused: a kernel's refusal in a dump.
    Refused(Refusal),
}

/// The reply of a query, as it stands in a dump. A reply that write calls alone have is told as an empty slot's. The labels
/// are read over the meter.
pub fn raw_reply(reply: &Reply, meter: &mut Meter) -> ReadReply
    ensures { result ≡ raw_reply reply.now }
{
    match reply {
        Reply::Own {
            label,
            clearance,
            verify,
            space,
            entry_point,
            closure,
        } => ReadReply::Own(OwnReply {
            label: label.to_raw(meter),
            thread: RawThread {
                clearance: clearance.to_raw(meter),
                verify: verify.to_raw(meter),
                space: *space,
                entry_point: *entry_point,
                closure: *closure,
            },
        }),
        Reply::Label(label) => ReadReply::Label(LabelReply {
            label: label.to_raw(meter),
        }),
        Reply::Quota {
            quota,
            used,
            fixed,
            immutable,
        } => ReadReply::Quota(QuotaReply {
            quota: *quota,
            used: *used,
            fixed: *fixed,
            immutable: *immutable,
        }),
        Reply::Listed { count, ids } => ReadReply::Listed(ListReply {
            count: *count,
            ids: *ids,
        }),
        Reply::Parent(id) => ReadReply::Parent(ParentReply { container: *id }),
        Reply::Pages(pages) => ReadReply::Pages(PagesReply { pages: *pages }),
        Reply::Bytes(bytes) => ReadReply::Bytes(*bytes),
        Reply::Mapping(Some(mapping)) => ReadReply::Mapping(*mapping),
        Reply::Refused(refusal) => ReadReply::Refused(*refusal),
        _ => ReadReply::Unmapped,
    }
}
