//! Dumps of format 1 as dumps of format 2.
ghost use Rattle.std.specs.Prelude.{◌≡◌, None, true, IfOk, IfErr};
ghost use Rattle.base.specs.Limits.{in_range};
ghost use Rattle.base.specs.declared.ranges.Limits.{Limits as Booted};
ghost use Rattle.checkpoints.specs.Restorable.{is_restorable};
ghost use Rattle.checkpoints.specs.Starts.{start_of};
ghost use Rattle.kernel_rules.specs.History.{boot_start};
ghost use Rattle.dump_text.specs.declared.migrating.MigrateFault.TheVariants.{Memory as OutOfMemory};
ghost use Rattle.dump_text.specs.Boot.{plain_label, boot_object, boot_thread, boot_checkpoint};
ghost use Rattle.dump_text.specs.Boot.{Migrates, TellsFirst, migrated, no_metadata};
ghost use Rattle.dump_text.specs.Dump.{IsDump};
ghost use Rattle.dump_text.specs.Refused.{migrate_refusal_of};

use crate::dumps::read_dump;
use crate::errors::DumpError;
use crate::stripping::after;
use crate::tables::Dump;
use crate::writing::write_dump;
use base::{Data, Level, Limits, NoMemory, ObjectId, Refusal, TypeSet};
use checkpoints::{Attributes, Checkpoint, RawBody, RawObject, RawThread, Recorded};
use kernel_rules::{Entry, IdList, Packets};
use label_lattice::{Pairs, RawLabel};
use std::alloc::Global;
use thiserror::Error;

/// Why a text is not migrated.
#[derive(Clone, Copy, PartialEq, Eq, Debug, Error)]
pub enum MigrateFault {
    /// The first line, from 1, at which the text stops being the beginning of a dump of format 1.
    #[error("line {0}: not a dump of format 1")]
    NotFormat1(u64),
    /// There was no memory for what is read and written.
    #[error("out of memory")]
    Memory,
}

impl MigrateFault {
    /// 61 for a text that is not of format 1, 51 for want of memory.
    pub fn refusal(self) -> Refusal
        ensures { result ≡ migrate_refusal_of self }
    {
        match self {
            MigrateFault::NotFormat1(_) => Refusal::NotFormat1,
            MigrateFault::Memory => Refusal::TextMemory,
        }
    }
}

impl From<NoMemory> for MigrateFault {
    ghost from_gives = { λ _ e. e ≡ OutOfMemory };

    fn from(_: NoMemory) -> MigrateFault {
        MigrateFault::Memory
    }
}

/// A label of one level.
fn plain_label(level: Level) -> RawLabel
    ensures { result ≡ plain_label level }
{
    RawLabel {
        default: level,
        pairs: Pairs::new(),
    }
}

/// An object of the boot.
fn boot_object(id: u64, level: Level, quota: u32, body: RawBody) -> Recorded
    ensures { result ≡ boot_object id level quota body }
{
    Recorded {
        id: ObjectId::new(id),
        object: RawObject {
            label: plain_label(level),
            quota,
            fixed: false,
            body,
        },
    }
}

/// The boot thread, whose address space is none.
fn boot_thread() -> RawBody
    ensures { result ≡ boot_thread }
{
    RawBody::Thread(RawThread {
        clearance: plain_label(Level::L2),
        verify: plain_label(Level::L3),
        space: Entry {
            container: ObjectId::new(0),
            object: ObjectId::new(0),
        },
        entry_point: 0,
        closure: 0,
    })
}

/// Metadata that nobody set.
fn no_metadata() -> Data
    ensures { result ≡ no_metadata }
{
    Data::from_slice(&[0; 64])
}

/// The checkpoint of a boot with these limits: the root 1, the boot thread 2 and the device 3, and no event yet. Want of
/// memory is the only error.
pub fn boot_checkpoint(alloc: Global, limits: &Limits) -> Result<Checkpoint, NoMemory>
    ensures { IfOk result (λ checkpoint. checkpoint ≡ boot_checkpoint limits.now) }
{
    let mut list = IdList::new(alloc);
    list.push(ObjectId::new(2))?;
    list.push(ObjectId::new(3))?;
    let attributes = Attributes {
        immutable: false,
        metadata: no_metadata(),
    };
    let root = RawBody::Container(attributes, TypeSet::none(), list);
    let device = RawBody::Device(no_metadata(), Packets::new(alloc));
    let mut objects = Vec::new(alloc);
    objects.push(boot_object(1, Level::L1, limits.pages, root))?;
    objects.push(boot_object(2, Level::L1, 1, boot_thread()))?;
    objects.push(boot_object(3, limits.device, 2, device))?;
    Ok(Checkpoint {
        next_id: limits.next_id,
        next_category: limits.next_category,
        objects,
        next: Vec::new(alloc),
    })
}

/// A law, which does nothing when it is called: events begin at the checkpoint of a boot as at the boot, and where the
/// limits are in range it can be restored.
pub fn boots_can_begin()
    ensures start { (limits : Booted)
        → start_of limits (boot_checkpoint limits) ≡ boot_start limits }
    ensures restorable { (limits : Booted) → in_range limits ≡ true
        → is_restorable limits (boot_checkpoint limits) ≡ true }
{}

/// The dump of format 1 that the bytes spell.
fn read_first(alloc: Global, bytes: &[u8]) -> Result<Dump, MigrateFault>
    ensures dump { IfOk result (λ d. IsDump bytes.now d) }
    ensures first { IfOk result (λ d. d.checkpoint ≡ None) }
    ensures fault { IfErr result (TellsFirst bytes.now) }
{
    if let Some(_) = after(bytes, b"histar-dump 2\n") {
        return Err(MigrateFault::NotFormat1(1));
    }
    match read_dump(alloc, bytes) {
        Ok(dump) => Ok(dump),
        Err(DumpError::Line(line)) => Err(MigrateFault::NotFormat1(line)),
        Err(DumpError::Memory) => Err(MigrateFault::Memory),
    }
}

/// The same dump in format 2: its events begin at the checkpoint of the boot.
fn begun_at_boot(alloc: Global, dump: Dump) -> Result<Dump, NoMemory>
    ensures { IfOk result (λ begun. begun ≡ migrated dump) }
{
    let checkpoint = boot_checkpoint(alloc, &dump.limits)?;
    Ok(Dump {
        limits: dump.limits,
        checkpoint: Some(checkpoint),
        events: dump.events,
        reads: Vec::new(alloc),
        tables: dump.tables,
    })
}

/// The text in format 2 of the dump that the bytes are in format 1: its events begin at the checkpoint of the boot, and the
/// later lines are the same. 61 tells the first line at which the bytes stop being the beginning of a dump of format 1.
pub fn migrate(alloc: Global, bytes: &[u8]) -> Result<Vec<u8>, MigrateFault>
    ensures { Migrates bytes.now result }
{
    let dump = read_first(alloc, bytes)?;
    let begun = begun_at_boot(alloc, dump)?;
    let text = write_dump(alloc, &begun)?;
    Ok(text)
}
