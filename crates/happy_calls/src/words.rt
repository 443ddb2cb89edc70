//! The words: each public call once, with values from the table.
ghost use Rattle.std.specs.Prelude.{◌≡◌, ◌||◌, true, false};
ghost use Rattle.base.specs.Sets.{only, union};
ghost use Rattle.base.specs.declared.kinds.Kind.TheVariants as kinds;

use crate::look::{Look, agree};
use anyhow::Result;
use base::{Data, Kind, Level, Limits, Meter, ObjectId, Refusal, Rights, TypeSet, live_by_path};
use bitflags::Flags;
use std::alloc::Global;

fn a_meter_counts(alloc: Global, look: &mut Look) -> Result<()> {
    look.part("a_meter_counts");
    let mut meter = Meter::new(alloc)?;
    meter.scan();
    meter.probe();
    meter.probe();
    look.sees(agree(meter.scans(), 1));
    look.sees(agree(meter.probes(), 2));
    Ok(())
}

fn words_are_those_of_the_table(alloc: Global, look: &mut Look) -> Result<()> {
    look.part("words_are_those_of_the_table");
    look.sees(agree(Refusal::Halted.number(), 1));
    look.sees(agree(Refusal::RootKept.number(), 16));
    look.sees(agree(Refusal::NotClean.number(), 62));
    look.sees(Refusal::NotFormat1.name() == "NotFormat1");
    look.sees(agree(Refusal::Bounds.lesser(Refusal::NoQuota), Refusal::NoQuota));
    look.sees(agree(Level::L3.rank(), 4));
    look.sees(agree(ObjectId::root().number(), 1));
    look.sees(agree(ObjectId::new(7).number(), 7));
    live_by_path();
    Ok(())
}

/// Puts threads into a set: what is put in by its bits is in the union.
fn insert_threads(set: &mut TypeSet)
    ensures { set.new ≡ union set.old (only kinds.Thread) }
{
    set.insert(TypeSet::THREAD);
}

/// Puts writing into rights.
fn insert_write(rights: &mut Rights)
    ensures { rights.new ≡ record { read = rights.old.read || false; write = rights.old.write || true } }
{
    rights.insert(Rights::WRITE);
}

fn sets_are_changed_as_sets_of_bits(alloc: Global, look: &mut Look) -> Result<()> {
    look.part("sets_are_changed_as_sets_of_bits");
    let mut set = TypeSet::SEGMENT | TypeSet::GATE;
    insert_threads(&mut set);
    set.remove(TypeSet::GATE);
    look.sees(set == TypeSet::SEGMENT.union(TypeSet::THREAD) && set.contains(TypeSet::SEGMENT));
    look.sees(set - TypeSet::SEGMENT == TypeSet::of(Kind::Thread));
    look.sees(!(!set | set) == TypeSet::none() && TypeSet::all().is_all());
    look.sees((set & TypeSet::THREAD) ^ TypeSet::SEGMENT == set);
    Ok(())
}

fn rights_have_names(alloc: Global, look: &mut Look) -> Result<()> {
    look.part("rights_have_names");
    look.sees(Rights::from_name("WRITE") == Some(Rights::WRITE));
    look.sees(Rights::from_name("EXEC").is_none());
    let mut both = Rights::READ;
    insert_write(&mut both);
    look.sees(
        both.is_all()
            && both == Rights::READ | Rights::WRITE
            && both - Rights::READ == Rights::WRITE,
    );
    look.sees(!Rights::READ & both == Rights::WRITE && Rights::READ ^ both == Rights::WRITE);
    Ok(())
}

fn each_of_a_set_is_told(alloc: Global, look: &mut Look) -> Result<()> {
    look.part("each_of_a_set_is_told");
    let mut count = 0u64;
    for kind in TypeSet::all() {
        look.sees(TypeSet::all().contains(kind));
        count = count.saturating_add(1);
    }
    for right in Rights::READ {
        look.sees(right == Rights::READ);
        count = count.saturating_add(1);
    }
    look.sees(count == 7);
    Ok(())
}

fn sets_hold_what_was_put_in(alloc: Global, look: &mut Look) -> Result<()> {
    look.part("sets_hold_what_was_put_in");
    let both = TypeSet::of(Kind::Gate) | TypeSet::of(Kind::Segment);
    look.sees(both.has(Kind::Gate) && both.has(Kind::Segment) && !both.has(Kind::Device));
    look.sees(!TypeSet::none().has(Kind::Container));
    let rights = Rights {
        read: true,
        write: true,
    };
    look.sees(rights.reading().read && !rights.reading().write);
    look.sees(!Rights::none().read && !Rights::none().write);
    Ok(())
}

fn limits_have_ranges(alloc: Global, look: &mut Look) -> Result<()> {
    look.part("limits_have_ranges");
    let limits = Limits {
        pages: 8,
        device: Level::L0,
        next_id: 4,
        next_category: 1,
    };
    look.sees(limits.is_in_range());
    let spent = 1u64 << 61;
    for (pages, device, next_id, next_category, wanted) in [
        (7, Level::L1, 4, 1, false),
        (1024, Level::L3, spent, spent, true),
        (1025, Level::L1, 4, 1, false),
        (64, Level::Star, 4, 1, false),
        (64, Level::L1, 3, 1, false),
        (64, Level::L1, spent + 1, 1, false),
        (64, Level::L1, 4, 0, false),
        (64, Level::L1, 4, spent + 1, false),
    ] {
        let limits = Limits {
            pages,
            device,
            next_id,
            next_category,
        };
        look.sees(agree(limits.is_in_range(), wanted));
    }
    Ok(())
}

fn data_keeps_its_bytes(alloc: Global, look: &mut Look) -> Result<()> {
    look.part("data_keeps_its_bytes");
    let data = Data::from_slice(b"label");
    look.sees(agree(data.as_slice(), b"label".as_slice()));
    look.sees(agree(Data::from_slice(&[7; Data::MOST]).as_slice().len(), 64));
    Ok(())
}

/// Plays what there is memory for.
pub fn play(alloc: Global, look: &mut Look) -> Result<()> {
    a_meter_counts(alloc, look)?;
    words_are_those_of_the_table(alloc, look)?;
    sets_are_changed_as_sets_of_bits(alloc, look)?;
    rights_have_names(alloc, look)?;
    each_of_a_set_is_told(alloc, look)?;
    sets_hold_what_was_put_in(alloc, look)?;
    limits_have_ranges(alloc, look)?;
    data_keeps_its_bytes(alloc, look)
}
