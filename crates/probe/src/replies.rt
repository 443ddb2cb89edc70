//! A reply of each kind, as text.
use base::{Category, Data, Level, Meter, NoMemory, ObjectId, Refusal, Rights};
use call_text::{NameList, Named, Value, put_made, write_reply};
use happy_calls::samples::{in_root, no_entry, pair, plain};
use kernel_rules::{Ids, Mapping, Reply};
use label_lattice::label_rules::stored_of;
use label_lattice::{Label, RawLabel};
use std::alloc::Global;
use text_words::Name;

/// The root under two names, and a category.
fn named() -> [Named; 3] {
    [
        Named {
            name: Name::from_slice(b"root"),
            value: Value::Object(ObjectId::root()),
        },
        Named {
            name: Name::from_slice(b"c"),
            value: Value::Category(Category(4)),
        },
        Named {
            name: Name::from_slice(b"again"),
            value: Value::Object(ObjectId::root()),
        },
    ]
}

fn put(out: &mut Vec<u8>, alloc: Global, reply: &Reply) -> Result<(), NoMemory> {
    let text = write_reply(alloc, reply, &named())?;
    out.extend_from_slice(text.as_slice())?;
    out.push(b'\n')?;
    Ok(())
}

fn put_all(out: &mut Vec<u8>, alloc: Global, replies: &[Reply]) -> Result<(), NoMemory> {
    for reply in replies {
        put(out, alloc, reply)?;
    }
    Ok(())
}

/// Replies of one value.
fn simple() -> [Reply; 11] {
    [
        Reply::Done,
        Reply::Category(Category(4)),
        Reply::Category(Category(1)),
        Reply::Object(ObjectId::root()),
        Reply::Object(ObjectId::new(4)),
        Reply::Bytes(Data::from_slice(&[0, 255])),
        Reply::Parent(ObjectId::root()),
        Reply::Pages(16),
        Reply::Mapping(None),
        Reply::Refused(Refusal::NoQuota),
        Reply::Refused(Refusal::Spent),
    ]
}

/// Replies of several values.
fn composed() -> [Reply; 3] {
    let mapping = Mapping {
        page: 65_535,
        entry: in_root(9),
        first: 15,
        count: 1,
        rights: Rights {
            read: true,
            write: true,
        },
    };
    [
        Reply::Entered {
            entry_point: u64::MAX,
            closure: 0,
        },
        Reply::Quota {
            quota: u32::MAX,
            used: 4,
            fixed: true,
            immutable: false,
        },
        Reply::Mapping(Some(mapping)),
    ]
}

/// Lists of none, of three and of as many ids as there may be.
fn lists() -> [Reply; 3] {
    let root = ObjectId::root();
    [
        Reply::Listed {
            count: 3,
            ids: Ids::from_slice(&[]),
        },
        Reply::Listed {
            count: 20,
            ids: Ids::from_slice(&[ObjectId::new(2), root, ObjectId::new(3)]),
        },
        Reply::Listed {
            count: 16,
            ids: Ids::from_slice(&[root; 16]),
        },
    ]
}

/// A plain label, and one that owns a category and has another at level 0.
fn labels(meter: &mut Meter) -> Option<(Label, Label)> {
    let raw = RawLabel::new(Level::L3, &[pair(7, Level::L0), pair(4, Level::Star)]);
    Some((stored_of(&plain(), meter)?, stored_of(&raw, meter)?))
}

/// Replies with labels.
fn labelled(plain: Label, owning: Label) -> [Reply; 3] {
    [
        Reply::Label(plain),
        Reply::Label(owning),
        Reply::Own {
            label: owning,
            clearance: plain,
            verify: plain,
            space: no_entry(),
            entry_point: 5,
            closure: 6,
        },
    ]
}

/// What was made, in the words of a reply.
fn put_values(out: &mut Vec<u8>) -> Result<(), NoMemory> {
    let names = named();
    let list = NameList { named: &names };
    for value in [
        Value::Object(ObjectId::root()),
        Value::Category(Category(1)),
    ] {
        put_made(out, &value, &list)?;
        out.push(b'\n')?;
    }
    Ok(())
}

/// All of them, a line each.
pub fn all(alloc: Global) -> Result<Vec<u8>, NoMemory> {
    let mut meter = Meter::new(alloc)?;
    let mut out = Vec::new(alloc);
    put_all(&mut out, alloc, &simple())?;
    put_all(&mut out, alloc, &composed())?;
    put_all(&mut out, alloc, &lists())?;
    if let Some((plain, owning)) = labels(&mut meter) {
        put_all(&mut out, alloc, &labelled(plain, owning))?;
    }
    put_values(&mut out)?;
    Ok(out)
}
