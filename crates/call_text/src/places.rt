//! The values that stand at the places of a call. A place of another kind has 0, or nothing.
//!
//! Each name is looked up once: where a reader of values meets one that is not known, or known as the other kind, it notes it
//! in `unbound`, unless one was noted before.
ghost use Rattle.std.specs.Prelude.{◌≡◌, ◌<◌, ◌^◌, ◌+◌, Some, slice_get};
ghost use Rattle.call_text.specs.Place.{object_of, category_of, raw_of, object_at};
ghost use Rattle.call_text.specs.Place.{label_at, number_at, wide_at, signed_at, data_at, types_at};
ghost use Rattle.call_text.specs.Place.{rights_at, entry_at, mapping_at};
ghost use Rattle.call_text.specs.Resolve.{unbound_object, unbound_category};
ghost use Rattle.call_text.specs.Unbound.{noted, noted_object, noted_pairs, noted_label, noted_entry};

use crate::known_names::{Known, Value};
use base::{Category, Data, Level, ObjectId, Rights, TypeSet};
use kernel_rules::{Entry, Mapping};
use label_lattice::{Pair, Pairs, RawLabel};
use text_words::spoken_calls::Arg;
use text_words::{Name, Reference, SpokenLabel};

/// Notes a name that is unbound, unless one was noted before.
fn note(name: &Name, unbound: &mut Option<Name>)
    ensures { unbound.new ≡ noted (Some name.now) unbound.old }
{
    if unbound.is_none() {
        *unbound = Some(*name);
    }
}

/// The object that is meant. A name that is not an object's is noted.
fn object_of<K: Known>(reference: &Reference, names: &K, unbound: &mut Option<Name>) -> ObjectId
    ensures value { result ≡ object_of reference.now (K.names names.now) }
    ensures noted { unbound.new ≡ noted (unbound_object reference.now (K.names names.now)) unbound.old }
{
    match reference {
        Reference::Number(number) => ObjectId::new(*number),
        Reference::Name(name) => match &names.value_of(name) {
            Some(Value::Object(id)) => *id,
            _ => {
                note(name, unbound);
                ObjectId::new(0)
            }
        },
    }
}

/// The category that is meant. A name that is not a category's is noted.
fn category_of<K: Known>(reference: &Reference, names: &K, unbound: &mut Option<Name>) -> Category
    ensures value { result ≡ category_of reference.now (K.names names.now) }
    ensures noted { unbound.new ≡ noted (unbound_category reference.now (K.names names.now)) unbound.old }
{
    match reference {
        Reference::Number(number) => Category(*number),
        Reference::Name(name) => match names.value_of(name) {
            Some(Value::Category(category)) => category,
            _ => {
                note(name, unbound);
                Category(0)
            }
        },
    }
}

/// The raw label that is meant. The first name that is not a category's is noted.
fn raw_label<K: Known>(label: &SpokenLabel, names: &K, unbound: &mut Option<Name>) -> RawLabel
    ensures value { result ≡ raw_of label.now (K.names names.now) }
    ensures noted { unbound.new ≡ noted_pairs label.now.pairs (K.names names.now) unbound.old }
{
    let mut pairs = Pairs::new();
    for pair in label.pairs() {
        pairs.push(Pair {
            category: category_of(&pair.category, names, unbound),
            level: pair.level,
        });
    }
    RawLabel {
        default: label.default(),
        pairs,
    }
}

/// The object at a place. A name that is not an object's is noted.
pub fn object_at<K: Known>(
    args: &[Arg],
    place: usize,
    names: &K,
    unbound: &mut Option<Name>,
) -> ObjectId
    ensures value { result ≡ object_at place args.now (K.names names.now) }
    ensures noted { unbound.new ≡ noted_object (slice_get args.now place) (K.names names.now) unbound.old }
{
    match args.get(place) {
        Some(Arg::Object(reference)) => object_of(reference, names, unbound),
        _ => ObjectId::new(0),
    }
}

/// The label at a place. The first name that is not a category's is noted.
pub fn label_at<K: Known>(
    args: &[Arg],
    place: usize,
    names: &K,
    unbound: &mut Option<Name>,
) -> RawLabel
    ensures value { result ≡ label_at place args.now (K.names names.now) }
    ensures noted { unbound.new ≡ noted_label (slice_get args.now place) (K.names names.now) unbound.old }
{
    match args.get(place) {
        Some(Arg::Label(label)) => raw_label(label, names, unbound),
        _ => RawLabel {
            default: Level::Star,
            pairs: Pairs::new(),
        },
    }
}

/// The number at a place.
pub fn number_at(args: &[Arg], place: usize) -> u32
    ensures { result ≡ number_at place args.now }
{
    match args.get(place) {
        Some(Arg::Number(number)) => *number,
        _ => 0,
    }
}

/// The number of 64 bits at a place.
pub fn wide_at(args: &[Arg], place: usize) -> u64
    ensures { result ≡ wide_at place args.now }
{
    match args.get(place) {
        Some(Arg::Wide(number)) => *number,
        _ => 0,
    }
}

/// The number with a sign at a place.
pub fn signed_at(args: &[Arg], place: usize) -> i32
    ensures { result ≡ signed_at place args.now }
{
    match args.get(place) {
        Some(Arg::Signed(number)) => *number,
        _ => 0,
    }
}

/// The bytes at a place.
pub fn data_at(args: &[Arg], place: usize) -> Data
    ensures { result ≡ data_at place args.now }
{
    match args.get(place) {
        Some(Arg::Data(bytes)) => *bytes,
        _ => Data::from_slice(&[]),
    }
}

/// The set of kinds at a place.
pub fn types_at(args: &[Arg], place: usize) -> TypeSet
    ensures { result ≡ types_at place args.now }
{
    match args.get(place) {
        Some(Arg::Types(set)) => *set,
        _ => TypeSet::none(),
    }
}

/// The rights at a place.
fn rights_at(args: &[Arg], place: usize) -> Rights
    ensures { result ≡ rights_at place args.now }
{
    match args.get(place) {
        Some(Arg::Rights(rights)) => *rights,
        _ => Rights::none(),
    }
}

/// The container and the object at two places. The first name that is not an object's is noted.
pub fn make_entry<K: Known>(
    args: &[Arg],
    place: usize,
    names: &K,
    unbound: &mut Option<Name>,
) -> Entry
    requires { place < 2 ^ 60 }
    ensures value { result ≡ entry_at place args.now (K.names names.now) }
    ensures noted { unbound.new ≡ noted_entry place args.now (K.names names.now) unbound.old }
{
    Entry {
        container: object_at(args, place, names, unbound),
        object: object_at(args, place + 1, names, unbound),
    }
}

/// The mapping at six places: a virtual page, an entry, a page of the segment, how many pages, and
/// rights. The first name that is not an object's is noted.
pub fn make_mapping<K: Known>(
    args: &[Arg],
    place: usize,
    names: &K,
    unbound: &mut Option<Name>,
) -> Mapping
    requires { place < 2 ^ 59 }
    ensures value { result ≡ mapping_at place args.now (K.names names.now) }
    ensures noted { unbound.new ≡ noted_entry (place + 1) args.now (K.names names.now) unbound.old }
{
    Mapping {
        page: number_at(args, place),
        entry: make_entry(args, place + 1, names, unbound),
        first: number_at(args, place + 3),
        count: number_at(args, place + 4),
        rights: rights_at(args, place + 5),
    }
}
