//! The search for an id by halves.
ghost use Rattle.std.specs.Prelude.{◌≡◌, ◌≢◌, ℕ, ◌+◌, ◌<◌, ◌≤◌, length, min, IfSome, IfNone};
ghost use Rattle.std.specs.Prelude.{slice_index};
ghost use Rattle.base.specs.Counts.{ProbesAtMost};
ghost use Rattle.containers.specs.Objects.{Rises, binary_digits};

use base::Meter;

// What a search found, and how many numbers it read.
#[derive(Clone, Copy)]
struct Searched {
    place: Option<usize>,
    reads: u64,
}

// The place after the last one where an id can be: numbers that rise are no less than their places.
fn end_of(ids: &[u64], id: u64) -> usize
    ensures { result ≡ min (length ids.now) (id + 1) }
{
    if id < ids.len() as u64 {
        id as usize + 1
    } else {
        ids.len()
    }
}

// Looks for an id in a rising list.
fn search(ids: &[u64], id: u64) -> Searched
    requires { Rises ids.now }
    ensures found { IfSome result.place (λ place. (place < length ids.now)
        × (slice_index ids.now place ≡ id)) }
    ensures absent { IfNone result.place
        ((k : ℕ) → k < length ids.now → slice_index ids.now k ≢ id) }
    ensures few { result.reads ≤ binary_digits (length ids.now) }
{
    let mut low = 0;
    let mut high = end_of(ids, id);
    let mut middle = high / 2;
    let mut reads = 0u64;
    while low < high {
        reads += 1;
        let here = ids[middle];
        if here == id {
            return Searched {
                place: Some(middle),
                reads,
            };
        }
        if here < id {
            low = middle + 1;
        } else {
            high = middle;
        }
        middle = low + (high - low) / 2;
    }
    Searched { place: None, reads }
}

/// The place of an id in a rising list. Each read is counted.
pub fn place_of(ids: &[u64], id: u64, meter: &mut Meter) -> Option<usize>
    requires { Rises ids.now }
    ensures found { IfSome result (λ place. (place < length ids.now)
        × (slice_index ids.now place ≡ id)) }
    ensures absent { IfNone result ((k : ℕ) → k < length ids.now → slice_index ids.now k ≢ id) }
    ensures cost { ProbesAtMost (binary_digits (length ids.now)) meter.old meter.new }
{
    let searched = search(ids, id);
    meter.probe_many(searched.reads);
    searched.place
}
