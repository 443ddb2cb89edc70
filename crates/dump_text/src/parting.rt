//! Reads at one place.
ghost use Rattle.std.specs.Prelude.{◌≡◌};
ghost use Rattle.dump_text.specs.Reads.{reads_at, reads_past};

use crate::tables::PlacedRead;

/// The first reads, as long as they stand at the place, and the reads after them.
pub fn part_reads(place: usize, reads: &[PlacedRead]) -> (&[PlacedRead], &[PlacedRead])
    ensures here { result.0.now ≡ reads_at place reads.now }
    ensures past { result.1.now ≡ reads_past place reads.now }
{
    for count in 0..reads.len() {
        if reads[count].place != place {
            return reads.split_at(count);
        }
    }
    reads.split_at(reads.len())
}
