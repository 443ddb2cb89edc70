//! New segments with the bytes of others.
ghost use Rattle.std.specs.Prelude.{◌≡◌, ◌≤◌, ◌+◌, ◌<◌, [], length, slice_set, IfSome};
ghost use Rattle.label_lattice.specs.Label.{IsStored};
ghost use Rattle.kernel_rules.specs.Changes.{made, fresh_object};
ghost use Rattle.kernel_rules.specs.Fitting.{IsFitting};
ghost use Rattle.kernel_rules.specs.State.{bytes_at};
ghost use Rattle.kernel_rules.specs.declared.objects.Body.TheVariants as is;
ghost use Rattle.arena_memory.specs.Segments.{bytes_in, pages_of, HasRoom};
ghost use Rattle.arena_state.specs.Contents.{bytes_found};
ghost use Rattle.kernel_store.specs.Storing.{storing};
ghost use Rattle.arena_state.specs.Shown.{KeepsSlots};
ghost use Rattle.arena_state.specs.States.{state_of, labels_stored, Stands};

use crate::locations::Location;
use crate::making::placing::place;
use crate::records::{Kept, fresh_record};
use crate::states::ArenaState;
use arena_memory::segments::Segments;
use base::{Meter, ObjectId, Slot};
use label_lattice::Label;

// A slot without a byte gets the bytes of another, if there is one.
fn copy_bytes(segments: &mut Segments, from: Option<Slot>, to: Slot, meter: &mut Meter)
    requires from { IfSome from (λ slot. slot.0 < length segments.old) }
    requires to { to.0 < length segments.old }
    requires blank { bytes_in segments.old to.0 ≡ [] }
    requires room { HasRoom segments.old to.0 (pages_of (bytes_found segments.old from)) }
    ensures after { segments.new ≡ slice_set segments.old to.0 (bytes_found segments.old from) }
    ensures scans { meter.new.scans ≡ meter.old.scans }
{
    match from {
        Some(from) => segments.copy(from, to, meter),
        None => segments.clear(to, meter),
    }
}

impl ArenaState {
    // A new segment with the bytes of another, and without a page where the source is no segment, gets the next id, as a
    // container does. It takes no memory: there are frames for the pages that its quota admitted.
    pub(crate) fn create_copy(
        &mut self,
        container: Location,
        label: &Label,
        quota: u32,
        source: Location,
        meter: &mut Meter,
    ) -> ObjectId
        requires source { Stands self.old source }
        requires there { Stands self.old container }
        requires fitting { IsFitting (state_of self.old) container.id quota
            (is.Segment (bytes_at (state_of self.old) source.id)) }
        requires label { IsStored label.now }
        ensures id { result ≡ (state_of self.old).next_id }
        ensures state { state_of self.new ≡ made (state_of self.old) container.id
            (fresh_object label.now quota (is.Segment (bytes_at (state_of self.old) source.id))) }
        ensures scans { meter.new.scans
            ≤ meter.old.scans + storing 1 (labels_stored self.old) }
        ensures slots { KeepsSlots self.old self.new (state_of self.old).next_id }
    {
        let id = container.id;
        let (copied, slot) = (source.id, source.slot);
        match self.told(container) {
            Some(parent) => {
                let pages = self.page_count(Location { id: copied, slot });
                let from = self.told(Location { id: copied, slot });
                let label = self.pieces.holdings.labels.intern(label, meter);
                let given = fresh_record(label, quota, Kept::Segment(pages));
                let made = place(&mut self.pieces, id, parent, given, meter);
                let segments = &mut self.pieces.holdings.segments;
                copy_bytes(segments, from, made.slot, meter);
                made.id
            }
            None => unreachable!(),
        }
    }
}
