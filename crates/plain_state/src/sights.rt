//! What a thread sees of an object.
ghost use Rattle.std.specs.Prelude.{◌≡◌};
ghost use Rattle.kernel_store.specs.Sights.{kind_at, seen_of};
ghost use Rattle.plain_state.specs.StateOf.{state_of};

use crate::link_reads::kind_of;
use crate::states::PlainState;
use base::{Kind, Meter, ObjectId};
use kernel_store::Seen;

impl PlainState {
    /// What an object is, where it is recorded.
    #[tactic(auto, unfolding(kernel_store::specs::Sights::kind_at))]
    fn kind(&self, id: ObjectId) -> Option<Kind>
        ensures { result ≡ kind_at (state_of self.now) id }
    {
        match self.object(id) {
            None => None,
            Some(object) => Some(kind_of(object)),
        }
    }

    /// What a thread sees of an object.
    pub fn seen(&self, thread: ObjectId, id: ObjectId, meter: &mut Meter) -> Seen
        ensures { result ≡ seen_of (state_of self.now) thread id }
    {
        Seen {
            kind: self.kind(id),
            observed: self.observes(thread, id, meter),
            flowing: self.flows_to(thread, id, meter),
            immutable: self.is_immutable(id),
            fixed: self.is_fixed(id),
            pages: self.page_count(id),
        }
    }
}
