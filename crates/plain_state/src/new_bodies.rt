//! The bodies of new objects.
ghost use Rattle.std.specs.Prelude.{◌≡◌, ℕ, IfOk};
ghost use Rattle.kernel_rules.specs.Step.{new_thread};
ghost use Rattle.kernel_rules.specs.declared.objects.Body.TheVariants as is;
ghost use Rattle.kernel_store.specs.NewBodies.{new_body};
ghost use Rattle.plain_state.specs.StateOf.{state_of};

use crate::boots::uniform;
use crate::states::PlainState;
use base::{Level, Meter, NoMemory, ObjectId};
use kernel_rules::{Body, Bytes, Entry, IdList, Slots, Thread};
use kernel_store::{NewBody, ThreadStart};

// A thread of this clearance, which has no address space.
fn made_thread(start: &ThreadStart, meter: &mut Meter) -> Thread
    ensures { is.Thread result ≡ new_thread start.now.clearance.now start.now.entry_point }
{
    Thread {
        clearance: *start.clearance,
        verify: uniform(Level::L3, meter),
        space: Entry {
            container: ObjectId::new(0),
            object: ObjectId::new(0),
        },
        entry_point: start.entry_point,
        closure: 0,
    }
}

impl PlainState {
    /// The body of a new object. The error is want of memory.
    pub fn made_body(&self, body: &NewBody<ObjectId>, meter: &mut Meter) -> Result<Body, NoMemory>
        ensures { IfOk result
            (λ made. made ≡ new_body (λ (id : ℕ). id) (state_of self.now) body.now) }
    {
        Ok(match body {
            NewBody::Container(kinds) => Body::Container(*kinds, IdList::new(self.alloc())),
            NewBody::Segment(pages) => {
                Body::Segment(Bytes::zeroed(self.alloc(), 256 * *pages as usize)?)
            }
            NewBody::Copy(source) => Body::Segment(Bytes::copied(
                self.alloc(),
                self.bytes(*source),
            )?),
            NewBody::AddressSpace => Body::AddressSpace(Slots::empty()),
            NewBody::Thread(start) => Body::Thread(made_thread(start, meter)),
            NewBody::Gate(gate) => Body::Gate(**gate),
        })
    }
}
