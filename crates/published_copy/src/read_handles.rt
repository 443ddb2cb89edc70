//! A reader of the two copies.
ghost use Rattle.std.specs.Prelude.{◌≡◌, IfSome};
ghost use Rattle.left_right.specs.Sides.{view};
ghost use Rattle.kernel_rules.specs.History.{state_of};
ghost use Rattle.kernel_rules.specs.Step.{query_answer};
ghost use Rattle.published_copy.specs.Shares.{Names};

use crate::copies::Copied;
use crate::log_positions::LogPosition;
use crate::naming::Naming;
use crate::rules::{Published, See, Tag};
use base::{Meter, ObjectId};
use kernel_rules::{Query, Reply};
use left_right::reader::Reader;
use std::marker::PhantomData;

/// A reader of the two copies, which knows their boot.
#[derive(Drop)]
pub(crate) struct ReadHandle<B: Naming> {
    reader: Reader<Copied, Tag, Published>,
    of: PhantomData<B>,
    ghost named: { Names (view reader.place) B.boot },
}

impl<B: Naming> ReadHandle<B> {
    /// The handle of a reader.
    pub(crate) fn new(reader: Reader<Copied, Tag, Published>) -> ReadHandle<B>
        requires { Names (view reader.place) B.boot }
    {
        ReadHandle {
            reader,
            of: PhantomData,
        }
    }

    /// The reply becomes what the copy that is published answers; the list is that whose state it is.
    /// None where the writer is gone.
    pub(crate) fn read(
        self,
        thread: ObjectId,
        query: &Query,
        reply: &mut Reply,
        meter: &mut Meter,
    ) -> (ReadHandle<B>, Option<LogPosition<B>>)
        ensures { IfSome result.1
            (λ list. reply.new ≡ query_answer (state_of B.boot.limits list) thread query.now) }
    {
        let ReadHandle { reader, of } = self;
        match reader.enter_as::<See>() {
            Err(reader) => (ReadHandle { reader, of }, None),
            Ok(reading) => {
                let copy = reading.get();
                if !copy.sealed {
                    let reader = reading.leave();
                    return (ReadHandle { reader, of }, None);
                }
                copy.kernel.ask_into(thread, query, reply, meter);
                let position = LogPosition::of(copy.length, copy.seen.again());
                let reader = reading.leave();
                (ReadHandle { reader, of }, Some(position))
            }
        }
    }
}
