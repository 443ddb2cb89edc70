//! The read call that a record asks for.
ghost use Rattle.std.specs.Prelude.{◌≡◌};
ghost use Rattle.call_records.specs.Queries.{query_of};

use crate::records::Request;
use crate::words::{entry_of, number_at};
use base::ObjectId;
use kernel_rules::Query;

/// The read call that a record asks for. None where it asks for no read call: its number is not 25 to 34, or a number is
/// malformed.
pub fn query_of(request: &Request) -> Option<Query>
    ensures { result ≡ query_of request.now }
{
    let container = ObjectId::new(request.container);
    let entry = entry_of(request);
    Some(match request.call {
        25 => Query::SelfGet,
        26 => Query::ObjLabel { entry },
        27 => Query::ObjQuota { entry },
        28 => Query::ContainerList {
            container,
            from: number_at(request, 0)?,
        },
        29 => Query::ContainerParent { container },
        30 => Query::SegmentLen { entry },
        31 => Query::SegmentRead {
            entry,
            offset: number_at(request, 0)?,
            count: number_at(request, 1)?,
        },
        32 => Query::MetaGet { entry },
        33 => Query::AsGet {
            space: entry,
            slot: number_at(request, 0)?,
        },
        34 => Query::Load {
            address: request.numbers[0],
            count: number_at(request, 1)?,
        },
        _ => return None,
    })
}
