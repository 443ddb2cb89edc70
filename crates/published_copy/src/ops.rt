//! The calls that the copies take in.
ghost use Rattle.std.specs.Prelude.{◌≡◌, ◌≤◌};
ghost use Rattle.std.specs.Prelude as std;
ghost use Rattle.std.specs.Arc.{arc_value};
ghost use Rattle.published_copy.specs.Entries.{weight as weight_of_log};
ghost use Rattle.published_copy.specs.Rules.{head_of};

use crate::logs::{Head, SeenLog};
use base::ObjectId;
use kernel_rules::Call;
use std::sync::Arc;

/// The calls of a batch for the copies, with the log in which it was tried.
#[derive(Drop)]
pub(crate) struct Op {
    /// The thread that calls.
    pub(crate) thread: ObjectId,
    /// The first call, in memory of its own: operations are moved, and a call is large.
    pub(crate) call: Box<Call>,
    /// The calls after it, at most 15, which a batch of one call has not.
    pub(crate) more: Vec<Call>,
    /// How many events there are with it.
    pub(crate) length: u64,
    /// What the log weighs in which it was tried last.
    pub(crate) weight: u64,
    /// That log.
    pub(crate) seen: SeenLog,
    /// What the log weighs at any time.
    pub(crate) head: Arc<Head>,
    pub(crate) ghost few: { std.length more.items ≤ 15 },
    pub(crate) ghost weighs: { weight ≡ weight_of_log seen.log },
    pub(crate) ghost head_is: { arc_value head ≡ head_of seen.book },
}
