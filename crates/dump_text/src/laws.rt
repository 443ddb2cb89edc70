//! Laws of the dumps of legal events.
ghost use Rattle.std.specs.Prelude.{◌≡◌, true, List, Option};
ghost use Rattle.std.specs.List.{AllByRecursion};
ghost use Rattle.base.specs.declared.ranges.Limits.{Limits as Booted};
ghost use Rattle.checkpoints.specs.Checkpoint.{Checkpoint as Written};
ghost use Rattle.kernel_rules.specs.History.{IsLegalFrom};
ghost use Rattle.kernel_rules.specs.Events.{Event as Done};
ghost use Rattle.dump_text.specs.Dump.{dump_text, IsDump};
ghost use Rattle.dump_text.specs.Fits.{FitsWords};
ghost use Rattle.dump_text.specs.Line.{IsBootable};
ghost use Rattle.dump_text.specs.Reads.{have_places};
ghost use Rattle.dump_text.specs.Whole.{start_with, whole_dump, CanBegin, IsAnsweredRightly};
ghost use Rattle.dump_text.specs.declared.tables.PlacedRead.{PlacedRead as Placed};

/// A law, which does nothing when it is called: the text of the dump of events that are legal from a checkpoint that can
/// be restored, or from a boot with at most 512 pages, and of reads among them that the rules answer so, is a dump's, where
/// the limits are in range, the reads stand in the order of their places, and each value in it fits its word. The rules give
/// the rest: the replies are those of write calls and of queries and the refusals a kernel's, the places of labels are below
/// 2^32, an order has three bits, and the lines stand in order.
pub fn legal_is_dump()
    ensures { (limits : Booted) (checkpoint : Option Written) (events : List Done) (reads : List Placed)
        → IsBootable limits → CanBegin limits checkpoint
        → IsLegalFrom (start_with limits checkpoint) events
        → AllByRecursion (IsAnsweredRightly (start_with limits checkpoint) events) reads
        → have_places checkpoint events reads ≡ true
        → FitsWords (whole_dump limits checkpoint events reads)
        → IsDump (dump_text (whole_dump limits checkpoint events reads))
        (whole_dump limits checkpoint events reads) }
{}
