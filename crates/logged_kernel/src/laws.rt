//! Laws of logs.
ghost use Rattle.std.specs.Prelude.{◌≡◌, ℕ, List, Some};
ghost use Rattle.dump_text.specs.Dump.{dump_text};
ghost use Rattle.dump_text.specs.Pieces.{joined};
ghost use Rattle.dump_text.specs.Whole.{whole_dump, IsLegalDump};
ghost use Rattle.dump_text.specs.declared.tables.PlacedRead.{PlacedRead as Placed};
ghost use Rattle.logged_kernel.specs.Entries.{Tell, events_of};
ghost use Rattle.logged_kernel.specs.Logged.{Logged, ArePieces, IsRight};
ghost use Rattle.logged_kernel.specs.declared.entries.Entry.{Entry as Kept};

/// A law, which does nothing when it is called: the pieces of a log's dump up to the first that is empty, one after another,
/// are the text of the dump of its events with the reads that its lines tell, which is a legal dump's.
pub fn pieces_are_the_dump()
    ensures text { (k : Logged) (kept : List Kept) (reads : List Placed) (texts : ℕ → List ℕ) (count : ℕ)
        → IsRight k kept → Tell 0 kept reads → ArePieces k kept texts count
        → joined texts count ≡ dump_text (whole_dump k.limits (Some k.origin) (events_of kept) reads) }
    ensures legal { (k : Logged) (kept : List Kept) (texts : ℕ → List ℕ) (count : ℕ)
        → IsRight k kept → ArePieces k kept texts count
        → IsLegalDump k.limits (Some k.origin) (joined texts count) }
{}
