//! The rule of the list of calls.
ghost use Rattle.std.specs.Prelude.{◌≡◌, ◌∷◌};
ghost use Rattle.shared_calls.specs.Names.{name_of};

use base::ObjectId;
use boxcar::slot::{OnceSlot, SlotRule};
use boxcar::tag::{Names, Tag};
use kept_events::KeptCall;
use kernel_rules::Call;
use logbook::{Gain, Pen, Plain, Play, Rule, Seen, Word};

/// A batch of calls of a thread, as the list has it, with the mark that it alone has. No value of it is made.
pub struct Made {
    /// The mark.
    pub mark: u64,
    /// The thread that calls.
    pub thread: ObjectId,
    /// Its calls.
    pub calls: [Call; 0],
}

/// A word that the list knows of.
pub(crate) type Tracked = Word<Made, u64, Law>;

/// A beginning of the list that was seen.
pub(crate) type Prefix = Seen<Made, u64, Law>;

/// The rule of the list: its first word is its length, and a batch's mark is the key of a word that came home with it.
pub(crate) struct Law;

impl Rule<Made, u64> for Law {
    ghost use Rattle.std.specs.Prelude.{[]};
    ghost use base.Fml.{ftrue};
    ghost use Rattle.shared_calls.specs.Lists.{IsKept};

    ghost holds = { λ cells log. IsKept cells log };

    ghost first = { [] };

    ghost hinted = { λ n log. Unit {0} };

    ghost shows = { λ log. [] };

    ghost keeps = { λ names log. ftrue };

    ghost moves = { λ ask before after answer. Unit {0} };
}

/// Callers of the list trade nothing.
pub(crate) struct Nothing;

impl Gain<Made, u64> for Nothing {
    ghost use base.Fml.{ftrue};

    ghost after = { λ names about answer. ftrue };
}

/// A step that adds a batch, and brings the word of its mark home.
pub(crate) struct Add;

impl Play<Made, u64> for Add {
    ghost use Rattle.shared_calls.specs.Lists.{Adds};

    ghost then = { Adds };
}

/// A step that gives a mark which no batch has.
pub(crate) struct Draw;

impl Play<Made, u64> for Draw {
    ghost use Rattle.shared_calls.specs.Lists.{Draws};

    ghost then = { Draws };
}

/// A step that changes nothing, with a right to a mark.
pub(crate) struct Look;

impl Play<Made, u64> for Look {
    ghost use Rattle.shared_calls.specs.Lists.{Looks};

    ghost then = { Looks };
}

/// Calls of a thread that are to be added.
#[derive(Drop)]
pub(crate) struct Asked<'a> {
    /// The thread that calls.
    pub(crate) thread: ObjectId,
    /// Its first call.
    pub(crate) call: &'a Call,
    /// Those after it.
    pub(crate) more: &'a [Call],
}

/// The same, with the right to their mark.
#[derive(Drop)]
pub(crate) struct Marked<'a> {
    /// The calls.
    pub(crate) asked: &'a Asked<'a>,
    /// The right to bring the word of the mark home.
    pub(crate) pen: &'a Pen,
}

impl<'a> Plain<Marked<'a>, Made, u64> for Add {
    ghost use Rattle.std.specs.Prelude.{◌∷◌, None};
    ghost use Rattle.shared_calls.specs.Lists.{made};

    ghost ask = { λ m. made m.pen.now.nib.key m.asked.now.thread (m.asked.now.call.now ∷ m.asked.now.more.now) };

    ghost state = { λ m. None };
}

impl Plain<(), Made, u64> for Draw {
    ghost use Rattle.std.specs.Prelude.{[], None};
    ghost use Rattle.shared_calls.specs.Lists.{made};

    ghost ask = { λ nothing. made 0 0 [] };

    ghost state = { λ nothing. None };
}

/// What stands at a place: a batch, and the list up to it.
#[derive(Drop)]
pub(crate) struct Entry {
    /// The thread that called.
    pub(crate) thread: ObjectId,
    /// Its first call.
    pub(crate) call: KeptCall,
    /// Those after it.
    pub(crate) more: Vec<KeptCall>,
    /// The list up to it.
    pub(crate) seen: Prefix,
}

/// What stands at a place is the list's batch of that number.
pub(crate) struct InPlace;

impl SlotRule<Entry> for InPlace {
    ghost use Rattle.shared_calls.specs.Rules.{Stands};

    ghost holds = { Stands };
}

/// A place of the list.
pub(crate) type Place = OnceSlot<Entry, InPlace>;

/// A number of a place in a list.
#[derive(Drop)]
pub(crate) struct Numbered<'a> {
    /// The number.
    pub(crate) number: usize,
    /// A beginning of the list.
    pub(crate) seen: &'a Prefix,
}

struct Named;

impl<'a> Names<Numbered<'a>> for Named {
    ghost use Rattle.std.specs.Prelude.{◌∷◌};
    ghost use Rattle.shared_calls.specs.Names.{name_of};

    ghost numbers = { λ p. p.number ∷ name_of p.seen.now.book };
}

/// What names a place.
pub(crate) fn tag_at(number: usize, seen: &Prefix) -> Tag
    ensures { result.numbers ≡ number ∷ name_of seen.now.book }
{
    Tag::of::<Numbered<'_>, Named>(&Numbered { number, seen })
}
