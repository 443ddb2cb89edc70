//! A script as a value.
//!
//! The arguments of all calls of a phase stand in one list, and a line keeps where its own begin. With a list for each line,
//! each line would have memory of its own, which a reader of the lines finds in no cache.
ghost use Rattle.std.specs.Prelude.{◌≡◌, map, length, slice_get};
ghost use Rattle.std.specs.Option.{option_map};
ghost use Rattle.std.specs.List.{AllByRecursion};
ghost use Rattle.call_text.specs.Phase.{line_in, IsKept};

use std::marker::Model;
use text_words::Name;
use text_words::spoken_calls::{Arg, SpokenCall, Verb};

/// A worker's call.
#[derive(Drop)]
pub struct Line<'a> {
    /// The line's place in the text, from 1. A line `--` takes a place too.
    pub number: u32,
    /// The name that is bound to what the call makes.
    pub binds: Option<Name>,
    /// The name of the worker that makes the call.
    pub worker: Name,
    /// Whether the worker's next line of the phase is of the same batch.
    pub more: bool,
    /// The call, as its words say it.
    pub call: SpokenCall<'a>,
}

/// A line whose call's arguments stand in the list of its phase.
#[derive(Clone, Copy)]
pub struct KeptLine {
    /// The line's place in the text, from 1.
    pub number: u32,
    /// The name that is bound to what the call makes.
    pub binds: Option<Name>,
    /// The name of the worker that makes the call.
    pub worker: Name,
    /// Whether the worker's next line of the phase is of the same batch.
    pub more: bool,
    /// The call's first word.
    pub verb: Verb,
    /// How many arguments stand in the list before the call's.
    pub first: usize,
}

/// Lines that are played at once. The arguments of all their calls stand in one list, those of a line one after another.
/// A contract sees the list of the lines.
#[derive(Drop)]
pub struct Phase {
    args: Vec<Arg>,
    lines: Vec<KeptLine>,
}

impl Model for Phase {
    ghost use Rattle.std.specs.Prelude.{List, map};
    ghost use Rattle.std.specs.List.{AllByRecursion};
    ghost use Rattle.call_text.specs.declared.phases.Line.{Line};
    ghost use Rattle.call_text.specs.Phase.{line_in, IsKept};

    ghost Value = { List Line };

    ghost view = { λ a. map (line_in a.args.items) a.lines.items };

    ghost invariant = { λ a. AllByRecursion (IsKept a.args.items) a.lines.items };
}

impl Phase {
    /// The phase of these lines, whose calls' arguments stand in the list.
    pub(crate) fn new(args: Vec<Arg>, lines: Vec<KeptLine>) -> Phase
        requires { AllByRecursion (IsKept args.items) lines.items }
        ensures { result ≡ map (line_in args.items) lines.items }
    {
        Phase { args, lines }
    }

    /// How many lines there are.
    pub fn len(&self) -> usize
        ensures { result ≡ length self.now }
    {
        self.lines.as_slice().len()
    }

    /// The name of the worker of the line at a place, as `line` has it.
    #[inline]
    pub fn worker(&self, place: usize) -> Option<Name>
        ensures { result ≡ option_map (λ l. l.worker) (slice_get self.now place) }
    {
        match self.lines.as_slice().get(place) {
            Some(kept) => Some(kept.worker),
            None => None,
        }
    }

    /// The line at a place, from 0, in the text's order.
    #[inline]
    pub fn line(&self, place: usize) -> Option<Line<'_>>
        ensures { result ≡ slice_get self.now place }
    {
        let Some(kept) = self.lines.as_slice().get(place) else {
            return None;
        };
        let (_, from) = self.args.as_slice().split_at(kept.first);
        let (args, _) = from.split_at(kept.verb.kinds().len());
        Some(Line {
            number: kept.number,
            binds: kept.binds,
            worker: kept.worker,
            more: kept.more,
            call: SpokenCall::new(kept.verb, args),
        })
    }
}

/// Phases that are played one after another: at least one, which may have no lines. A contract sees the list of the
/// phases, each the list of its lines.
#[derive(Drop)]
pub struct Script {
    /// The phases, in the text's order.
    pub phases: Vec<Phase>,
}

impl Model for Script {
    ghost use Rattle.std.specs.Prelude.{List};
    ghost use Rattle.call_text.specs.declared.phases.Line.{Line};

    ghost Value = { List (List Line) };

    ghost view = { λ a. a.phases.items };
}
