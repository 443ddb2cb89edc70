//! What stands in the log of a boot, and the rule of the log.
use base::ObjectId;
use kernel_rules::Call;
use kernel_rules::histories::Event;
use logbook::{Gain, Plain, Play, Rule};
use syscall_core::Kernel;

/// What stands in the log: an event is tried before there is room for it, and made once there is.
/// No value of it is made.
pub(crate) enum Entry {
    Tried(Event),
    Made,
}

/// The rule of the log: its first word is its weight.
pub(crate) struct Law;

impl Rule<Entry, u64> for Law {
    ghost use Rattle.std.specs.Prelude.{[]};
    ghost use base.Fml.{ftrue};
    ghost use Rattle.published_copy.specs.Rules.{IsKept};

    ghost holds = { λ cells log. IsKept cells log };

    ghost first = { [] };

    ghost hinted = { λ n log. Unit {0} };

    ghost shows = { λ log. [] };

    ghost keeps = { λ names log. ftrue };

    ghost moves = { λ ask before after answer. Unit {0} };
}

/// Callers of the log trade nothing.
pub(crate) struct Nothing;

impl Gain<Entry, u64> for Nothing {
    ghost use base.Fml.{ftrue};

    ghost after = { λ names about answer. ftrue };
}

/// A step that adds an entry.
pub(crate) struct Add;

impl Play<Entry, u64> for Add {
    ghost use Rattle.published_copy.specs.Rules.{Adds};

    ghost then = { Adds };
}

/// That what was tried last is made. (It stands for the entry that says so, since an entry is as
/// large as an event.)
pub(crate) struct Sealing;

impl Plain<Sealing, Entry, u64> for Add {
    ghost use Rattle.std.specs.Prelude.{None};
    ghost use Rattle.published_copy.specs.declared.entries.Entry.TheVariants.{Made};

    ghost ask = { λ _. Made };

    ghost state = { λ _. None };
}

/// A batch that is to be made to a kernel. The entry that tries it has the kernel's answers.
#[derive(Drop)]
pub(crate) struct Trial<'a> {
    /// The kernel, before the calls.
    pub(crate) kernel: &'a Kernel,
    /// The thread that calls.
    pub(crate) thread: ObjectId,
    /// Which of its thread's events the batch is.
    pub(crate) number: u64,
    /// The first call.
    pub(crate) call: &'a Call,
    /// The calls after it.
    pub(crate) more: &'a [Call],
}

impl<'a> Plain<Trial<'a>, Entry, u64> for Add {
    ghost use Rattle.std.specs.Prelude.{◌∷◌, None};
    ghost use Rattle.kernel_rules.specs.History.{answered};
    ghost use Rattle.syscall_core.specs.Kernel.{kernel_state};
    ghost use Rattle.published_copy.specs.Entries.{tried};

    ghost ask = { λ t. tried (record {
      thread = t.thread;
      number = t.number;
      calls = answered (kernel_state t.kernel.now) t.thread (t.call.now ∷ t.more.now);
    }) };

    ghost state = { λ t. None };
}

/// A step that looks how much the log weighs.
pub(crate) struct Look;

impl Play<Entry, u64> for Look {
    ghost use Rattle.published_copy.specs.Rules.{Looks};

    ghost then = { Looks };
}
