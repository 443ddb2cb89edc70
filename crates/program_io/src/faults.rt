//! Why a program ends without an answer.
ghost use Rattle.std.specs.Prelude.{◌≡◌};
ghost use Rattle.program_io.specs.Faults.{status_of, text_of};

use base::NoMemory;
use std::io::Write;

/// Why a program ends without an answer.
#[derive(Clone, Copy, PartialEq, Eq, Debug)]
pub enum Fault {
    /// What it reads, its words or its input, can't be had.
    Input,
    /// What it makes can't be written.
    Output,
    /// There was no memory.
    Memory,
}

impl From<NoMemory> for Fault {
    ghost use Rattle.program_io.specs.declared.faults.Fault.{Fault};

    ghost from_gives = { λ _ fault. fault ≡ Fault.Memory };

    fn from(_: NoMemory) -> Fault {
        Fault::Memory
    }
}

impl Fault {
    /// The status that the program ends with: 3 for its input and its output, 4 for want of memory.
    pub fn status(self) -> u8
        ensures { result ≡ status_of self }
    {
        match self {
            Fault::Input | Fault::Output => 3,
            Fault::Memory => 4,
        }
    }

    /// The fault in words.
    pub fn text(self) -> &'static str
        ensures { result.now ≡ text_of self }
    {
        match self {
            Fault::Input => "input fault",
            Fault::Output => "output fault",
            Fault::Memory => "out of memory",
        }
    }

    /// Tells the fault in one line that begins with the program's name, as `histar: out of memory`. The answer is the fault's
    /// status, whether it could be told or not.
    pub fn tell<E: Write>(self, program: &str, err: &mut E) -> u8
        ensures { result ≡ status_of self }
    {
        let _ = writeln!(err, "{program}: {}", self.text());
        self.status()
    }
}
