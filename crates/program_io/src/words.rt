//! The words of the command line.
ghost use Rattle.std.specs.Prelude.{◌≡◌, ◌⊎◌, IfErr};
ghost use Rattle.program_io.specs.Faults.{status_of};

use crate::faults::Fault;
use crate::inputs::input_fault;
use std::env::Env;
use std::io::Write;

/// So many bytes of a word that is not UTF-8 are told.
const TOLD: usize = 4096;

/// Writes a byte of a word: what can be seen as it is, and else its hexadecimal digits behind a `\x`.
fn tell_byte<E: Write>(byte: u8, err: &mut E) {
    if byte >= b' ' && byte <= b'~' {
        let _ = err.write_all(&[byte]);
    } else {
        let _ = write!(err, "\\x{byte:02x}");
    }
}

/// Says in one line which word is not UTF-8.
fn tell_word<E: Write>(program: &str, word: &[u8], err: &mut E) {
    let _ = write!(err, "{program}: {}: ", Fault::Input.text());
    for byte in word {
        tell_byte(*byte, err);
    }
    let _ = writeln!(err, ": it is not UTF-8");
}

/// Says in one line which of the words is the first that is not UTF-8. The answer is the status of such a fault.
fn tell_words<R: Env, E: Write>(rt: &R, program: &str, err: &mut E) -> u8
    ensures { result ≡ status_of Fault.Input }
{
    let mut bytes = [0; TOLD];
    for place in 0..usize::MAX {
        let Ok(length) = rt.arg(place, &mut bytes) else {
            break;
        };
        let word = &bytes[..length];
        if std::str::from_utf8(word).is_err() {
            tell_word(program, word, err);
            return Fault::Input.status();
        }
    }
    Fault::Input.tell(program, err)
}

/// The words that the program was started with, its name first. A word that is not UTF-8 is a fault of the input. One line on `err`
/// tells each fault, and the error is the status that the program ends with.
pub fn words_of<R: Env + AllocGlobal, E: Write>(
    rt: &R,
    program: &str,
    err: &mut E,
) -> Result<Vec<String>, u8>
    ensures { IfErr result (λ status. (status ≡ status_of Fault.Input) ⊎ (status ≡ status_of Fault.Memory)) }
{
    let words = match std::env::args(rt) {
        Ok(words) => words,
        Err(error) => match input_fault(&error) {
            Fault::Memory => return Err(Fault::Memory.tell(program, err)),
            _ => return Err(tell_words(rt, program, err)),
        },
    };
    match words.collect(rt.alloc()) {
        Ok(words) => Ok(words),
        Err(_) => Err(Fault::Memory.tell(program, err)),
    }
}
