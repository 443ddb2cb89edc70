//! `histar try`.
use base::Limits;
use program_io::Sink;
use std::io::{IsTerminal, Write};
use try_text::try_on;

/// Answers the lines of the standard input. Before each line it asks for it where the input is a terminal. The answer is the status.
pub fn ask<S: Sink, E: Write>(rt: &HostRuntime, limits: &Limits, out: &mut S, err: &mut E) -> u8 {
    let mut input = rt.reader();
    let is_asked = input.is_terminal();
    try_on(rt, limits, is_asked, &mut input, out, err)
}
