//! What a word may have been meant as that `histar` doesn't take.
use clap::Error;
use clap::error::ErrorKind;
use std::alloc::Global;
use std::io::Write;
use strsim::osa_distance;

/// The verbs.
const VERBS: [&str; 4] = ["run", "check", "try", "show"];
/// What `show` shows.
const VIEWS: [&str; 5] = ["why", "tree", "json", "dot", "page"];

/// Whether a word becomes another one where a letter of it is put, taken, changed, or changed with its neighbour.
fn is_near(alloc: Global, word: &str, other: &str) -> bool {
    match osa_distance(alloc, word, other) {
        Ok(distance) => distance <= 1,
        Err(_) => false,
    }
}

/// The words that a first word was meant as: a view stands after `show`, and a verb is one letter away.
fn meant_by(alloc: Global, word: &str) -> Option<(&'static str, &'static str)> {
    for view in VIEWS {
        if word == view {
            return Some(("show ", view));
        }
    }
    for verb in VERBS {
        if word != verb && is_near(alloc, word, verb) {
            return Some(("", verb));
        }
    }
    None
}

/// Whether `clap` says itself what may have been meant.
fn has_tip(alloc: Global, answer: &Error) -> bool {
    match format!(in alloc; "{answer}") {
        Ok(text) => text.as_str().contains("tip:"),
        Err(_) => false,
    }
}

/// Tells what the first word may have been meant as, where `clap` takes it as no verb and has no tip of its own.
pub fn tell_tip<E: Write>(alloc: Global, words: &[&str], answer: &Error, err: &mut E) {
    if answer.kind() != ErrorKind::InvalidSubcommand || has_tip(alloc, answer) {
        return;
    }
    let first = words.get(1).copied().unwrap_or("");
    if let Some((before, word)) = meant_by(alloc, first) {
        let _ = writeln!(err, "\n  tip: did you mean 'histar {before}{word}'?");
    }
}

/// Tells that `all` is a flag of `show why`, where it stands there as a word.
pub fn tell_flag<E: Write>(words: &[&str], answer: &Error, err: &mut E) {
    if answer.kind() == ErrorKind::ValueValidation && words.iter().any(|word| *word == "all") {
        let _ = writeln!(err, "\n  tip: did you mean '--all'?");
    }
}
