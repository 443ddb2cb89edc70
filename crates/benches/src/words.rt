//! The words of the command line.

/// The number at a place among the words.
pub fn number_at(words: &[String], at: usize) -> Option<u64> {
    words.get(at)?.as_str().parse::<u64>().ok()
}

/// The size at a place among the words.
pub fn size_at(words: &[String], at: usize) -> Option<usize> {
    words.get(at)?.as_str().parse::<usize>().ok()
}
