//! Words of a row.

/// A number, or 0.
pub fn number(word: &str) -> u32 {
    word.parse::<u32>().unwrap_or(0)
}

/// The number at a place among words, or 0.
pub fn number_at(words: &[&str], i: usize) -> u32 {
    match words.get(i) {
        Some(word) => number(word),
        None => 0,
    }
}
