// What is to be answered.
use crate::brute::Levels;
use test_draws::slices::at;

// The first split at which the high entry is below the low one or above 1,000,000,000.
pub fn bad_entry(levels: &Levels, low: &[u64], high: &[u64]) -> Option<u64> {
    for (y, level) in levels.iter().enumerate() {
        let entry = at(high, y);
        if level.is_some() && (entry < at(low, y) || 1_000_000_000 < entry) {
            return Some(y as u64);
        }
    }
    None
}

// The first split, or 0.
pub fn first_split(levels: &Levels) -> u64 {
    levels.iter().position(|level| level.is_some()).unwrap_or(0) as u64
}

// How many splits there are.
pub fn splits(levels: &Levels) -> usize {
    levels.iter().filter(|level| level.is_some()).count()
}

// The mark of split k, counted from the first; 7 where there are no more.
fn mark_of(levels: &Levels, marks: &[bool; 8], k: usize) -> u64 {
    levels
        .iter()
        .zip(marks)
        .filter(|(level, _)| level.is_some())
        .nth(k)
        .map_or(7, |(_, mark)| u64::from(*mark))
}

// Are the answers the marks of the splits, with 7 in the cells after them?
pub fn alike(levels: &Levels, marks: &[bool; 8], answers: &[u64]) -> bool {
    answers
        .iter()
        .enumerate()
        .all(|(k, answer)| *answer == mark_of(levels, marks, k))
}
