//! Numbers that words spell.

use life_cells::NoMemory;
use std::alloc::Global;

/// The numbers of the words; a word that is none is passed over.
pub fn numbers_of(alloc: Global, words: &[String]) -> Result<Vec<i32>, NoMemory> {
    let mut numbers = Vec::new(alloc);
    for word in words {
        if let Ok(number) = word.parse::<i32>() {
            numbers.push(number)?;
        }
    }
    Ok(numbers)
}
