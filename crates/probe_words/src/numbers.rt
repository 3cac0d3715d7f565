use crate::no_answer::NoAnswer;
use qm_io::List;
use std::alloc::Global;

/// The whole numbers of words with blanks between them.
pub fn wholes_of(alloc: Global, words: &str) -> Result<List<i64>, NoAnswer> {
    let mut values = List::new(alloc);
    for word in words.split(' ') {
        if !word.is_empty() {
            values.push(word.parse::<i64>().map_err(|_| NoAnswer::Spelling)?)?;
        }
    }
    Ok(values)
}
