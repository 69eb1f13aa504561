// The words that a program is started with. Its name counts as word 0.
use std::env::{Env, FillError};

// No word that a program knows is longer.
const WORD_ROOM: usize = 32;

// Whether there is a word `i`.
pub fn has_word<V: Env>(env: &V, i: usize) -> bool {
    !matches!(env.arg(i, &mut []), Err(FillError::NotPresent))
}

// Whether word `i` is exactly this one.
pub fn is_word<V: Env>(env: &V, i: usize, word: &[u8]) -> bool {
    let mut space = [0u8; WORD_ROOM];
    match env.arg(i, &mut space) {
        Ok(length) => &space[..length] == word,
        Err(_) => false,
    }
}
