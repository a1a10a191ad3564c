// What an image is refused for, on its bytes alone.
ghost use Rattle.std.specs.Prelude.{◌≡◌, ◌+◌, ◌*◌, ◌≤◌, length, take, drop, eqb};
ghost use Rattle.image.specs.Widths.{block_bytes, data_bytes};
ghost use Rattle.image.specs.Image.{check, word_at, words_called, blocks_called, checks_hold, all_zero, wrong_check, image_check};
ghost use Rattle.soundness.specs.Layout.{two_words};

use crate::bytes::word_at;
use crate::read::{first_in, words_called};
use crate::sums::block_check;
use crate::widths::blocks_for;
use crate::{BLOCK_BYTES, DATA_BYTES, DATA_WORDS, ImageError, VERSION, VERSION_STEP};

// Is the check of the block at `at` right?
fn block_right(image: &[u8], at: usize) -> bool
    requires { at + block_bytes ≤ length image.now }
    ensures { result ≡ eqb (word_at image.now (at + data_bytes)) (check (take data_bytes (drop at image.now))) }
{
    word_at(image, at + DATA_BYTES) == block_check(image, at)
}

// Are the checks of the first n blocks right?
fn checks_right(image: &[u8], n: usize) -> bool
    requires { block_bytes * n ≤ length image.now }
    ensures { result ≡ checks_hold n image.now }
{
    for k in 0..n {
        if !block_right(image, BLOCK_BYTES * k) {
            return false;
        }
    }
    true
}

// Are the n words from `at` on zero?
fn zeros(image: &[u8], at: usize, n: usize) -> bool
    requires { at + 4 * n ≤ length image.now }
    ensures { result ≡ all_zero (take (4 * n) (drop at image.now)) }
{
    for k in 0..n {
        if word_at(image, at + 4 * k) != 0 {
            return false;
        }
    }
    true
}

// Is a check wrong, or the rest of the last block not zero? The rest stands just before the last check.
fn wrong_check(image: &[u8], words: usize, blocks: usize) -> bool
    requires called { (words ≡ words_called two_words image.now) × (blocks ≡ blocks_called two_words image.now) }
    requires whole { length image.now ≡ block_bytes * blocks }
    ensures { result ≡ wrong_check two_words image.now }
{
    if !checks_right(image, blocks) {
        return true;
    }
    let rest = DATA_WORDS * blocks - words;
    !zeros(image, BLOCK_BYTES * blocks - 4 - 4 * rest, rest)
}

// 17, 18, or neither.
pub fn check_image(image: &[u8]) -> Result<(), ImageError>
    ensures { result ≡ image_check two_words image.now }
{
    if image.len() < BLOCK_BYTES {
        return Err(ImageError::WrongLength);
    }
    let first = first_in(image);
    if first < VERSION || first >= VERSION + VERSION_STEP {
        return Err(ImageError::WrongLength);
    }
    let words = words_called(image);
    let blocks = blocks_for(words);
    if image.len() != BLOCK_BYTES * blocks {
        return Err(ImageError::WrongLength);
    }
    if wrong_check(image, words, blocks) {
        return Err(ImageError::WrongCheck);
    }
    Ok(())
}
