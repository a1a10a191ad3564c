// The check of a block.
ghost use Rattle.std.specs.Prelude.{◌≡◌, ◌+◌, ◌≤◌, length, take, drop};
ghost use Rattle.image.specs.Widths.{data_bytes};
ghost use Rattle.image.specs.Image.{check};

use crate::DATA_WORDS;
use crate::bytes::word_at;

// The check of the block at `at`: "sum it a word at a time, 127 words to a block".
pub fn block_check(image: &[u8], at: usize) -> u32
    requires { at + data_bytes ≤ length image.now }
    ensures { result ≡ check (take data_bytes (drop at image.now)) }
{
    let mut sum: u32 = 0;
    for j in 0..DATA_WORDS {
        sum = sum.wrapping_add(word_at(image, at + 4 * j));
    }
    sum
}
