// The deques in an image: for each worker its length and as many places as the table has.
ghost use Rattle.std.specs.Prelude.{◌≡◌, ◌+◌, ◌*◌, ◌≤◌, length, Ok};
ghost use Rattle.frames.specs.Widths.{deque_places};
ghost use Rattle.soundness.specs.Numbers.{number_count};
ghost use Rattle.image.specs.Widths.{block_bytes, deques_words};
ghost use Rattle.image.specs.Image.{blocks_for, deques_for, places_in, image_check, deques_in};
ghost use Rattle.image.specs.Inner.{put_words, sum_before};
ghost use Rattle.soundness.specs.Layout.{two_words};

use crate::NUMBER_COUNT;
use crate::read::read_words;
use crate::write::write_words;
use frames::{DEQUE_STRIDE, DEQUE_WORDS, MAX_WORKERS};

// Stores the deques as the data's words after the numbers, k places of each. Gives the sum for the words that follow.
pub fn write_deques(target: &mut [u8], deques: &[u32; DEQUE_WORDS], k: u32, before: u32) -> u32
    requires { (k ≤ deque_places) × (block_bytes * blocks_for (number_count + deques_words k) ≤ length target.old)
        × (before ≡ sum_before target.old number_count) }
    ensures { (target.new ≡ put_words target.old number_count (deques_for k deques.now))
        × (result ≡ sum_before target.new (number_count + deques_words k)) }
{
    let words = 1 + (k as usize);
    let mut sum = before;
    for w in 0..MAX_WORKERS as usize {
        let at = DEQUE_STRIDE * w;
        sum = write_words(
            target,
            NUMBER_COUNT + w * words,
            &deques[at..at + words],
            sum,
        );
    }
    sum
}

// Reads the deques, k places of each; the lent places past them become zero.
pub fn read_deques(image: &[u8], deques: &mut [u32; DEQUE_WORDS], k: u32)
    requires { (image_check two_words image.now ≡ (Ok tt)) × (k ≡ places_in image.now) × (k ≤ deque_places) }
    ensures { deques.new ≡ deques_in two_words image.now }
{
    deques.fill(0);
    let words = 1 + (k as usize);
    for w in 0..MAX_WORKERS as usize {
        let at = DEQUE_STRIDE * w;
        read_words(image, NUMBER_COUNT + w * words, &mut deques[at..at + words]);
    }
}
