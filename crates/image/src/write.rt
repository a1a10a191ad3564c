// Saving, in one pass: the words are stored as bytes and summed as they are, and each block gets its check after its last word.
ghost use Rattle.std.specs.Prelude.{◌≡◌, ◌++◌, ◌+◌, ◌-◌, ◌*◌, ◌%◌, ◌^◌, ◌<◌, ◌≤◌, length, take, drop, replicate};
ghost use Rattle.frames.specs.Widths.{max_places, record_words};
ghost use Rattle.soundness.specs.Numbers.{number_count};
ghost use Rattle.image.specs.Widths.{node_words, block_bytes, data_words, deques_words, state_words};
ghost use Rattle.image.specs.Image.{node_count, place_count, versioned, deques_for, table_words, blocks_for, image_of, image_bytes, Lengths, stored};
ghost use Rattle.image.specs.Inner.{put_words, sum_before, last_words};
ghost use Rattle.soundness.specs.Layout.{two_words};

use crate::bytes::{put_run, put_word, put_zeros};
use crate::deques::write_deques;
use crate::records::words_of;
use crate::widths::{blocks_for, deques_words, place_of, run_length, state_words};
use crate::{BLOCK_BYTES, DATA_BYTES, DATA_WORDS, NUMBER_COUNT, VERSION};
use frames::{DEQUE_WORDS, Frame, RECORD_WORDS};
use packed::NODE_WORDS;

// Stores n words of `from`, from j on, as the data's words from i on, all in one block, whose words before them sum up to `before`. After
// the last word of a block stores its check. Gives the sum for the words that follow.
fn write_run(target: &mut [u8], i: usize, from: &[u32], j: usize, n: usize, before: u32) -> u32
    requires in_block { (i % data_words + n ≤ data_words) × (j + n ≤ length from.now) }
    requires room { block_bytes * blocks_for (i + n) ≤ length target.old }
    requires sum_so_far { before ≡ sum_before target.old i }
    ensures stored { target.new ≡ put_words target.old i (take n (drop j from.now)) }
    ensures sum_after { result ≡ sum_before target.new (i + n) }
{
    let at = place_of(i);
    let sum = put_run(target, at, from, j, n, before);
    if i % DATA_WORDS + n < DATA_WORDS {
        return sum;
    }
    put_word(target, at + 4 * n, sum);
    0
}

// Stores 127 words of `from`, from j on, as the data of the block b, and its check.
fn write_block(target: &mut [u8], b: usize, from: &[u32], j: usize)
    requires { (block_bytes * (b + 1) ≤ length target.old) × (j + data_words ≤ length from.now) }
    ensures { target.new ≡ put_words target.old (data_words * b) (take data_words (drop j from.now)) }
{
    let at = BLOCK_BYTES * b;
    let sum = put_run(target, at, from, j, DATA_WORDS, 0);
    put_word(target, at + DATA_BYTES, sum);
}

// The same for n blocks of `from`, from j on.
fn write_blocks(target: &mut [u8], b: usize, from: &[u32], j: usize, n: usize)
    requires { (block_bytes * (b + n) ≤ length target.old) × (j + data_words * n ≤ length from.now) }
    ensures { target.new ≡ put_words target.old (data_words * b) (take (data_words * n) (drop j from.now)) }
{
    for k in 0..n {
        write_block(target, b + k, from, j + DATA_WORDS * k);
    }
}

// Stores words as the data's words from i on: the rest of a block, whole blocks, a block's beginning. The sum of an open block is handed on.
pub fn write_words(target: &mut [u8], i: usize, from: &[u32], before: u32) -> u32
    requires room { block_bytes * blocks_for (i + length from.now) ≤ length target.old }
    requires sum_so_far { before ≡ sum_before target.old i }
    ensures stored { target.new ≡ put_words target.old i from.now }
    ensures sum_after { result ≡ sum_before target.new (i + length from.now) }
{
    let n = from.len();
    let first = run_length(i, n);
    let sum = write_run(target, i, from, 0, first, before);
    let blocks = (n - first) / DATA_WORDS;
    write_blocks(target, (i + first) / DATA_WORDS, from, first, blocks);
    let k = first + DATA_WORDS * blocks;
    write_run(target, i + k, from, k, n - k, sum)
}

// Stores the numbers, the first one with the version.
fn write_numbers(target: &mut [u8], numbers: &[u32; NUMBER_COUNT]) -> u32
    requires { block_bytes ≤ length target.old }
    ensures stored { target.new ≡ put_words target.old 0 (versioned two_words numbers.now) }
    ensures sum_after { result ≡ sum_before target.new number_count }
{
    let mut words = *numbers;
    words[0] = words[0].wrapping_add(VERSION);
    write_run(target, 0, &words, 0, NUMBER_COUNT, 0)
}

// Stores zeros from the data's word `end` on up to the end of the last block, and its check. Zeros add nothing to the sum.
fn write_rest(target: &mut [u8], end: usize, blocks: usize, sum: u32)
    requires { (end < 2 ^ 37) × (blocks ≡ blocks_for end) × (block_bytes * blocks ≤ length target.old) × (sum ≡ sum_before target.old end) }
    ensures { target.new ≡ put_words target.old end (replicate (data_words * blocks - end) 0) }
{
    let rest = DATA_WORDS * blocks - end;
    if rest == 0 {
        return;
    }
    put_zeros(target, place_of(end), 4 * rest);
    put_word(target, BLOCK_BYTES * blocks - 4, sum);
}

// Stores what stands before the frame table: the numbers, and the deques with as many places as the numbers record. Gives the sum for the words that
// follow.
pub fn write_before(
    target: &mut [u8],
    numbers: &[u32; NUMBER_COUNT],
    deques: &[u32; DEQUE_WORDS],
) -> u32
    requires { (place_count numbers.now ≤ max_places)
        × (block_bytes * blocks_for (number_count + deques_words (place_count numbers.now)) ≤ length target.old) }
    ensures { (target.new ≡ put_words target.old 0 (versioned two_words numbers.now ++ deques_for (place_count numbers.now) deques.now))
        × (result ≡ sum_before target.new (number_count + deques_words (place_count numbers.now))) }
{
    let places = numbers[NUMBER_COUNT - 1];
    let after_numbers = write_numbers(target, numbers);
    write_deques(target, deques, places, after_numbers)
}

// Stores what stands after the frame table: the nodes, then zeros up to the end of the last block, and its check.
pub fn write_after(target: &mut [u8], numbers: &[u32; NUMBER_COUNT], pool: &[u32], sum: u32)
    requires { (node_words * node_count numbers.now ≤ length pool.now)
        × (image_bytes two_words (place_count numbers.now) (node_count numbers.now) ≤ length target.old)
        × (sum ≡ sum_before target.old (state_words (place_count numbers.now))) }
    ensures { target.new ≡ put_words target.old (state_words (place_count numbers.now))
        (last_words two_words (place_count numbers.now) (node_count numbers.now) pool.now) }
{
    let places = numbers[NUMBER_COUNT - 1];
    let nodes = numbers[2];
    let state = state_words(places);
    let words = NODE_WORDS * (nodes as usize);
    let after_pool = write_words(target, state, &pool[..words], sum);
    let blocks = blocks_for(state + words);
    write_rest(target, state + words, blocks, after_pool);
}

// Stores the records of the table as the data's words from i on. Gives the sum for the words that follow.
pub fn write_table(target: &mut [u8], i: usize, frames: &[Frame], before: u32) -> u32
    requires { (length frames.now ≤ max_places) × (block_bytes * blocks_for (i + record_words * length frames.now) ≤ length target.old)
        × (before ≡ sum_before target.old i) }
    ensures { (target.new ≡ put_words target.old i (table_words frames.now))
        × (result ≡ sum_before target.new (i + record_words * length frames.now)) }
{
    let mut sum = before;
    for (p, f) in frames.iter().enumerate() {
        sum = write_words(target, i + RECORD_WORDS * p, &words_of(f), sum);
    }
    sum
}

// Writes the image of a state and its pool into a target that holds it, in one pass. Bytes past it never change.
pub fn write_image(
    numbers: &[u32; NUMBER_COUNT],
    deques: &[u32; DEQUE_WORDS],
    frames: &[Frame],
    pool: &[u32],
    target: &mut [u8],
)
    requires { Lengths numbers.now deques.now frames.now × (node_words * node_count numbers.now ≤ length pool.now)
        × (image_bytes two_words (place_count numbers.now) (node_count numbers.now) ≤ length target.old) }
    ensures { target.new ≡ stored (image_of two_words numbers.now deques.now frames.now pool.now) target.old }
{
    let places = frames.len() as u32;
    let before = write_before(target, numbers, deques);
    let sum = write_table(target, NUMBER_COUNT + deques_words(places), frames, before);
    write_after(target, numbers, pool, sum);
}
