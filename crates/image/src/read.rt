// Reading the words of an image.
ghost use Rattle.std.specs.Prelude.{◌≡◌, ◌+◌, ◌*◌, ◌^◌, ◌<◌, ◌≤◌, length, Ok};
ghost use Rattle.std.proofs.lemmas.List.Edits.{sets};
ghost use Rattle.frames.specs.Widths.{max_places};
ghost use Rattle.image.specs.Widths.{node_words, block_bytes, data_words};
ghost use Rattle.image.specs.Image.{blocks_for, first_in, nodes_in, places_in, words_called, image_check, number_words_in, deques_in, frames_in, pool_in, Lengths, stored, IsRead};
ghost use Rattle.image.specs.Inner.{words_at, read_words};
ghost use Rattle.soundness.specs.Layout.{two_words};

use crate::bytes::{read_four, read_fours, read_run, word_at};
use crate::deques::read_deques;
use crate::records::read_record;
use crate::widths::{deques_words, place_of, run_length, state_words, words_for};
use crate::{BLOCK_BYTES, DATA_BYTES, DATA_WORDS, NUMBER_COUNT, VERSION_STEP};
use frames::{DEQUE_WORDS, Frame, RECORD_WORDS, put_frame};
use packed::NODE_WORDS;

// The first word, which tells the form.
pub fn first_in(image: &[u8]) -> u32
    requires { block_bytes ≤ length image.now }
    ensures { result ≡ first_in image.now }
{
    word_at(image, 0)
}

// The nodes that the first block records, in its third word.
pub fn nodes_in(image: &[u8]) -> u32
    requires { block_bytes ≤ length image.now }
    ensures { result ≡ nodes_in image.now }
{
    word_at(image, 8)
}

// The places that it records, in its tenth word.
pub fn places_in(image: &[u8]) -> u32
    requires { block_bytes ≤ length image.now }
    ensures { result ≡ places_in image.now }
{
    word_at(image, 36)
}

// The words that its first block calls for.
pub fn words_called(image: &[u8]) -> usize
    requires { block_bytes ≤ length image.now }
    ensures { (result ≡ words_called two_words image.now) × (result < 2 ^ 37) }
{
    let places = places_in(image);
    let nodes = nodes_in(image);
    words_for(places, nodes)
}

// Reads the 127 words of the block b into `to` from j on: 31 times four, and the last four, the first of which is there already.
fn read_block(image: &[u8], b: usize, to: &mut [u32], j: usize)
    requires { (block_bytes * (b + 1) ≤ length image.now) × (j + data_words ≤ length to.old) }
    ensures { to.new ≡ sets to.old j (words_at data_words image.now (block_bytes * b)) }
{
    let at = BLOCK_BYTES * b;
    read_fours(image, at, to, j, DATA_WORDS / 4);
    read_four(image, at + (DATA_BYTES - 16), to, j + (DATA_WORDS - 4));
}

// The same for n blocks.
fn read_blocks(image: &[u8], b: usize, to: &mut [u32], j: usize, n: usize)
    requires { (block_bytes * (b + n) ≤ length image.now) × (j + data_words * n ≤ length to.old) }
    ensures { to.new ≡ sets to.old j (read_words (data_words * n) image.now (data_words * b)) }
{
    for k in 0..n {
        read_block(image, b + k, to, j + DATA_WORDS * k);
    }
}

// Reads words of the data, from its word i on: the rest of a block, whole blocks, a block's beginning.
pub fn read_words(image: &[u8], i: usize, to: &mut [u32])
    requires { block_bytes * blocks_for (i + length to.old) ≤ length image.now }
    ensures { to.new ≡ read_words (length to.old) image.now i }
{
    let n = to.len();
    let first = run_length(i, n);
    read_run(image, place_of(i), to, 0, first);
    let blocks = (n - first) / DATA_WORDS;
    read_blocks(image, (i + first) / DATA_WORDS, to, first, blocks);
    let k = first + DATA_WORDS * blocks;
    read_run(image, place_of(i + k), to, k, n - k);
}

// Reads the numbers, the first one without the version.
fn read_numbers(image: &[u8], numbers: &mut [u32; NUMBER_COUNT])
    requires { image_check two_words image.now ≡ (Ok tt) }
    ensures { numbers.new ≡ number_words_in two_words image.now }
{
    read_words(image, 0, numbers);
    numbers[0] %= VERSION_STEP;
}

// Reads all but the frame table of an image that is not refused by 17 or 18 and records at most 256 places. Words of the pool past the nodes never change.
pub fn read_beside(
    image: &[u8],
    numbers: &mut [u32; NUMBER_COUNT],
    deques: &mut [u32; DEQUE_WORDS],
    pool: &mut [u32],
)
    requires { (image_check two_words image.now ≡ (Ok tt)) × (places_in image.now ≤ max_places) × (node_words * nodes_in image.now ≤ length pool.old) }
    ensures { (numbers.new ≡ number_words_in two_words image.now) × (deques.new ≡ deques_in two_words image.now)
        × (pool.new ≡ stored (pool_in two_words image.now) pool.old) }
{
    let places = places_in(image);
    let words = NODE_WORDS * nodes_in(image) as usize;
    read_numbers(image, numbers);
    read_deques(image, deques, places);
    read_words(image, state_words(places), &mut pool[..words]);
}

// Reads the records into a table of as many places.
pub fn read_table(image: &[u8], frames: &mut [Frame])
    requires { (image_check two_words image.now ≡ (Ok tt)) × (length frames.old ≡ places_in image.now) }
    ensures { frames.new ≡ frames_in two_words image.now }
{
    let places = places_in(image);
    let from = NUMBER_COUNT + deques_words(places);
    for p in 0..places {
        let f = read_record(image, from + RECORD_WORDS * (p as usize));
        put_frame(frames, p, f);
    }
}

// Reads an image that is not refused by 17 or 18 into the parts of a state, whose table has as many places as it records, and a pool that holds its
// nodes. Words past them never change.
pub fn read_parts(
    image: &[u8],
    numbers: &mut [u32; NUMBER_COUNT],
    deques: &mut [u32; DEQUE_WORDS],
    frames: &mut [Frame],
    pool: &mut [u32],
)
    requires { (image_check two_words image.now ≡ (Ok tt)) × Lengths (number_words_in two_words image.now) deques.old frames.old
        × (node_words * nodes_in image.now ≤ length pool.old) }
    ensures { IsRead two_words image.now numbers.new deques.new frames.new pool.old pool.new }
{
    read_beside(image, numbers, deques, pool);
    read_table(image, frames);
}
