// How large an image is, and where its words stand.
ghost use Rattle.std.specs.Prelude.{◌≡◌, ◌<◌, ◌*◌, ◌^◌, min, ◌-◌, ◌%◌};
ghost use Rattle.image.specs.Widths.{data_words, deques_words, state_words, words_for};
ghost use Rattle.image.specs.Image.{blocks_for, image_bytes};
ghost use Rattle.image.specs.Inner.{place_of};
ghost use Rattle.soundness.specs.Layout.{two_words};

use crate::{BLOCK_BYTES, DATA_WORDS, NUMBER_COUNT};
use frames::{MAX_WORKERS, RECORD_WORDS};
use packed::NODE_WORDS;

// The words of the deques in an image of so many places.
pub fn deques_words(places: u32) -> usize
    ensures { (result ≡ deques_words places) × (result < 2 ^ 36) }
{
    (MAX_WORKERS as usize) * (1 + places as usize)
}

// The words of its state.
pub fn state_words(places: u32) -> usize
    ensures { (result ≡ state_words places) × (result < 2 ^ 37) }
{
    NUMBER_COUNT + deques_words(places) + RECORD_WORDS * (places as usize)
}

// The words of an image of so many places and nodes, in 64 bits.
pub fn words_for(places: u32, nodes: u32) -> usize
    ensures { (result ≡ words_for two_words places nodes) × (result < 2 ^ 37) }
{
    state_words(places) + NODE_WORDS * (nodes as usize)
}

// The blocks that so many words need. (The bound is what every image that two words of places and nodes call for keeps.)
pub fn blocks_for(words: usize) -> usize
    requires { words < 2 ^ 37 }
    ensures { result ≡ blocks_for words }
{
    (words + (DATA_WORDS - 1)) / DATA_WORDS
}

// The bytes of an image of so many places and nodes.
pub fn image_bytes(places: u32, nodes: u32) -> u64
    ensures { result ≡ image_bytes two_words places nodes }
{
    (BLOCK_BYTES * blocks_for(words_for(places, nodes))) as u64
}

// Where the word i of the data stands. (The bound is what the length of a slice gives.)
pub fn place_of(i: usize) -> usize
    requires { i < data_words * 2 ^ 55 }
    ensures { result ≡ place_of i }
{
    BLOCK_BYTES * (i / DATA_WORDS) + 4 * (i % DATA_WORDS)
}

// How many of the words that are left, from the word i of the data on, stand in its block.
pub fn run_length(i: usize, left: usize) -> usize
    ensures { result ≡ min left (data_words - i % data_words) }
{
    let room = DATA_WORDS - i % DATA_WORDS;
    if left < room { left } else { room }
}
