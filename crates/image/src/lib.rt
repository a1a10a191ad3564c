#![tactic(auto)]
// A state and a pool as blocks of bytes, and back: document 02, R-1 and R-3 to R-6. The state's parts are lent and have their exact lengths, so no
// function tests an index.
mod accept;
mod bytes;
mod deques;
mod read;
mod records;
mod sums;
mod widths;
mod write;

pub use accept::check_image;
pub use read::{nodes_in, places_in, read_parts};
pub use widths::image_bytes;
pub use write::write_image;

// The words of a state's numbers: specs/Numbers.antt of crate soundness.
pub const NUMBER_COUNT: usize = 10;

// The widths of specs/Widths.antt; packed::NODE_WORDS is that of a node.
pub const BLOCK_BYTES: usize = 512;

pub const DATA_BYTES: usize = 508;

pub const DATA_WORDS: usize = 127;

pub const VERSION_STEP: u32 = 256;

pub const VERSION: u32 = 4 * VERSION_STEP;

// What an image is refused for, on its bytes alone.
#[derive(Clone, Copy, PartialEq, Eq)]
pub enum ImageError {
    // 17, "the image is not just as many whole blocks as its first block calls for, or has no whole block"; "A first word of no
    // readable form gives 17."
    WrongLength,
    // 18, "a check is wrong or the rest of the last block is not zero"
    WrongCheck,
}
