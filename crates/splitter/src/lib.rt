#![tactic(auto)]
// The entries of a host in C, Rust (host/include/splitter.h, host/rust) or Rattle: numbers, and lent slices of words, bytes
// and frame records. Nothing is kept between calls, and no function asks anything of its caller.
mod calls;
mod queries;

pub use calls::{
    splitter_convert, splitter_image_bytes, splitter_load, splitter_report, splitter_save,
    splitter_start, splitter_step, splitter_tape, splitter_tree_nodes,
};
pub use queries::{count_free, splitter_free_nodes};
