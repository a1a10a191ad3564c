#![tactic(auto)]
// Nodes of four words: the layout before R-8. Its definitions and theory are the reference (specs/); the code is crate packed's, and the check of
// such a pool is crate pool_check's.
pub use words::NONE;
