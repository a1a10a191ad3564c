#![tactic(auto)]
// The pool of nodes of two words (R-8), in a lent slice of words. Each contract is an equation with a definition of
// specs/Pool.antt. A node's words, and the start, are total: what is past the end reads as 0 and is not stored. The operations
// ask that the nodes on the way are nodes (specs/Links.antt), so that no index is tested.
mod found;
mod links;
mod node;
mod node_pool;
mod refs;
mod start;
mod tree;

pub use found::{FirstShared, Shared};
pub use node::{NODE_WORDS, links_of, next_of};
pub use node_pool::{Free, Pool};
pub use refs::retain;
pub use start::init_pool;
pub use tree::{Written, first_shared, read_at, set_value};
pub use words::NONE;
