// Nodes of four words turned into nodes of two words, in the front of the same words.
ghost use Rattle.std.specs.Prelude.{◌≡◌, cond, ◌*◌, ◌<◌, ◌≤◌, eqb, length};
ghost use Rattle.words.specs.Basics.{none};
ghost use Rattle.packed.specs.Pool.{links};
ghost use Rattle.packed.specs.Pack.{converted};
ghost use Rattle.conversion.specs.Promises.{node_packed};

use packed::{NODE_WORDS, NONE, links_of};

// The words of a node before R-8.
pub const OLD_NODE_WORDS: usize = 4;

// The second of a node's two words, from its four: the next of a free node, the value of a leaf, the links of an inner node.
pub fn packed_content(holders: u32, left: u32, right: u32, value: u32) -> u32
    ensures { result ≡ cond (eqb holders 0) left (cond (eqb left none) value (links left right)) }
{
    if holders == 0 {
        return left;
    }
    if left == NONE {
        return value;
    }
    links_of(left, right)
}

// Node i: its four words are zero before its two words are stored, which stand before them, or first among them if i is 0.
pub fn pack_node(pool: &mut [u32], nodes: u32, i: usize)
    requires { (4 * nodes ≤ length pool.old) × (i < nodes) }
    ensures { pool.new ≡ node_packed pool.old i }
{
    let from = OLD_NODE_WORDS * i;
    let holders = pool[from];
    let left = pool[from + 1];
    let right = pool[from + 2];
    let value = pool[from + 3];
    let content = packed_content(holders, left, right, value);
    pool[from] = 0;
    pool[from + 1] = 0;
    pool[from + 2] = 0;
    pool[from + 3] = 0;
    let to = NODE_WORDS * i;
    pool[to] = holders;
    pool[to + 1] = content;
}

// Front to back, so that each node is read before its words are overwritten.
pub fn pack_nodes(pool: &mut [u32], nodes: u32)
    requires { 4 * nodes ≤ length pool.old }
    ensures { pool.new ≡ converted nodes pool.old }
{
    for i in 0..nodes as usize {
        pack_node(pool, nodes, i);
    }
}
