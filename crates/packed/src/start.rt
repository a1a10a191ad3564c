// The initial pool: the tree root first, level by level, left to right; the rest free in rising order.
ghost use Rattle.std.specs.Prelude.{◌≡◌, cond};
ghost use Rattle.words.specs.Basics.{none};
ghost use Rattle.packed.specs.Pool.{set_node, init_level, init_inner, init_leaves, init_free, init_pool};

use crate::node::{links_of, set_node};
use sizes::{height_of, width_of};
use words::{NONE, at_or};

// Node i where the test is true, else none.
fn node_if(test: bool, i: u32) -> u32
    ensures { result ≡ cond test i none }
{
    if test { i } else { NONE }
}

// `count` nodes of one level from `first` on; their children, `under` in all, begin at `lead`.
fn init_level(pool: &mut [u32], count: u32, first: u32, lead: u32, under: u32)
    ensures { pool.new ≡ init_level count pool.old first lead under }
{
    let mut below = lead;
    let mut k = under;
    for j in 0..count {
        let right = node_if(k > 1, below.wrapping_add(1));
        set_node(pool, first.wrapping_add(j), 1, links_of(below, right));
        below = below.wrapping_add(2);
        k = k.saturating_sub(2);
    }
}

// The levels above the leaves, from node `first` on. Gives the first leaf.
fn init_inner(pool: &mut [u32], height: u32, n: u32, first: u32) -> u32
    ensures { (pool.new ≡ (init_inner height pool.old n first).0)
        × (result ≡ (init_inner height pool.old n first).1) }
{
    let mut i = first;
    for l in (0..height).rev() {
        let count = width_of(n, l + 1);
        let below = i.wrapping_add(count);
        init_level(pool, count, i, below, width_of(n, l));
        i = below;
    }
    i
}

// The leaves from `first` on.
fn init_leaves(pool: &mut [u32], n: u32, first: u32, values: &[u32])
    ensures { pool.new ≡ init_leaves n pool.old first values.now 0 }
{
    for j in 0..n {
        set_node(pool, first.wrapping_add(j), 1, at_or(values, j as usize, 0));
    }
}

// The free list: `count` nodes from `first` on.
fn init_free(pool: &mut [u32], count: u32, first: u32)
    ensures { pool.new ≡ init_free count pool.old first }
{
    let mut i = first;
    for left in (0..count).rev() {
        let next = i.wrapping_add(1);
        set_node(pool, i, 0, node_if(left > 0, next));
        i = next;
    }
}

// The pool of `nodes` nodes for n splitters with these values. Gives the first free node.
pub fn init_pool(pool: &mut [u32], n: u32, nodes: u32, values: &[u32]) -> u32
    ensures { (pool.new ≡ (init_pool pool.old n nodes values.now).0)
        × (result ≡ (init_pool pool.old n nodes values.now).1) }
{
    let leaf = init_inner(pool, height_of(n), n, 0);
    init_leaves(pool, n, leaf, values);
    let i = leaf.wrapping_add(n);
    init_free(pool, nodes.saturating_sub(i), i);
    node_if(i < nodes, i)
}
