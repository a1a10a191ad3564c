// A node's two words: holders, then the links, the value or the next free node. What is past the end reads as 0 and is not stored.
ghost use Rattle.std.specs.Prelude.{◌≡◌, ◌*◌, ◌<◌, ◌≤◌, length};
ghost use Rattle.packed.specs.Pool.{refcount, content, half, link_in, links, left, right, next_free, set_node};

use crate::links::Links;
use crate::node_pool::Pool;
use words::{NONE, at_or, put};

// The words of a node.
pub const NODE_WORDS: usize = 2;

#[tactic(auto, unfolding(crate::specs::Pool::content))]
pub fn next_of(pool: &[u32], i: u32) -> u32
    ensures { result ≡ next_free pool.now i }
{
    at_or(pool, 2 * (i as usize) + 1, 0)
}

// A link in 16 bits.
fn half_of(i: u32) -> u32
    ensures { result ≡ half i }
{
    if i == NONE { 65535 } else { i }
}

// The link in these 16 bits.
pub fn link_of(h: u32) -> u32
    ensures { result ≡ link_in h }
{
    if h == 65535 { NONE } else { h }
}

// The second word of an inner node.
#[tactic(auto, using(crate::proofs::Words::packed_links))]
pub fn links_of(l: u32, r: u32) -> u32
    ensures { result ≡ links l r }
{
    half_of(l).wrapping_add(half_of(r) << 16)
}

#[tactic(auto, unfolding(crate::specs::Pool::set_node))]
pub fn set_node(pool: &mut [u32], i: u32, c: u32, w: u32)
    ensures { pool.new ≡ set_node pool.old i c w }
{
    let at = 2 * (i as usize);
    put(pool, at, c);
    put(pool, at + 1, w);
}

// ---- nodes in range, with no test

#[tactic(auto, unfolding(crate::specs::Pool::refcount))]
pub(crate) fn holders_in(pool: &[u32], nodes: u32, i: usize) -> u32
    requires { (2 * nodes ≤ length pool.now) × (i < nodes) }
    ensures { result ≡ refcount pool.now i }
{
    pool[2 * i]
}

// The second word.
#[tactic(auto, unfolding(crate::specs::Pool::content))]
pub(crate) fn content_in(pool: &[u32], nodes: u32, i: usize) -> u32
    requires { (2 * nodes ≤ length pool.now) × (i < nodes) }
    ensures { result ≡ content pool.now i }
{
    pool[2 * i + 1]
}

// Of an inner node.
#[tactic(auto, using(crate::proofs::Words::left_half, crate::proofs::Words::right_half))]
pub(crate) fn links_in(pool: &[u32], nodes: u32, i: usize) -> Links
    requires { (2 * nodes ≤ length pool.now) × (i < nodes) }
    ensures { (link_in result.left ≡ left pool.now i) × (link_in result.right ≡ right pool.now i) }
{
    Links::from(content_in(pool, nodes, i))
}

impl Pool<'_> {
    pub(crate) fn content(&self, i: usize) -> u32
        requires { i < self.now.nodes }
        ensures { result ≡ content self.now.words.now i }
    {
        content_in(self.words, self.nodes, i)
    }

    pub(crate) fn links(&self, i: usize) -> Links
        requires { i < self.now.nodes }
        ensures { (link_in result.left ≡ left self.now.words.now i) × (link_in result.right ≡ right self.now.words.now i) }
    {
        links_in(self.words, self.nodes, i)
    }

    #[tactic(auto, unfolding(crate::specs::Pool::set_node))]
    pub(crate) fn store(&mut self, i: usize, c: u32, w: u32)
        requires { i < self.old.nodes }
        ensures words { self.new.words.now ≡ set_node self.old.words.now i c w }
        ensures nodes { self.new.nodes ≡ self.old.nodes }
        ensures same_reference { self.new.words.ghost_name ≡ self.old.words.ghost_name }
    {
        let at = 2 * i;
        self.words[at] = c;
        self.words[at + 1] = w;
    }
}
