// The walk to a splitter's leaf, and a write: from the root down, nodes with one holder are altered where they are; from the first
// with more holders the rest of the path is new. No index is tested: the contracts ask that the nodes on the way are nodes.
ghost use Rattle.std.specs.Prelude.{◌≡◌, ◌*◌, ◌<◌, ◌≤◌, length};
ghost use Rattle.sizes.specs.Sizes.{bit};
ghost use Rattle.pool.specs.Links.{Link};
ghost use Rattle.packed.specs.Links.{PathIn, CopyIn, Finds, IsShared, WriteIn, Wrote};
ghost use Rattle.packed.specs.Pool.{link_in, child, sibling, read_at, set_value, set_link, path_node, copy_path, renew, first_shared, write};

use crate::found::{FirstShared, Shared};
use crate::node::{content_in, holders_in, link_of, links_in};
use crate::node_pool::{Free, Pool};

// What a write leaves: the free list, and the frame's root.
#[derive(Clone, Copy)]
pub struct Written {
    pub free: Free,
    pub root: u32,
}

// The child of node i of level l + 1 on the way to splitter x, in 16 bits.
#[tactic(auto, using(crate::proofs::Words::side_link), unfolding(crate::specs::Pool::child))]
fn child_in(pool: &[u32], nodes: u32, i: usize, l: u32, x: u32) -> usize
    requires { (2 * nodes ≤ length pool.now) × (i < nodes) × (l < 32) }
    ensures { link_in result ≡ child pool.now i (bit l x) }
{
    links_in(pool, nodes, i).toward(l, x) as usize
}

// ---- over any words that hold the nodes (a `Pool` has 16,384 nodes at most, and its words are lent to be changed)

// What the tree holds at splitter x. The walk meets nodes only, so no index is tested.
pub fn read_at(pool: &[u32], nodes: u32, height: u32, root: u32, x: u32) -> u32
    requires { (2 * nodes ≤ length pool.now) × (height ≤ 32) × PathIn nodes pool.now height root x }
    ensures { result ≡ read_at height pool.now root x }
{
    let mut i = root as usize;
    for l in (0..height).rev() {
        i = child_in(pool, nodes, i, l, x);
    }
    content_in(pool, nodes, i)
}

// The first node with more than one holder on the way to splitter x.
pub fn first_shared(pool: &[u32], nodes: u32, height: u32, root: u32, x: u32) -> FirstShared
    requires { (2 * nodes ≤ length pool.now) × (height ≤ 32) × PathIn nodes pool.now height root x }
    ensures { Finds height result (first_shared height pool.now root root x) }
{
    let mut node = root as usize;
    if holders_in(pool, nodes, node) > 1 {
        return FirstShared::Node(Shared {
            level: height,
            node: root,
            above: root,
        });
    }
    for level in (0..height).rev() {
        let above = node;
        node = child_in(pool, nodes, above, level, x);
        if holders_in(pool, nodes, node) > 1 {
            return FirstShared::Node(Shared {
                level,
                node: node as u32,
                above: above as u32,
            });
        }
    }
    FirstShared::Leaf(node as u32)
}

// Stores a leaf's value.
#[tactic(auto, unfolding(crate::specs::Pool::set_value, crate::specs::Pool::set_content))]
pub fn set_value(pool: &mut [u32], nodes: u32, i: u32, v: u32)
    requires { (2 * nodes ≤ length pool.old) × (i < nodes) }
    ensures { pool.new ≡ set_value pool.old i v }
{
    pool[2 * (i as usize) + 1] = v;
}

impl Pool<'_> {
    fn child(&self, i: usize, l: u32, x: u32) -> usize
        requires { (i < self.now.nodes) × (l < 32) }
        ensures { link_in result ≡ child self.now.words.now i (bit l x) }
    {
        child_in(self.words, self.nodes, i, l, x)
    }

    // What the tree holds at splitter x.
    pub fn read_at(&self, height: u32, root: u32, x: u32) -> u32
        requires { (height ≤ 32) × PathIn self.now.nodes self.now.words.now height root x }
        ensures { result ≡ read_at height self.now.words.now root x }
    {
        read_at(self.words, self.nodes, height, root, x)
    }

    // ---- the new path

    // The new path's node i of level l + 1: the next one on the way to x, and the old node's other child, which gains a holder.
    fn copy_node(&mut self, i: usize, old: usize, l: u32, x: u32, next: u32)
        requires { (i < self.old.nodes) × (old < self.old.nodes) × (l < 32) × (next < self.old.nodes)
            × Link self.old.nodes (sibling self.old.words.now old (bit l x)) }
        ensures words { self.new.words.now ≡ path_node self.old.words.now i (bit l x) next (sibling self.old.words.now old (bit l x)) }
        ensures nodes { self.new.nodes ≡ self.old.nodes }
        ensures same_reference { self.new.words.ghost_name ≡ self.old.words.ghost_name }
    {
        let links = self.links(old);
        self.store(i, 1, u32::from(links.relinked(l, x, next)));
        self.retain(link_of(links.beside(l, x)));
    }

    // The new path from this level down, beside the siblings of the old one, in nodes of the free list. Gives the next free node.
    fn copy_path(&mut self, level: u32, free: u32, old: u32, x: u32, v: u32) -> u32
        requires { (level ≤ 32) × CopyIn self.old.nodes level self.old.words.now free old x }
        ensures words { (self.new.words.now ≡ (copy_path level self.old.words.now free old x v).0)
            × (result ≡ (copy_path level self.old.words.now free old x v).1) }
        ensures nodes { self.new.nodes ≡ self.old.nodes }
        ensures same_reference { self.new.words.ghost_name ≡ self.old.words.ghost_name }
    {
        let mut i = free as usize;
        let mut from = old as usize;
        for l in (0..level).rev() {
            let next = self.content(i);
            let down = self.child(from, l, x);
            self.copy_node(i, from, l, x, next);
            i = next as usize;
            from = down;
        }
        let next = self.content(i);
        self.store(i, 1, v);
        next
    }

    // The new path in the place of a node with more holders, which has one less then. Gives the next free node.
    #[tactic(auto, using(crate::proofs::Writing::renew_by))]
    fn renew(&mut self, level: u32, free: u32, old: u32, x: u32, v: u32) -> u32
        requires { (level ≤ 32) × (old < self.old.nodes) × CopyIn self.old.nodes level self.old.words.now free old x }
        ensures words { (self.new.words.now ≡ (renew level self.old.words.now free old x v).0)
            × (result ≡ (renew level self.old.words.now free old x v).1) }
        ensures nodes { self.new.nodes ≡ self.old.nodes }
        ensures same_reference { self.new.words.ghost_name ≡ self.old.words.ghost_name }
    {
        let next = self.copy_path(level, free, old, x, v);
        let at = 2 * (old as usize);
        self.words[at] = self.words[at].saturating_sub(1);
        next
    }

    // Stores a leaf's value.
    pub fn set_value(&mut self, i: u32, v: u32)
        requires { i < self.old.nodes }
        ensures words { self.new.words.now ≡ set_value self.old.words.now i v }
        ensures nodes { self.new.nodes ≡ self.old.nodes }
        ensures same_reference { self.new.words.ghost_name ≡ self.old.words.ghost_name }
    {
        set_value(self.words, self.nodes, i, v);
    }

    // The link of node i of level l + 1 on the way to splitter x goes to node c.
    fn set_link(&mut self, i: u32, l: u32, x: u32, c: u32)
        requires { (i < self.old.nodes) × (l < 32) × (c < self.old.nodes) }
        ensures words { self.new.words.now ≡ set_link self.old.words.now i (bit l x) c }
        ensures nodes { self.new.nodes ≡ self.old.nodes }
        ensures same_reference { self.new.words.ghost_name ≡ self.old.words.ghost_name }
    {
        let links = self.links(i as usize).relinked(l, x, c);
        self.words[2 * (i as usize) + 1] = u32::from(links);
    }

    // ---- where a write takes nodes

    // The first node with more than one holder on the way to splitter x.
    pub fn first_shared(&self, height: u32, root: u32, x: u32) -> FirstShared
        requires { (height ≤ 32) × PathIn self.now.nodes self.now.words.now height root x }
        ensures { Finds height result (first_shared height self.now.words.now root root x) }
    {
        first_shared(self.words, self.nodes, height, root, x)
    }

    // Writes v at splitter x, where `found` is the first node with more than one holder on the way: the rest of the path is new, in
    // nodes of the free list, and the link to it, or the frame's root, goes there.
    pub fn write_shared(
        &mut self,
        height: u32,
        free: Free,
        root: u32,
        x: u32,
        v: u32,
        found: Shared,
    ) -> Written
        requires { (height ≤ 32) × (found.level < free.count)
            × IsShared height found (first_shared height self.old.words.now root root x)
            × WriteIn self.old.nodes height self.old.words.now free.first x (first_shared height self.old.words.now root root x) }
        ensures words { Wrote (write height self.old.words.now free.first free.count root x v)
            self.new.words.now result.free.first result.free.count result.root }
        ensures nodes { self.new.nodes ≡ self.old.nodes }
        ensures same_reference { self.new.words.ghost_name ≡ self.old.words.ghost_name }
    {
        let level = found.level;
        let first = self.renew(level, free.first, found.node, x, v);
        let left = Free {
            first,
            count: free.count - level - 1,
        };
        if level >= height {
            return Written {
                free: left,
                root: free.first,
            };
        }
        self.set_link(found.above, level, x, free.first);
        Written { free: left, root }
    }
}
