// Reference counts: a node is freed when its last holder lets go. A half of a word that is no node is left alone, by one test.
ghost use Rattle.std.specs.Prelude.{◌≡◌, ◌*◌, ◌<◌, ◌≤◌, length};
ghost use Rattle.pool.specs.Links.{Link};
ghost use Rattle.packed.specs.Links.{LetGo, Released};
ghost use Rattle.packed.specs.Pool.{refcount, retain, release};

use crate::node_pool::{Free, Pool};
use words::NONE;

// One holder more; no node, no change. (Of any words that hold the nodes; a `Pool` has 16,384 nodes at most.)
#[tactic(auto, unfolding(crate::specs::Pool::retain, crate::specs::Pool::set_refcount, crate::specs::Pool::refcount))]
pub fn retain(pool: &mut [u32], nodes: u32, i: u32)
    requires { (2 * nodes ≤ length pool.old) × Link nodes i }
    ensures { pool.new ≡ retain pool.old i }
{
    if i != NONE {
        let at = 2 * (i as usize);
        pool[at] = pool[at].wrapping_add(1);
    }
}

impl Pool<'_> {
    // One holder more; no node, no change.
    pub fn retain(&mut self, i: u32)
        requires { Link self.old.nodes i }
        ensures words { self.new.words.now ≡ retain self.old.words.now i }
        ensures nodes { self.new.nodes ≡ self.old.nodes }
        ensures same_reference { self.new.words.ghost_name ≡ self.old.words.ghost_name }
    {
        retain(self.words, self.nodes, i);
    }

    // One holder less. True if it was the last: node i is then to be freed, and nothing is stored.
    #[tactic(auto, using(crate::proofs::Laws::release_none, crate::proofs::Laws::release_held), unfolding(crate::specs::Pool::refcount, crate::specs::Pool::set_refcount))]
    fn let_go(&mut self, i: u32) -> bool
        ensures words { LetGo result self.old.nodes self.old.words.now self.new.words.now i }
        ensures nodes { self.new.nodes ≡ self.old.nodes }
        ensures same_reference { self.new.words.ghost_name ≡ self.old.words.ghost_name }
    {
        if i >= self.nodes {
            return false;
        }
        let at = 2 * (i as usize);
        let c = self.words[at];
        if c > 1 {
            self.words[at] = c - 1;
            return false;
        }
        true
    }

    // Frees node i of this level, whose last holder let go, then releases its left link, then its right.
    fn free_tree(&mut self, free: Free, i: u32, level: u32) -> Free
        requires { (i < self.old.nodes) × (refcount self.old.words.now i ≤ 1) }
        ensures words { Released (release self.old.nodes level self.old.words.now free.first free.count i)
            self.new.words.now result.first result.count }
        ensures nodes { self.new.nodes ≡ self.old.nodes }
        ensures same_reference { self.new.words.ghost_name ≡ self.old.words.ghost_name }
    {
        let links = self.links(i as usize);
        self.store(i as usize, 0, free.first);
        let mut freed = Free {
            first: i,
            count: free.count.wrapping_add(1),
        };
        if level == 0 {
            return freed;
        }
        if self.let_go(links.left) {
            freed = self.free_tree(freed, links.left, level - 1);
        }
        if self.let_go(links.right) {
            return self.free_tree(freed, links.right, level - 1);
        }
        freed
    }

    // One holder less; a node with no holder left goes to the front of the free list, and its children lose a holder.
    pub fn release(&mut self, free: Free, i: u32, level: u32) -> Free
        ensures words { Released (release self.old.nodes level self.old.words.now free.first free.count i)
            self.new.words.now result.first result.count }
        ensures nodes { self.new.nodes ≡ self.old.nodes }
        ensures same_reference { self.new.words.ghost_name ≡ self.old.words.ghost_name }
    {
        if self.let_go(i) {
            self.free_tree(free, i, level)
        } else {
            free
        }
    }
}
