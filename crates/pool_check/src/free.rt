// The nodes when all trees are visited, and the free chain.
ghost use Rattle.std.specs.Prelude.{◌≡◌, cond, ◌+◌, ◌*◌, ◌≤◌, ◌<◌, length, Some, None};
ghost use Rattle.words.specs.Basics.{all};
ghost use Rattle.pool_check.specs.Algorithm.{fresh, counted, node_right, unvisited, chain_from};
ghost use Rattle.pool_check.specs.Reading.{HasNode};

use super::NodeLayout;
use pool::NONE;

// 1 if node i was not visited, else 0.
fn is_fresh(work: &[u32], i: usize) -> u32
    requires { i < length work.now }
    ensures { result ≡ fresh work.now i }
{
    u32::from(work[i] == 0)
}

// The links counted to node i; none, if it was not visited.
fn counted(work: &[u32], i: usize) -> u32
    requires { i < length work.now }
    ensures { result ≡ counted work.now i }
{
    work[i] / 8192
}

// Are the links counted to node i its holders?
fn node_right<L: NodeLayout>(pool: &[u32], work: &[u32], i: usize) -> bool
    requires { HasNode L.reading pool.now i × (i < length work.now) }
    ensures { result ≡ node_right L.reading pool.now work.now i }
{
    L::holders(pool, i) == counted(work, i)
}

// How many nodes were not visited, if all nodes are right.
pub fn scan<L: NodeLayout>(pool: &[u32], work: &[u32], nodes: u32) -> Option<u32>
    requires { (L.reading.layout.words * nodes ≤ length pool.now) × (nodes ≤ length work.now) }
    ensures { result ≡ cond (all nodes (node_right L.reading pool.now work.now)) (Some (unvisited nodes work.now)) None }
{
    let mut free: u32 = 0;
    let mut right = true;
    for i in 0..nodes as usize {
        right &= node_right::<L>(pool, work, i);
        free += is_fresh(work, i);
    }
    right.then_some(free)
}

// Has the chain from node first on just so many nodes, all of them vacant? No node is on such a chain twice: it would not end.
pub fn follow_free<L: NodeLayout>(
    pool: &[u32],
    work: &[u32],
    nodes: u32,
    count: u32,
    first: u32,
) -> bool
    requires { (L.reading.layout.words * nodes ≤ length pool.now) × (nodes ≤ length work.now) }
    ensures { result ≡ chain_from L.reading nodes pool.now work.now count first }
{
    let mut a = first;
    for _ in 0..count {
        if a >= nodes {
            return false;
        }
        let at = a as usize;
        if !L::is_vacant(pool, work, at) {
            return false;
        }
        a = L::next_free(pool, at);
    }
    a == NONE
}
