#![tactic(auto)]
// The pool part of document 01's soundness, decided in linear time on any words: cycles, wild links, huge counts. A pool's nodes lie as a
// NodeLayout says: four words as in document 01 (FourWords), or two (R-8, crate packed_check).
// A contract is an equation with a definition of specs/; check_pool's holds on all words, and the functions below it require room for the
// nodes, which in_bounds tests first.
ghost use Rattle.std.specs.Prelude.{◌≡◌, cond, ◌*◌, ◌≤◌, length, None};
ghost use Rattle.soundness.specs.Soundness.{cleared};
ghost use Rattle.frames.specs.Widths.{max_places};
ghost use Rattle.pool_check.specs.Answer.{in_bounds, pool_checked};
ghost use Rattle.pool_check.specs.Algorithm.{DeadFrom, settle};

mod four_words;
mod free;
mod layout;
mod trees;
mod work;

pub use four_words::FourWords;
use frames::Frame;
use free::{follow_free, scan};
pub use layout::NodeLayout;
pub use trees::Arrival;
use trees::visit_places;
pub use work::clear;

// How many nodes are free, if nodes and free chain are right, when the trees are visited.
fn settle<L: NodeLayout>(pool: &[u32], work: &[u32], nodes: u32, first: u32) -> Option<u32>
    requires { (L.reading.layout.words * nodes ≤ length pool.now) × (nodes ≤ length work.now) }
    ensures { result ≡ settle L.reading nodes pool.now first work.now }
{
    let free = scan::<L>(pool, work, nodes)?;
    follow_free::<L>(pool, work, nodes, free, first).then_some(free)
}

// Are n and the recorded nodes small enough, and have pool and work slice room for them?
pub fn in_bounds<L: NodeLayout>(n: u32, nodes: u32, pool: &[u32], work: &[u32]) -> bool
    ensures { result ≡ in_bounds L.reading.layout n nodes pool.now work.now }
{
    let room = L::has_room(pool, nodes) & (nodes as usize <= work.len());
    (n <= 256) & ((nodes <= 16384) & room)
}

// The answer when the trees are visited, which are trees or not; the work slice is cleared again.
pub fn conclude<L: NodeLayout>(
    visited: bool,
    pool: &[u32],
    work: &mut [u32],
    nodes: u32,
    first: u32,
) -> Option<u32>
    requires { (L.reading.layout.words * nodes ≤ length pool.now) × (nodes ≤ length work.old) }
    ensures { (work.new ≡ cleared nodes work.old)
        × (result ≡ cond visited (settle L.reading nodes pool.now first work.old) None) }
{
    let free = if visited {
        settle::<L>(pool, work, nodes, first)
    } else {
        None
    };
    clear(work, nodes);
    free
}

// Is the pool sound, for n splitters and the live frames' trees, and how many nodes are free? The work slice's first words,
// one for each node, are zero afterwards. From place end on no frame lives.
pub fn check_pool<L: NodeLayout>(
    n: u32,
    nodes: u32,
    first: u32,
    end: u32,
    frames: &[Frame],
    pool: &[u32],
    work: &mut [u32],
) -> Option<u32>
    requires { (length frames.now ≤ max_places) × DeadFrom frames.now end }
    ensures { (work.new ≡ cleared nodes work.old)
        × (result ≡ pool_checked L.reading.layout n nodes first frames.now pool.now work.old) }
{
    clear(work, nodes);
    if !in_bounds::<L>(n, nodes, pool, work) {
        return None;
    }
    let visited = visit_places::<L>(frames, pool, work, n, nodes, end);
    conclude::<L>(visited, pool, work, nodes, first)
}
