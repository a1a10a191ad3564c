// The live frames' trees are visited: each node reached is stamped, and the links to it are counted.
ghost use Rattle.std.specs.Prelude.{◌≡◌, ◌+◌, ◌*◌, ◌^◌, ◌<◌, min, length};
ghost use Rattle.pool_check.specs.Algorithm.{visit, below, Met, Roomy, DeadFrom, visit_places};
ghost use Rattle.sizes.specs.Sizes.{height};

use super::NodeLayout;
use frames::Frame;

// What comes of a link to a node.
#[derive(Clone, Copy, PartialEq, Eq)]
pub enum Arrival {
    // it must not be
    Refused,
    // nothing is left to do
    Done,
    // the node is visited for the first time, and has children
    First,
}

// A link to node i, which is to stand at this level over k splitters.
fn meet<L: NodeLayout>(
    pool: &[u32],
    work: &mut [u32],
    nodes: u32,
    level: u32,
    k: u32,
    i: u32,
) -> Arrival
    requires { Roomy L.reading nodes pool.now work.old level k }
    ensures { Met L.reading nodes pool.now level k i work.old work.new result }
{
    if i >= nodes {
        return Arrival::Refused;
    }
    let at = i as usize;
    let word = work[at];
    let stamp = 512 * level + k;
    if word != 0 {
        work[at] = word.wrapping_add(8192);
        return if word % 8192 == stamp {
            Arrival::Done
        } else {
            Arrival::Refused
        };
    }
    work[at] = stamp + 8192;
    if !L::is_shaped(pool, level, at) {
        return Arrival::Refused;
    }
    if level == 0 {
        Arrival::Done
    } else {
        Arrival::First
    }
}

// Of k splitters, those under the left child of a node of level l + 1.
fn left_part(k: u32, l: u32) -> u32
    requires { l < 32 }
    ensures { result ≡ min k (2 ^ l) }
{
    k.min(1 << l)
}

// A link to node i, which is to be a leaf over k splitters.
fn visit_leaf<L: NodeLayout>(pool: &[u32], work: &mut [u32], nodes: u32, k: u32, i: u32) -> bool
    requires { Roomy L.reading nodes pool.now work.old 0 k }
    ensures { (work.new ≡ (visit L.reading nodes pool.now 0 k i work.old).0)
        × (result ≡ (visit L.reading nodes pool.now 0 k i work.old).1) }
{
    match meet::<L>(pool, work, nodes, 0, k, i) {
        Arrival::Refused => false,
        Arrival::Done | Arrival::First => true,
    }
}

// The leaves below node i, which is visited for the first time, at level 1 over k splitters.
fn leaves<L: NodeLayout>(pool: &[u32], work: &mut [u32], nodes: u32, k: u32, i: u32) -> bool
    requires { Roomy L.reading nodes pool.now work.old 1 k × (i < nodes) }
    ensures { (work.new ≡ (below L.reading nodes pool.now 1 k i work.old).0)
        × (result ≡ (below L.reading nodes pool.now 1 k i work.old).1) }
{
    let part = left_part(k, 0);
    let left = L::left(pool, i as usize);
    if !visit_leaf::<L>(pool, work, nodes, part, left) {
        return false;
    }
    let right = L::right(pool, i as usize);
    let rest = k - part;
    if rest == 0 {
        return L::is_none(right);
    }
    visit_leaf::<L>(pool, work, nodes, rest, right)
}

// What is below node i, which is visited for the first time, at this level over k splitters.
fn walk<L: NodeLayout>(
    pool: &[u32],
    work: &mut [u32],
    nodes: u32,
    mut level: u32,
    mut k: u32,
    mut i: u32,
) -> bool
    requires { Roomy L.reading nodes pool.now work.old level k × (i < nodes) × (0 < level) }
    ensures { (work.new ≡ (below L.reading nodes pool.now level k i work.old).0)
        × (result ≡ (below L.reading nodes pool.now level k i work.old).1) }
{
    while level > 1 {
        level -= 1;
        let part = left_part(k, level);
        let left = L::left(pool, i as usize);
        let fine = match meet::<L>(pool, work, nodes, level, part, left) {
            Arrival::Refused => false,
            Arrival::Done => true,
            Arrival::First if level == 1 => leaves::<L>(pool, work, nodes, part, left),
            Arrival::First => walk::<L>(pool, work, nodes, level, part, left),
        };
        if !fine {
            return false;
        }
        let right = L::right(pool, i as usize);
        k -= part;
        if k == 0 {
            return L::is_none(right);
        }
        let arrival = meet::<L>(pool, work, nodes, level, k, right);
        if arrival != Arrival::First {
            return arrival == Arrival::Done;
        }
        i = right;
    }
    leaves::<L>(pool, work, nodes, k, i)
}

// A link to node i, which is to be the root of a tree of this level over k splitters.
fn visit<L: NodeLayout>(
    pool: &[u32],
    work: &mut [u32],
    nodes: u32,
    level: u32,
    k: u32,
    i: u32,
) -> bool
    requires { Roomy L.reading nodes pool.now work.old level k }
    ensures { (work.new ≡ (visit L.reading nodes pool.now level k i work.old).0)
        × (result ≡ (visit L.reading nodes pool.now level k i work.old).1) }
{
    match meet::<L>(pool, work, nodes, level, k, i) {
        Arrival::Refused => false,
        Arrival::Done => true,
        Arrival::First => walk::<L>(pool, work, nodes, level, k, i),
    }
}

// The trees of the live frames, all of them before place end.
pub fn visit_places<L: NodeLayout>(
    frames: &[Frame],
    pool: &[u32],
    work: &mut [u32],
    n: u32,
    nodes: u32,
    end: u32,
) -> bool
    requires { Roomy L.reading nodes pool.now work.old (height n) n × DeadFrom frames.now end }
    ensures { (work.new ≡ (visit_places L.reading n (height n) nodes frames.now pool.now (length frames.now) work.old).0)
        × (result ≡ (visit_places L.reading n (height n) nodes frames.now pool.now (length frames.now) work.old).1) }
{
    let height = sizes::height_of(n);
    for f in &frames[..end as usize] {
        if f.live == 1 && !visit::<L>(pool, work, nodes, height, n, f.root) {
            return false;
        }
    }
    true
}
