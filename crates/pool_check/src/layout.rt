// What the check of a pool asks of a layout of nodes.
ghost use Rattle.std.specs.Prelude.{◌≡◌, ◌*◌, ◌<◌, eqb, leb, length};
ghost use Rattle.pool_check.specs.Reading.{Reading, HasNode};
ghost use Rattle.pool_check.specs.Algorithm.{Answers};

pub trait NodeLayout {
    ghost reading: { Reading };

    // Does the pool hold so many nodes?
    fn has_room(pool: &[u32], count: u32) -> bool
        ensures { result ≡ leb (reading.layout.words * count) (length pool.now) };

    // The links of node i.
    fn left(pool: &[u32], i: usize) -> u32
        requires { HasNode reading pool.now i }
        ensures { result ≡ reading.left pool.now i };

    fn right(pool: &[u32], i: usize) -> u32
        requires { HasNode reading pool.now i }
        ensures { result ≡ reading.right pool.now i };

    // Is a link that for none?
    fn is_none(link: u32) -> bool
        ensures { result ≡ eqb link reading.none };

    // The holders of node i.
    fn holders(pool: &[u32], i: usize) -> u32
        requires { HasNode reading pool.now i }
        ensures { result ≡ reading.holders pool.now i };

    // The node after node i on the free chain.
    fn next_free(pool: &[u32], i: usize) -> u32
        requires { HasNode reading pool.now i }
        ensures { result ≡ reading.next_free pool.now i };

    // Has node i what a node of this level has, its children aside?
    fn is_shaped(pool: &[u32], level: u32, i: usize) -> bool
        requires { HasNode reading pool.now i }
        ensures { result ≡ reading.shaped pool.now level i };

    // May node i be on the free chain?
    fn is_vacant(pool: &[u32], work: &[u32], i: usize) -> bool
        requires { HasNode reading pool.now i × (i < length work.now) }
        ensures { result ≡ reading.vacant pool.now work.now i };

    // What the check answers is soundness.
    ghost answers: { Answers reading };
}
