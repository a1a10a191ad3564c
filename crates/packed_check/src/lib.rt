#![tactic(auto)]
// R-8: nodes of two words, holders and content, as the check of a pool reads them. A link is half of an inner node's content; that for
// none is no node's number, since there are 16,384 nodes at most.
ghost use Rattle.packed_check.specs.TwoWords.{halves};
ghost use Rattle.packed_check.specs.Theory.Halves.{half-answer};

use pool_check::NodeLayout;

// The half of a word for none.
const NO_LINK: u32 = 65535;

pub struct TwoWords;

impl NodeLayout for TwoWords {
    ghost reading = { halves };

    ghost answers = { half-answer };

    fn has_room(pool: &[u32], count: u32) -> bool {
        count as usize <= pool.len() / 2
    }

    fn left(pool: &[u32], i: usize) -> u32 {
        pool[2 * i + 1] % 65536
    }

    fn right(pool: &[u32], i: usize) -> u32 {
        pool[2 * i + 1] / 65536 % 65536
    }

    fn is_none(link: u32) -> bool {
        link == NO_LINK
    }

    fn holders(pool: &[u32], i: usize) -> u32 {
        pool[2 * i]
    }

    fn next_free(pool: &[u32], i: usize) -> u32 {
        pool[2 * i + 1]
    }

    // Leaves and inner nodes have the same words.
    fn is_shaped(_pool: &[u32], _level: u32, _i: usize) -> bool {
        true
    }

    // Any node that was not visited may be.
    fn is_vacant(_pool: &[u32], work: &[u32], i: usize) -> bool {
        work[i] == 0
    }
}
