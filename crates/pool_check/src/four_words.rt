// Nodes of four words: holders, left, right, value; a free node has the next one as its left link.
ghost use Rattle.pool_check.specs.FourWords.{four};
ghost use Rattle.pool_check.specs.Theory.Correct.{check-answer};

use super::NodeLayout;
use pool::NONE;

pub struct FourWords;

impl NodeLayout for FourWords {
    ghost reading = { four };

    ghost answers = { check-answer };

    fn has_room(pool: &[u32], count: u32) -> bool {
        count as usize <= pool.len() / 4
    }

    fn left(pool: &[u32], i: usize) -> u32 {
        pool[4 * i + 1]
    }

    fn right(pool: &[u32], i: usize) -> u32 {
        pool[4 * i + 2]
    }

    fn is_none(link: u32) -> bool {
        link == NONE
    }

    fn holders(pool: &[u32], i: usize) -> u32 {
        pool[4 * i]
    }

    fn next_free(pool: &[u32], i: usize) -> u32 {
        pool[4 * i + 1]
    }

    fn is_shaped(pool: &[u32], level: u32, i: usize) -> bool {
        if level != 0 {
            return pool[4 * i + 3] == 0;
        }
        if pool[4 * i + 1] != NONE {
            return false;
        }
        pool[4 * i + 2] == NONE
    }

    fn is_vacant(pool: &[u32], work: &[u32], i: usize) -> bool {
        (work[i] == 0) & ((pool[4 * i + 2] == 0) & (pool[4 * i + 3] == 0))
    }
}
