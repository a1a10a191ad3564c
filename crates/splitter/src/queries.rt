// What a host may ask of a state and its pool, which are only read.
ghost use Rattle.std.specs.Prelude.{◌≡◌, length};
ghost use Rattle.soundness.specs.PackedTrees.{free_nodes};
ghost use Rattle.splitter.specs.Queries.{free_on};

use image::NUMBER_COUNT;
use packed::{NODE_WORDS, NONE, next_of};

// The free nodes, counted along the chain, in at most one step more than there are nodes.
pub fn count_free(nodes: u32, pool: &[u32], first: u32) -> u64
    ensures { result ≡ length (free_nodes nodes pool.now first) }
{
    let most = nodes as u64 + 1;
    let mut node = first;
    for count in 0..most {
        if node == NONE {
            return count;
        }
        node = next_of(pool, node);
    }
    most
}

// The free nodes of a sound state, without a write.
pub fn splitter_free_nodes(numbers: &[u32], pool: &[u32]) -> u64
    ensures { result ≡ free_on numbers.now pool.now }
{
    if numbers.len() != NUMBER_COUNT {
        return 0;
    }
    if pool.len() / NODE_WORDS < numbers[2] as usize {
        return 0;
    }
    count_free(numbers[2], pool, numbers[3])
}
