// The start, over parts that have their lengths: refusals 1, 2, 21 and 3, the first state and the initial pool.
ghost use Rattle.std.specs.Prelude.{◌≡◌};
ghost use Rattle.frames.specs.Frames.{first_free};
ghost use Rattle.semantics.specs.Entries.{whole_nodes, first_numbers, start_with};
ghost use Rattle.semantics.specs.Promises.{IsStart};
ghost use Rattle.engine.specs.Promises.{result_number, start_tests, tested};
ghost use Rattle.engine.specs.State.{SameParts};
ghost use Rattle.soundness.specs.Layout.{two_words};

use crate::numbers::put_numbers;
use crate::state::State;
use frames::{NONE, init_deques, init_frames};
use packed::{NODE_WORDS, init_pool};
use semantics::Refusal;
use sizes::tree_nodes;
use soundness::Numbers;

// 1, 2, 21 and 3, of the workers, the initial values, the table's places and the pool's whole nodes.
pub fn may_start(workers: u32, n: usize, places: usize, nodes: usize) -> Result<(), Refusal>
    ensures { result ≡ tested (start_tests workers n places nodes) }
{
    if (n == 0) | (n > 256) {
        return Err(Refusal::Values);
    }
    if (workers == 0) | (workers > 8) {
        return Err(Refusal::Workers);
    }
    if (places == 0) | (places > 256) {
        return Err(Refusal::Places);
    }
    if ((nodes as u64) < tree_nodes(n as u32)) | (nodes > 16384) {
        return Err(Refusal::Nodes);
    }
    Ok(())
}

// The pool's whole nodes.
pub fn whole_nodes(pool: &[u32]) -> usize
    ensures { result ≡ whole_nodes two_words pool.now }
{
    pool.len() / NODE_WORDS
}

// The first free place of a table with so many, after a start.
fn first_free(places: u32) -> u32
    ensures { result ≡ first_free places }
{
    if places == 1 { NONE } else { 1 }
}

// The numbers of the first state.
pub fn first_numbers(workers: u32, n: u32, nodes: u32, free_node: u32, places: u32) -> Numbers
    ensures { result ≡ first_numbers workers n nodes free_node places }
{
    Numbers {
        workers,
        splitters: n,
        nodes,
        free_node,
        free_place: first_free(places),
        places,
    }
}

// "a refused start hands out a state of zeros"
pub fn start_on(
    state: &mut State,
    workers: u32,
    values: &[u32],
    pool: &mut [u32],
) -> Result<(), Refusal>
    ensures same { SameParts state.old state.new }
    ensures starts { IsStart (start_with two_words workers values.now state.old.frames.now pool.old)
        state.new.numbers.now state.new.deques.now state.new.frames.now pool.new (result_number result) }
{
    let nodes = whole_nodes(pool);
    let refused = may_start(workers, values.len(), state.frames.len(), nodes);
    if refused.is_err() {
        state.clear();
        return refused;
    }
    let n = values.len() as u32;
    let nodes = nodes as u32;
    let places = state.frames.len() as u32;
    let free = init_pool(pool, n, nodes, values);
    init_deques(state.deques);
    init_frames(state.frames);
    put_numbers(
        state.numbers,
        first_numbers(workers, n, nodes, free, places),
    );
    Ok(())
}
