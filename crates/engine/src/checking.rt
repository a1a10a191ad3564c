// Soundness, checked once a call, of a state whose pool has nodes of a layout L: numbers first, then frames and deques, then the pool.
ghost use Rattle.std.specs.Prelude.{◌≡◌, ◌||◌, List, eqb, length, get_or, ◌≤◌};
ghost use Rattle.words.specs.Basics.{all};
ghost use Rattle.frames.specs.declared.Frame.{Frame};
ghost use Rattle.soundness.specs.Numbers.{total_count, numbers_in, totals_in};
ghost use Rattle.soundness.specs.Soundness.{numbers_sound};
ghost use Rattle.engine.specs.State.{parts_at};
ghost use Rattle.engine.specs.Promises.{tables_checked, IsCheck};

use crate::numbers::{numbers_in, totals_zero};
use crate::state_ref::StateRef;
use frame_check::check_frames;
use frames::{DEQUE_WORDS, Frame};
use image::NUMBER_COUNT;
use pool_check::{NodeLayout, check_pool, clear};
use soundness::{CheckError, Numbers};

// With a table of so many places.
pub fn check_numbers<L: NodeLayout>(numbers: Numbers, places: usize, pool: &[u32]) -> bool
    ensures { (fs : List Frame) → length fs ≡ places → result ≡ numbers_sound L.reading.layout numbers fs pool.now }
{
    let table = (1 <= numbers.places)
        & ((numbers.places <= 256) & (places == numbers.places as usize));
    let pool_fits = L::has_room(pool, numbers.nodes) & table;
    let nodes = (sizes::tree_nodes(numbers.splitters) <= numbers.nodes as u64)
        & ((numbers.nodes <= 16384) & pool_fits);
    let splitters = (1 <= numbers.splitters) & ((numbers.splitters <= 256) & nodes);
    (1 <= numbers.workers) & ((numbers.workers <= 8) & splitters)
}

// R-5: the totals, "zero while Main lives"; end is one more than the last place where a frame lives, or 0.
pub fn totals_right(numbers: &[u32; NUMBER_COUNT], end: u32) -> bool
    ensures { result ≡ (eqb end 0 || all total_count (λ i. eqb (get_or (totals_in numbers.now) i 0) 0)) }
{
    end == 0 || totals_zero(numbers)
}

// All but totals and pool: if they are sound, one more than the last place where a frame lives, or 0.
#[inline(never)]
pub fn check_tables<L: NodeLayout>(
    numbers: Numbers,
    deques: &[u32; DEQUE_WORDS],
    frames: &[Frame],
    pool: &[u32],
) -> Option<u32>
    ensures { result ≡ tables_checked L.reading.layout numbers deques.now frames.now pool.now }
{
    if !check_numbers::<L>(numbers, frames.len(), pool) {
        return None;
    }
    check_frames(numbers.workers, numbers.free_place, deques, frames)
}

// What is left to check after the tables: the totals and the pool. It and check_tables are kept apart: the tallies of the one do not lie on the stack below the
// walks of the other.
#[inline(never)]
pub fn check_rest<L: NodeLayout>(
    state: StateRef,
    pool: &[u32],
    work: &mut [u32],
    tables: Option<u32>,
) -> Result<u32, CheckError>
    requires { ((numbers_in state.numbers.now).nodes ≤ length work.old)
        × (tables ≡ tables_checked L.reading.layout (numbers_in state.numbers.now) state.deques.now state.frames.now pool.now) }
    ensures { IsCheck L.reading.layout (parts_at state.entry) pool.now work.old work.new result }
{
    let n = numbers_in(state.numbers);
    let Some(end) = tables else {
        clear(work, n.nodes);
        return Err(CheckError::Unsound);
    };
    if !totals_right(state.numbers, end) {
        clear(work, n.nodes);
        return Err(CheckError::Unsound);
    }
    check_pool::<L>(
        n.splitters,
        n.nodes,
        n.free_node,
        end,
        state.frames,
        pool,
        work,
    )
    .ok_or(CheckError::Unsound)
}

// Are state and pool sound? The work slice's first words, one for each recorded node, are zero afterwards, unless it has fewer.
pub fn check_state<L: NodeLayout>(
    state: StateRef,
    pool: &[u32],
    work: &mut [u32],
) -> Result<u32, CheckError>
    ensures { IsCheck L.reading.layout (parts_at state.entry) pool.now work.old work.new result }
{
    let n = numbers_in(state.numbers);
    if work.len() < n.nodes as usize {
        return Err(CheckError::NoRoom);
    }
    let tables = check_tables::<L>(n, state.deques, state.frames, pool);
    check_rest::<L>(state, pool, work, tables)
}
