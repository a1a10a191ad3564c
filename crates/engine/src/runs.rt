// The records of a tape over the lent parts of the state: a run begins with the numbers in their words, and its first free node and place go back to them.
ghost use Rattle.std.specs.Prelude.{◌≡◌, ℕ, ◌*◌, ◌/◌, ◌≤◌, length, get_or};
ghost use Rattle.semantics.specs.Entries.{core_of, records_result, records_of, run_on};
ghost use Rattle.semantics.specs.Promises.{parts};
ghost use Rattle.semantics.specs.Ranges.{Kept};
ghost use Rattle.semantics.specs.Timing.{timed_over};
ghost use Rattle.timing.specs.Turns.{timing};
ghost use Rattle.engine.specs.Promises.{IsRun};
ghost use Rattle.soundness.specs.Layout.{two_words};

use crate::numbers::{numbers_in, put_free};
use crate::records::record_count;
use crate::run::{Run, head_of};
use frames::{DEQUE_WORDS, Frame};
use image::NUMBER_COUNT;
use packed::Pool;
use timing::Tally;

// From a sound state with so many free nodes.
pub fn run_tape(
    numbers: &mut [u32; NUMBER_COUNT],
    deques: &mut [u32; DEQUE_WORDS],
    frames: &mut [Frame],
    pool: &mut [u32],
    tape: &[u8],
    answers: &mut [u32],
    free_count: u32,
)
    requires { Kept two_words (core_of (parts numbers.old deques.old frames.old) pool.old free_count) × (2 * (length tape.now / 8) ≤ length answers.old) }
    ensures { IsRun (run_on two_words (records_result (core_of (parts numbers.old deques.old frames.old) pool.old free_count) answers.old) 0 (records_of tape.now))
        numbers.new deques.new frames.new pool.new answers.new }
{
    let head = head_of(numbers_in(numbers), free_count);
    let mut pool = Pool {
        words: pool,
        nodes: head.numbers.nodes,
    };
    let mut run = Run {
        head,
        numbers,
        deques,
        frames,
        pool: &mut pool,
    };
    run.records(tape, answers, 0, record_count(tape));
    let last = run.head.numbers;
    put_free(run.numbers, last.free_node, last.free_place);
}

// The same, with clocks of 0.
pub fn run_timed(
    numbers: &mut [u32; NUMBER_COUNT],
    deques: &mut [u32; DEQUE_WORDS],
    frames: &mut [Frame],
    pool: &mut [u32],
    tape: &[u8],
    answers: &mut [u32],
    clocks: &mut [u64],
    free_count: u32,
) -> Tally
    requires { Kept two_words (core_of (parts numbers.old deques.old frames.old) pool.old free_count) × (2 * (length tape.now / 8) ≤ length answers.old)
        × (length clocks.old ≡ 2 * length frames.old) × ((j : ℕ) → get_or clocks.old j 0 ≤ 0) }
    ensures runs { IsRun (run_on two_words (records_result (core_of (parts numbers.old deques.old frames.old) pool.old free_count) answers.old) 0 (records_of tape.now))
        numbers.new deques.new frames.new pool.new answers.new }
    ensures times { timing clocks.new result.work result.span
        ≡ timed_over two_words (core_of (parts numbers.old deques.old frames.old) pool.old free_count) (records_of tape.now) (timing clocks.old 0 0) }
{
    let head = head_of(numbers_in(numbers), free_count);
    let mut pool = Pool {
        words: pool,
        nodes: head.numbers.nodes,
    };
    let mut run = Run {
        head,
        numbers,
        deques,
        frames,
        pool: &mut pool,
    };
    let t = run.turns(tape, answers, clocks);
    let last = run.head.numbers;
    put_free(run.numbers, last.free_node, last.free_place);
    t
}
