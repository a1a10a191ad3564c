// The start, the tape, and the lines that they print.
ghost use Rattle.std.specs.Prelude.{◌≡◌, cond, [], ◌+◌, ◌-◌, ◌*◌, ◌≤◌, length};
ghost use Rattle.soundness.specs.Numbers.{numbers_in, totals_in};
ghost use Rattle.soundness.specs.Soundness.{count_of_free};
ghost use Rattle.semantics.specs.Promises.{parts};
ghost use Rattle.lines.specs.Lines.{records_start, answer_lines, refused_line, free_line, main_returned, reduced_line, accepted_lines, run_lines, fit_lines};
ghost use Rattle.lines.specs.Output.{Writes, WritesUpTo, IsOutput};
ghost use Rattle.soundness.specs.Layout.{two_words};

use crate::input::{is_unfit, nodes_in, read_values, splitters_in, workers_in};
use crate::text::Output;
use frames::{DEQUE_WORDS, Frame};
use image::NUMBER_COUNT;
use packed::NODE_WORDS;
use splitter::{count_free, splitter_start, splitter_tape};
use words::at_or;

// The words of the state's numbers before the totals.
const HEAD_COUNT: usize = 5;

// The frame places that are lent.
const PLACES: usize = 64;

// What the calls are lent.
struct Memory<'a> {
    numbers: &'a mut [u32],
    deques: &'a mut [u32],
    frames: &'a mut [Frame],
    pool: &'a mut [u32],
    work: &'a mut [u32],
    answers: &'a mut [u32],
}

// "one line per record with its two answer words"
fn put_answers(output: &mut Output, answers: &[u32])
    ensures { Writes output.old (answer_lines answers.now) output.new }
{
    let (pairs, _) = answers.as_chunks::<2>();
    for pair in pairs {
        output.line(pair);
    }
}

// `refused` and the number.
fn put_refused(output: &mut Output, refusal: u32)
    ensures { WritesUpTo 19 output.old (refused_line refusal) output.new }
{
    output.bytes(b"refused ");
    output.line(&[refusal]);
}

// "a return of the run was answered with outcome 3"
fn main_returned(answers: &[u32]) -> bool
    ensures { result ≡ main_returned answers.now }
{
    let (pairs, _) = answers.as_chunks::<2>();
    pairs.contains(&[102, 3])
}

// R-5: `reduced` and the totals, once Main has returned.
fn put_reduced(output: &mut Output, answers: &[u32], numbers: &[u32])
    ensures { WritesUpTo 52 output.old (cond (main_returned answers.now) (reduced_line (totals_in numbers.now)) []) output.new }
{
    if !main_returned(answers) {
        return;
    }
    output.bytes(b"reduced ");
    output.line(&[
        at_or(numbers, HEAD_COUNT, 0),
        at_or(numbers, HEAD_COUNT + 1, 0),
        at_or(numbers, HEAD_COUNT + 2, 0),
        at_or(numbers, HEAD_COUNT + 3, 0),
    ]);
}

// `free` and the free nodes.
fn put_free(output: &mut Output, numbers: &[u32], pool: &[u32])
    ensures { WritesUpTo 19 output.old (free_line (count_of_free two_words (numbers_in numbers.now) pool.now)) output.new }
{
    let free = count_free(at_or(numbers, 2, 0), pool, at_or(numbers, 3, 0));
    output.bytes(b"free ");
    output.number(free);
    output.byte(b'\n');
}

// The lines of the answer words, "last `free` and the free nodes", and the totals.
fn put_accepted(output: &mut Output, answers: &[u32], numbers: &[u32], pool: &[u32])
    ensures { WritesUpTo (11 * length answers.now + 71) output.old
        (accepted_lines answers.now (count_of_free two_words (numbers_in numbers.now) pool.now) (totals_in numbers.now)) output.new }
{
    put_answers(output, answers);
    put_free(output, numbers, pool);
    put_reduced(output, answers, numbers);
}

// The lines of a start, then of the tape.
fn run(memory: Memory, workers: u32, values: &[u32], records: &[u8], output: &mut Output)
    ensures { WritesUpTo (11 * length memory.entry.answers.now + 71) output.old
        (run_lines (parts memory.entry.numbers.now memory.entry.deques.now memory.entry.frames.now) workers values.now
        memory.entry.pool.now memory.entry.work.now records.now memory.entry.answers.now) output.new }
{
    let Memory {
        numbers,
        deques,
        frames,
        pool,
        work,
        answers,
    } = memory;
    let refused = splitter_start(numbers, deques, frames, workers, values, pool);
    if refused != 0 {
        return put_refused(output, refused);
    }
    let refused = splitter_tape(numbers, deques, frames, pool, work, records, answers);
    if refused != 0 {
        return put_refused(output, refused);
    }
    put_accepted(output, answers, numbers, pool)
}

// The lines after the first, with parts of zeros (R-6: "splitrun lends 64 places."), the values of the input, and a pool, a work
// slice and answer words of the right lengths, all zero.
fn run_fit(input: &[u8], workers: u32, n: u32, nodes: u32, output: &mut Output)
    requires { (n ≤ 256) × (nodes ≤ 1024) × (records_start n ≤ length input.now) × (length input.now - records_start n ≤ 16384) }
    ensures { WritesUpTo 45127 output.old (fit_lines workers n nodes input.now) output.new }
{
    let mut values = [0u32; 256];
    let mut pool = [0u32; 2048];
    let mut work = [0u32; 1024];
    let mut answers = [0u32; 4096];
    let mut numbers = [0u32; NUMBER_COUNT];
    let mut deques = [0u32; DEQUE_WORDS];
    let mut frames = [Frame::free(0); PLACES];
    let count = n as usize;
    let room = nodes as usize;
    let size = NODE_WORDS * room;
    let records = &input[8 + 4 * count..];
    let answered = 2 * (records.len() / 8);
    let values = &mut values[..count];
    read_values(input, values);
    let memory = Memory {
        numbers: &mut numbers,
        deques: &mut deques,
        frames: &mut frames,
        pool: &mut pool[..size],
        work: &mut work[..room],
        answers: &mut answers[..answered],
    };
    run(memory, workers, values, records, output)
}

// The whole output of an input, in the bytes of `out`, as far as they fit. Gives the place after the last.
pub fn split_run(input: &[u8], out: &mut [u8]) -> usize
    ensures { IsOutput input.now out.old out.new result }
{
    let workers = workers_in(input);
    let n = splitters_in(input);
    let nodes = nodes_in(input);
    let mut output = Output::new(out);
    if is_unfit(input.len(), n, nodes) {
        output.bytes(b"unfit\n");
        return output.len();
    }
    output.line(&[workers, n, nodes]);
    run_fit(input, workers, n, nodes, &mut output);
    output.len()
}
