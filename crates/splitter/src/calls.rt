// The entries, over the state's lent parts: its numbers, its deques and its frame table. Numbers or deques of another length than they must have are
// refused first, by a number of their own, and nothing changes.
ghost use Rattle.std.specs.Prelude.{◌≡◌, min};
ghost use Rattle.sizes.specs.Sizes.{tree_nodes};
ghost use Rattle.model.specs.Record.{record_of, decode_at};
ghost use Rattle.semantics.specs.Entries.{start_on, outside_on, tape_on};
ghost use Rattle.image.specs.Image.{image_bytes};
ghost use Rattle.semantics.specs.Convert.{convert_on};
ghost use Rattle.semantics.specs.Images.{save_on, load_on};
ghost use Rattle.semantics.specs.Promises.{parts, lent, IsStart, IsOutside, IsTape, IsSave, IsLoad, IsReport, IsConvert};
ghost use Rattle.semantics.specs.Report.{report_on};
ghost use Rattle.engine.specs.Promises.{result_number};
ghost use Rattle.splitter.specs.OneRecord.{result_words};
ghost use Rattle.soundness.specs.Layout.{two_words};

use conversion::convert;
use engine::{load, save, start, tape};
use frames::Frame;
use semantics::Refusal;

// The number of a call's result: 0, or that of its refusal.
pub fn number_of(done: Result<(), Refusal>) -> u32
    ensures { result ≡ result_number done }
{
    match done {
        Ok(()) => 0,
        Err(refusal) => u32::from(refusal),
    }
}

pub fn splitter_start(
    numbers: &mut [u32],
    deques: &mut [u32],
    frames: &mut [Frame],
    workers: u32,
    values: &[u32],
    pool: &mut [u32],
) -> u32
    ensures { IsStart (start_on two_words (parts numbers.old deques.old frames.old) workers values.now pool.old)
        numbers.new deques.new frames.new pool.new result }
{
    number_of(start(numbers, deques, frames, workers, values, pool))
}

// A record for these numbers, the lowest byte of each first. One that its field cannot hold becomes the field's largest: it is refused alike.
pub fn record_of(kind: u32, worker: u32, field: u32, value: u32) -> [u8; 8]
    ensures { decode_at result 0 ≡ record_of (min kind 255) (min worker 255) (min field 65535) value }
{
    let [low, high] = (field.min(65535) as u16).to_le_bytes();
    let [first, second, third, fourth] = value.to_le_bytes();
    [
        kind.min(255) as u8,
        worker.min(255) as u8,
        low,
        high,
        first,
        second,
        third,
        fourth,
    ]
}

// The number that the tape was refused by, or both answer words, the first in the low half.
pub fn result_words(refused: u32, first: u32, second: u32) -> u64
    ensures { result ≡ result_words refused first second }
{
    if refused != 0 {
        return refused as u64;
    }
    first as u64 + 4294967296 * (second as u64)
}

// A step runs as a tape of one record.
pub fn splitter_step(
    numbers: &mut [u32],
    deques: &mut [u32],
    frames: &mut [Frame],
    pool: &mut [u32],
    work: &mut [u32],
    kind: u32,
    worker: u32,
    field: u32,
    value: u32,
) -> u64
    ensures { IsOutside (outside_on two_words (parts numbers.old deques.old frames.old) pool.old work.old (record_of kind worker field value))
        numbers.new deques.new frames.new pool.new work.new result }
{
    let bytes = record_of(kind, worker, field, value);
    let mut answers = [0u32; 2];
    let done = tape(numbers, deques, frames, pool, work, &bytes, &mut answers);
    result_words(number_of(done), answers[0], answers[1])
}

pub fn splitter_tape(
    numbers: &mut [u32],
    deques: &mut [u32],
    frames: &mut [Frame],
    pool: &mut [u32],
    work: &mut [u32],
    bytes: &[u8],
    answers: &mut [u32],
) -> u32
    ensures { IsTape (tape_on two_words (parts numbers.old deques.old frames.old) pool.old work.old bytes.now answers.old)
        numbers.new deques.new frames.new pool.new work.new answers.new result }
{
    number_of(tape(numbers, deques, frames, pool, work, bytes, answers))
}

// R-7: a start, a tape and the report of its work and span.
pub fn splitter_report(
    numbers: &mut [u32],
    deques: &mut [u32],
    frames: &mut [Frame],
    workers: u32,
    values: &[u32],
    pool: &mut [u32],
    work: &mut [u32],
    bytes: &[u8],
    answers: &mut [u32],
    clocks: &mut [u64],
    report: &mut [u64],
) -> u32
    ensures { IsReport (report_on two_words (parts numbers.old deques.old frames.old) workers values.now pool.old bytes.now
        (lent work.old answers.old clocks.old report.old))
        numbers.new deques.new frames.new pool.new work.new answers.new clocks.new report.new result }
{
    number_of(engine::report(
        numbers, deques, frames, workers, values, pool, work, bytes, answers, clocks, report,
    ))
}

// R-1: the state and its pool as an image in the front of the target.
pub fn splitter_save(
    numbers: &[u32],
    deques: &[u32],
    frames: &[Frame],
    pool: &[u32],
    work: &mut [u32],
    target: &mut [u8],
) -> u32
    ensures { IsSave (save_on two_words (parts numbers.now deques.now frames.now) pool.now work.old target.old)
        work.new target.new result }
{
    number_of(save(numbers, deques, frames, pool, work, target))
}

// R-1: an image back into a state and a pool.
pub fn splitter_load(
    numbers: &mut [u32],
    deques: &mut [u32],
    frames: &mut [Frame],
    pool: &mut [u32],
    work: &mut [u32],
    image: &[u8],
) -> u32
    ensures { IsLoad (load_on two_words (parts numbers.old deques.old frames.old) pool.old work.old image.now)
        numbers.new deques.new frames.new pool.new work.new result }
{
    number_of(load(numbers, deques, frames, pool, work, image))
}

// R-9: a pool of nodes of four words becomes one of nodes of two words, in the middle of a search.
pub fn splitter_convert(
    numbers: &[u32],
    deques: &[u32],
    frames: &[Frame],
    pool: &mut [u32],
    work: &mut [u32],
) -> u32
    ensures { IsConvert (convert_on (parts numbers.now deques.now frames.now) pool.old work.old)
        pool.new work.new result }
{
    number_of(convert(numbers, deques, frames, pool, work))
}

// The bytes of an image of so many places and nodes.
pub fn splitter_image_bytes(places: u32, nodes: u32) -> u64
    ensures { result ≡ image_bytes two_words places nodes }
{
    image::image_bytes(places, nodes)
}

// T(n).
pub fn splitter_tree_nodes(n: u32) -> u64
    ensures { result ≡ tree_nodes n }
{
    sizes::tree_nodes(n)
}
