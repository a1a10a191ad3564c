#![tactic(auto)]
// The library for hosts in C and Rust (host/include/splitter.h, host/rust): each export calls the function of the crate splitter of the same name, with the same
// clauses. Nothing is kept between calls, and no function asks anything of its caller.
ghost use Rattle.std.specs.Prelude.{◌≡◌};
ghost use Rattle.sizes.specs.Sizes.{tree_nodes};
ghost use Rattle.model.specs.Record.{record_of};
ghost use Rattle.semantics.specs.Entries.{start_on, outside_on, tape_on};
ghost use Rattle.image.specs.Image.{image_bytes};
ghost use Rattle.semantics.specs.Convert.{convert_on};
ghost use Rattle.semantics.specs.Images.{save_on, load_on};
ghost use Rattle.semantics.specs.Promises.{parts, lent, IsStart, IsOutside, IsTape, IsSave, IsLoad, IsReport, IsConvert};
ghost use Rattle.semantics.specs.Report.{report_on};
ghost use Rattle.soundness.specs.Layout.{two_words};
ghost use Rattle.splitter.specs.Queries.{free_on};

use frames::Frame;

#[unsafe(no_mangle)]
pub extern "C" fn splitter_start(
    numbers: &mut [u32],
    deques: &mut [u32],
    frames: &mut [Frame],
    workers: u32,
    values: &[u32],
    pool: &mut [u32],
) -> u32
    ensures { IsStart (start_on two_words (parts numbers.old deques.old frames.old) workers values.now pool.old)
        numbers.new deques.new frames.new pool.new result }
{
    splitter::splitter_start(numbers, deques, frames, workers, values, pool)
}

// A step runs as a tape of one record.
#[unsafe(no_mangle)]
pub extern "C" fn splitter_step(
    numbers: &mut [u32],
    deques: &mut [u32],
    frames: &mut [Frame],
    pool: &mut [u32],
    work: &mut [u32],
    kind: u32,
    worker: u32,
    field: u32,
    value: u32,
) -> u64
    ensures { IsOutside (outside_on two_words (parts numbers.old deques.old frames.old) pool.old work.old (record_of kind worker field value))
        numbers.new deques.new frames.new pool.new work.new result }
{
    splitter::splitter_step(
        numbers, deques, frames, pool, work, kind, worker, field, value,
    )
}

#[unsafe(no_mangle)]
pub extern "C" fn splitter_tape(
    numbers: &mut [u32],
    deques: &mut [u32],
    frames: &mut [Frame],
    pool: &mut [u32],
    work: &mut [u32],
    bytes: &[u8],
    answers: &mut [u32],
) -> u32
    ensures { IsTape (tape_on two_words (parts numbers.old deques.old frames.old) pool.old work.old bytes.now answers.old)
        numbers.new deques.new frames.new pool.new work.new answers.new result }
{
    splitter::splitter_tape(numbers, deques, frames, pool, work, bytes, answers)
}

// R-7: a start, a tape and the report of its work and span.
#[unsafe(no_mangle)]
pub extern "C" fn splitter_report(
    numbers: &mut [u32],
    deques: &mut [u32],
    frames: &mut [Frame],
    workers: u32,
    values: &[u32],
    pool: &mut [u32],
    work: &mut [u32],
    bytes: &[u8],
    answers: &mut [u32],
    clocks: &mut [u64],
    report: &mut [u64],
) -> u32
    ensures { IsReport (report_on two_words (parts numbers.old deques.old frames.old) workers values.now pool.old bytes.now
        (lent work.old answers.old clocks.old report.old))
        numbers.new deques.new frames.new pool.new work.new answers.new clocks.new report.new result }
{
    splitter::splitter_report(
        numbers, deques, frames, workers, values, pool, work, bytes, answers, clocks, report,
    )
}

// R-1: the state and its pool as an image in the front of the target.
#[unsafe(no_mangle)]
pub extern "C" fn splitter_save(
    numbers: &[u32],
    deques: &[u32],
    frames: &[Frame],
    pool: &[u32],
    work: &mut [u32],
    target: &mut [u8],
) -> u32
    ensures { IsSave (save_on two_words (parts numbers.now deques.now frames.now) pool.now work.old target.old)
        work.new target.new result }
{
    splitter::splitter_save(numbers, deques, frames, pool, work, target)
}

// R-1: an image back into a state and a pool.
#[unsafe(no_mangle)]
pub extern "C" fn splitter_load(
    numbers: &mut [u32],
    deques: &mut [u32],
    frames: &mut [Frame],
    pool: &mut [u32],
    work: &mut [u32],
    image: &[u8],
) -> u32
    ensures { IsLoad (load_on two_words (parts numbers.old deques.old frames.old) pool.old work.old image.now)
        numbers.new deques.new frames.new pool.new work.new result }
{
    splitter::splitter_load(numbers, deques, frames, pool, work, image)
}

// R-9: a pool of nodes of four words becomes one of nodes of two words, in the middle of a search.
#[unsafe(no_mangle)]
pub extern "C" fn splitter_convert(
    numbers: &[u32],
    deques: &[u32],
    frames: &[Frame],
    pool: &mut [u32],
    work: &mut [u32],
) -> u32
    ensures { IsConvert (convert_on (parts numbers.now deques.now frames.now) pool.old work.old)
        pool.new work.new result }
{
    splitter::splitter_convert(numbers, deques, frames, pool, work)
}

// The bytes of an image of so many places and nodes.
#[unsafe(no_mangle)]
pub extern "C" fn splitter_image_bytes(places: u32, nodes: u32) -> u64
    ensures { result ≡ image_bytes two_words places nodes }
{
    splitter::splitter_image_bytes(places, nodes)
}

// T(n).
#[unsafe(no_mangle)]
pub extern "C" fn splitter_tree_nodes(n: u32) -> u64
    ensures { result ≡ tree_nodes n }
{
    splitter::splitter_tree_nodes(n)
}

// The free nodes of a sound state, without a write.
#[unsafe(no_mangle)]
pub extern "C" fn splitter_free_nodes(numbers: &[u32], pool: &[u32]) -> u64
    ensures { result ≡ free_on numbers.now pool.now }
{
    splitter::splitter_free_nodes(numbers, pool)
}
