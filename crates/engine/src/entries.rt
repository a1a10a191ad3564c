// The start, the tape, the report, the save and the reading, on all inputs: a part of the state that has another length than it must have is refused first, by 99,
// and nothing changes.
ghost use Rattle.std.specs.Prelude.{◌≡◌, ◌&&◌, ◌*◌, eqb, length};
ghost use Rattle.semantics.specs.Entries.{start_on, tape_on};
ghost use Rattle.semantics.specs.Images.{save_on, load_on};
ghost use Rattle.semantics.specs.Promises.{parts, lent, IsStart, IsTape, IsSave, IsLoad, IsReport};
ghost use Rattle.semantics.specs.Report.{report_on};
ghost use Rattle.engine.specs.Promises.{result_number};
ghost use Rattle.soundness.specs.Layout.{two_words};

use crate::begin::start_on;
use crate::images::{load_on, save_on};
use crate::reporting::report_on;
use crate::state::State;
use crate::state_ref::StateRef;
use crate::tapes::tape_on;
use frames::Frame;
use semantics::Refusal;

pub fn start(
    numbers: &mut [u32],
    deques: &mut [u32],
    frames: &mut [Frame],
    workers: u32,
    values: &[u32],
    pool: &mut [u32],
) -> Result<(), Refusal>
    ensures { IsStart (start_on two_words (parts numbers.old deques.old frames.old) workers values.now pool.old)
        numbers.new deques.new frames.new pool.new (result_number result) }
{
    let numbers = numbers.as_mut_array().ok_or(Refusal::Lengths)?;
    let deques = deques.as_mut_array().ok_or(Refusal::Lengths)?;
    let mut state = State {
        numbers,
        deques,
        frames,
    };
    start_on(&mut state, workers, values, pool)
}

pub fn tape(
    numbers: &mut [u32],
    deques: &mut [u32],
    frames: &mut [Frame],
    pool: &mut [u32],
    work: &mut [u32],
    bytes: &[u8],
    answers: &mut [u32],
) -> Result<(), Refusal>
    ensures { IsTape (tape_on two_words (parts numbers.old deques.old frames.old) pool.old work.old bytes.now answers.old)
        numbers.new deques.new frames.new pool.new work.new answers.new (result_number result) }
{
    let numbers = numbers.as_mut_array().ok_or(Refusal::Lengths)?;
    let deques = deques.as_mut_array().ok_or(Refusal::Lengths)?;
    let mut state = State {
        numbers,
        deques,
        frames,
    };
    tape_on(&mut state, pool, work, bytes, answers)
}

// Have the clocks two words for each place, and the report four?
pub fn fit_report(frames: &[Frame], clocks: &[u64], report: &[u64]) -> bool
    ensures { result ≡ eqb (length clocks.now) (2 * length frames.now) && eqb (length report.now) 4 }
{
    (clocks.len() == 2 * frames.len()) & (report.len() == 4)
}

// R-7: a start, a tape and a report of its work and span.
pub fn report(
    numbers: &mut [u32],
    deques: &mut [u32],
    frames: &mut [Frame],
    workers: u32,
    values: &[u32],
    pool: &mut [u32],
    work: &mut [u32],
    bytes: &[u8],
    answers: &mut [u32],
    clocks: &mut [u64],
    report: &mut [u64],
) -> Result<(), Refusal>
    ensures { IsReport (report_on two_words (parts numbers.old deques.old frames.old) workers values.now pool.old bytes.now
        (lent work.old answers.old clocks.old report.old))
        numbers.new deques.new frames.new pool.new work.new answers.new clocks.new report.new (result_number result) }
{
    let numbers = numbers.as_mut_array().ok_or(Refusal::Lengths)?;
    let deques = deques.as_mut_array().ok_or(Refusal::Lengths)?;
    if !fit_report(frames, clocks, report) {
        return Err(Refusal::Lengths);
    }
    let mut state = State {
        numbers,
        deques,
        frames,
    };
    report_on(
        &mut state, workers, values, pool, work, bytes, answers, clocks, report,
    )
}

pub fn save(
    numbers: &[u32],
    deques: &[u32],
    frames: &[Frame],
    pool: &[u32],
    work: &mut [u32],
    target: &mut [u8],
) -> Result<(), Refusal>
    ensures { IsSave (save_on two_words (parts numbers.now deques.now frames.now) pool.now work.old target.old)
        work.new target.new (result_number result) }
{
    let numbers = numbers.as_array().ok_or(Refusal::Lengths)?;
    let deques = deques.as_array().ok_or(Refusal::Lengths)?;
    save_on(StateRef::new(numbers, deques, frames), pool, work, target)
}

pub fn load(
    numbers: &mut [u32],
    deques: &mut [u32],
    frames: &mut [Frame],
    pool: &mut [u32],
    work: &mut [u32],
    image: &[u8],
) -> Result<(), Refusal>
    ensures { IsLoad (load_on two_words (parts numbers.old deques.old frames.old) pool.old work.old image.now)
        numbers.new deques.new frames.new pool.new work.new (result_number result) }
{
    let numbers = numbers.as_mut_array().ok_or(Refusal::Lengths)?;
    let deques = deques.as_mut_array().ok_or(Refusal::Lengths)?;
    let mut state = State {
        numbers,
        deques,
        frames,
    };
    load_on(&mut state, pool, work, image)
}
