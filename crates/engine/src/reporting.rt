// R-7: "One call makes a start, runs one tape and makes the report", over the lent state.
ghost use Rattle.std.specs.Prelude.{◌≡◌, false, ◌*◌, length, Ok};
ghost use Rattle.semantics.specs.Entries.{chain_free, checked_state, tape_with, unfit_tape};
ghost use Rattle.semantics.specs.Promises.{lent, IsReport};
ghost use Rattle.semantics.specs.Report.{report_done, report_with, timing_of};
ghost use Rattle.engine.specs.Promises.{result_number, tested, report_tests};
ghost use Rattle.engine.specs.State.{parts_in, SameParts};
ghost use Rattle.soundness.specs.Layout.{two_words};

use crate::begin::{may_start, start_on, whole_nodes};
use crate::checking::check_state;
use crate::runs::run_timed;
use crate::state::State;
use crate::tapes::unfit_tape;
use packed_check::TwoWords;
use semantics::Refusal;
use timing::{clear_clocks, put_report};

// 1, 2, 21, 3, 4 and 5, "before anything changes".
pub fn may_report(
    workers: u32,
    values: &[u32],
    places: usize,
    pool: &[u32],
    work: &[u32],
    tape: &[u8],
    answers: &[u32],
) -> Result<(), Refusal>
    ensures { result ≡ tested (report_tests workers values.now places pool.now work.now tape.now answers.now) }
{
    let nodes = whole_nodes(pool);
    may_start(workers, values.len(), places, nodes)?;
    if unfit_tape(tape, answers) {
        return Err(Refusal::Tape);
    }
    if work.len() < nodes {
        return Err(Refusal::Work);
    }
    Ok(())
}

// The check, the tape and the report, from a state that was just started: the check finds it sound, and counts the free nodes.
pub fn report_run(
    state: &mut State,
    pool: &mut [u32],
    work: &mut [u32],
    tape: &[u8],
    answers: &mut [u32],
    clocks: &mut [u64],
    report: &mut [u64],
) -> Result<(), Refusal>
    requires { (checked_state two_words (parts_in state.old) pool.old work.old ≡ Ok (chain_free two_words (parts_in state.old) pool.old))
        × (unfit_tape tape.now answers.old ≡ false) × (length clocks.old ≡ 2 * length state.old.frames.now) × (length report.old ≡ 4) }
    ensures same { SameParts state.old state.new }
    ensures reports { IsReport (report_done (tape_with two_words (parts_in state.old) pool.old work.old tape.now answers.old)
        (timing_of two_words (parts_in state.old) pool.old tape.now clocks.old) report.old)
        state.new.numbers.now state.new.deques.now state.new.frames.now pool.new work.new answers.new clocks.new report.new (result_number result) }
{
    let free_count = check_state::<TwoWords>(state.shared(), pool, work).unwrap_or(0);
    clear_clocks(clocks);
    let t = run_timed(
        state.numbers,
        state.deques,
        state.frames,
        pool,
        tape,
        answers,
        clocks,
        free_count,
    );
    put_report(report, t)
}

// "refused so it hands out a state of zeros"
pub fn report_on(
    state: &mut State,
    workers: u32,
    values: &[u32],
    pool: &mut [u32],
    work: &mut [u32],
    tape: &[u8],
    answers: &mut [u32],
    clocks: &mut [u64],
    report: &mut [u64],
) -> Result<(), Refusal>
    requires { (length clocks.old ≡ 2 * length state.old.frames.now) × (length report.old ≡ 4) }
    ensures same { SameParts state.old state.new }
    ensures reports { IsReport (report_with two_words (parts_in state.old) workers values.now pool.old tape.now
        (lent work.old answers.old clocks.old report.old))
        state.new.numbers.now state.new.deques.now state.new.frames.now pool.new work.new answers.new clocks.new report.new (result_number result) }
{
    let refused = may_report(
        workers,
        values,
        state.frames.len(),
        pool,
        work,
        tape,
        answers,
    );
    if refused.is_err() {
        state.clear();
        return refused;
    }
    let _ = start_on(state, workers, values, pool);
    report_run(state, pool, work, tape, answers, clocks, report)
}
