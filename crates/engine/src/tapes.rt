// A tape over the lent state: refusals 4, 5 and 6, then the records.
ghost use Rattle.std.specs.Prelude.{◌≡◌};
ghost use Rattle.semantics.specs.Entries.{tape_with, unfit_tape};
ghost use Rattle.semantics.specs.Promises.{IsTape};
ghost use Rattle.engine.specs.Promises.{result_number};
ghost use Rattle.engine.specs.State.{parts_in, SameParts};
ghost use Rattle.soundness.specs.Layout.{two_words};

use crate::checking::check_state;
use crate::runs::run_tape;
use crate::state::State;
use packed_check::TwoWords;
use semantics::Refusal;

// 4. "The tape is not a multiple of 8 bytes, or the answer slice has fewer than two words per record."
pub fn unfit_tape(bytes: &[u8], answers: &[u32]) -> bool
    ensures { result ≡ unfit_tape bytes.now answers.now }
{
    (bytes.len() % 8 != 0) | (answers.len() < 2 * (bytes.len() / 8))
}

// "a tape checks once"
pub fn tape_on(
    state: &mut State,
    pool: &mut [u32],
    work: &mut [u32],
    bytes: &[u8],
    answers: &mut [u32],
) -> Result<(), Refusal>
    ensures same { SameParts state.old state.new }
    ensures tapes { IsTape (tape_with two_words (parts_in state.old) pool.old work.old bytes.now answers.old)
        state.new.numbers.now state.new.deques.now state.new.frames.now pool.new work.new answers.new (result_number result) }
{
    if unfit_tape(bytes, answers) {
        return Err(Refusal::Tape);
    }
    if bytes.is_empty() {
        check_state::<TwoWords>(state.shared(), pool, work)?;
        return Ok(());
    }
    let free_count = check_state::<TwoWords>(state.shared(), pool, work)?;
    run_tape(
        state.numbers,
        state.deques,
        state.frames,
        pool,
        bytes,
        answers,
        free_count,
    );
    Ok(())
}
