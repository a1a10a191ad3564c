#![tactic(auto)]
// R-9: the change-over of a sound state in the middle of a search, from a pool of four-word nodes to one of two-word nodes in the front of the same words.
// It asks nothing of its caller; its contract is an equation with a definition of the crate semantics.
ghost use Rattle.engine.specs.Promises.{result_number};
ghost use Rattle.engine.specs.State.{parts_at};
ghost use Rattle.semantics.specs.Convert.{convert_on, convert_with};
ghost use Rattle.semantics.specs.Promises.{parts, IsConvert};

mod pack;

use engine::{StateRef, check_state, numbers_in};
use frames::Frame;
use pack::pack_nodes;
use pool_check::FourWords;
use semantics::Refusal;

// "The call checks 5, then 6; a state refused so is left, and its pool too."
pub fn convert_on(state: StateRef, pool: &mut [u32], work: &mut [u32]) -> Result<(), Refusal>
    ensures { IsConvert (convert_with (parts_at state.entry) pool.old work.old)
        pool.new work.new (result_number result) }
{
    check_state::<FourWords>(state, pool, work)?;
    pack_nodes(pool, numbers_in(state.numbers).nodes);
    Ok(())
}

// A part of the state that has another length than it must have is refused first, by 99, and nothing changes.
pub fn convert(
    numbers: &[u32],
    deques: &[u32],
    frames: &[Frame],
    pool: &mut [u32],
    work: &mut [u32],
) -> Result<(), Refusal>
    ensures { IsConvert (convert_on (parts numbers.now deques.now frames.now) pool.old work.old)
        pool.new work.new (result_number result) }
{
    let numbers = numbers.as_array().ok_or(Refusal::Lengths)?;
    let deques = deques.as_array().ok_or(Refusal::Lengths)?;
    convert_on(StateRef::new(numbers, deques, frames), pool, work)
}
