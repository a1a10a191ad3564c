// Saving and reading an image, over parts of words that have their lengths and a table of any length: document 02's R-1, as R-6 changes it.
ghost use Rattle.std.specs.Prelude.{◌≡◌, cond, ◌&&◌, ◌*◌, ◌≤◌, eqb, leb, ltb, length, Ok, Err};
ghost use Rattle.frames.specs.Widths.{max_places};
ghost use Rattle.soundness.specs.Numbers.{numbers_in};
ghost use Rattle.soundness.specs.Soundness.{cleared};
ghost use Rattle.image.specs.Widths.{block_bytes};
ghost use Rattle.image.specs.Image.{image_bytes, image_check, nodes_in, places_in};
ghost use Rattle.semantics.specs.declared.Refusal.TheVariants.{Work, Target, Unsound};
ghost use Rattle.semantics.specs.Images.{records_zero, nodes_zero, save_with, load_read, load_with};
ghost use Rattle.semantics.specs.Promises.{IsSave, IsLoad};
ghost use Rattle.engine.specs.Promises.{result_number, IsRechecked, IsLoading};
ghost use Rattle.engine.specs.State.{parts_in, parts_at, SameParts};
ghost use Rattle.soundness.specs.Layout.{two_words};

use crate::checking::check_state;
use crate::numbers::numbers_in;
use crate::state::State;
use crate::state_ref::StateRef;
use frames::{Frame, MAX_PLACES, clear_frames};
use image::{NUMBER_COUNT, check_image, image_bytes, nodes_in, places_in, read_parts, write_image};
use packed::NODE_WORDS;
use packed_check::TwoWords;
use pool_check::clear;
use semantics::Refusal;

// 19, "the target is too short".
pub fn target_fits(numbers: &[u32; NUMBER_COUNT], target: &[u8]) -> Result<(), Refusal>
    ensures { result ≡ cond (ltb (length target.now) (image_bytes two_words (numbers_in numbers.now).places (numbers_in numbers.now).nodes)) (Err Target) (Ok tt) }
{
    let first = numbers_in(numbers);
    if (target.len() as u64) < image_bytes(first.places, first.nodes) {
        return Err(Refusal::Target);
    }
    Ok(())
}

// 5, 6, then 19.
pub fn save_on(
    state: StateRef,
    pool: &[u32],
    work: &mut [u32],
    target: &mut [u8],
) -> Result<(), Refusal>
    ensures { IsSave (save_with two_words (parts_at state.entry) pool.now work.old target.old)
        work.new target.new (result_number result) }
{
    check_state::<TwoWords>(state, pool, work)?;
    target_fits(state.numbers, target)?;
    write_image(state.numbers, state.deques, state.frames, pool, target);
    Ok(())
}

// 5, for an image of so many nodes.
pub fn work_fits(nodes: u32, work: &[u32]) -> Result<(), Refusal>
    ensures { result ≡ cond (ltb (length work.now) nodes) (Err Work) (Ok tt) }
{
    if (nodes as usize) > work.len() {
        return Err(Refusal::Work);
    }
    Ok(())
}

// Has the lent table just the image's places, not more than there can be, and the pool its nodes?
pub fn takes(image: &[u8], state: StateRef, pool: &[u32]) -> bool
    requires { block_bytes ≤ length image.now }
    ensures { result ≡ eqb (length state.entry.frames.now) (places_in image.now) && (leb (length state.entry.frames.now) max_places && leb (2 * nodes_in image.now) (length pool.now)) }
{
    let places = state.frames.len();
    let recorded = places_in(image) as usize;
    let nodes = nodes_in(image) as usize;
    (places == recorded) & ((places <= MAX_PLACES as usize) & (NODE_WORDS * nodes <= pool.len()))
}

// "6 when reading leaves every whole node of the pool zero"
pub fn clear_nodes(pool: &mut [u32])
    ensures { pool.new ≡ nodes_zero two_words pool.old }
{
    let nodes = pool.len() / NODE_WORDS;
    pool[..NODE_WORDS * nodes].fill(0);
}

// 6 when reading, by R-6 with "every record of the table zero too".
pub fn refuse_read(frames: &mut [Frame], pool: &mut [u32]) -> Result<(), Refusal>
    ensures { (result ≡ Err Unsound) × (frames.new ≡ records_zero frames.old) × (pool.new ≡ nodes_zero two_words pool.old) }
{
    clear_frames(frames);
    clear_nodes(pool);
    Err(Refusal::Unsound)
}

// The check of what was read: 6, if it is unsound.
pub fn check_read(state: &mut State, pool: &mut [u32], work: &mut [u32]) -> Result<(), Refusal>
    requires { (numbers_in state.old.numbers.now).nodes ≤ length work.old }
    ensures same { SameParts state.old state.new }
    ensures words { (state.new.numbers.now ≡ state.old.numbers.now) × (state.new.deques.now ≡ state.old.deques.now) }
    ensures checks { IsRechecked (parts_in state.old) pool.old work.old
        state.new.frames.now pool.new work.new (result_number result) }
{
    if check_state::<TwoWords>(state.shared(), pool, work).is_err() {
        return refuse_read(state.frames, pool);
    }
    Ok(())
}

// 6, for an image that 17, 18 and 5 do not refuse; numbers and deques are what was read, if nothing is refused.
pub fn read_good(
    state: &mut State,
    pool: &mut [u32],
    work: &mut [u32],
    image: &[u8],
) -> Result<(), Refusal>
    requires { (image_check two_words image.now ≡ Ok tt) × (nodes_in image.now ≤ length work.old) }
    ensures same { SameParts state.old state.new }
    ensures reads { IsLoading (load_read two_words state.old.frames.now pool.old (cleared (nodes_in image.now) work.old) image.now)
        state.new.numbers.now state.new.deques.now state.new.frames.now pool.new work.new (result_number result) }
{
    if !takes(image, state.shared(), pool) {
        clear(work, nodes_in(image));
        return refuse_read(state.frames, pool);
    }
    read_parts(image, state.numbers, state.deques, state.frames, pool);
    check_read(state, pool, work)
}

// 17, 18, 5, 6, the same.
pub fn read_image(
    state: &mut State,
    pool: &mut [u32],
    work: &mut [u32],
    image: &[u8],
) -> Result<(), Refusal>
    ensures same { SameParts state.old state.new }
    ensures reads { IsLoading (load_with two_words state.old.frames.now pool.old work.old image.now)
        state.new.numbers.now state.new.deques.now state.new.frames.now pool.new work.new (result_number result) }
{
    check_image(image)?;
    work_fits(nodes_in(image), work)?;
    read_good(state, pool, work, image)
}

// "A refused reading hands out a state of zeros."
pub fn load_on(
    state: &mut State,
    pool: &mut [u32],
    work: &mut [u32],
    image: &[u8],
) -> Result<(), Refusal>
    ensures same { SameParts state.old state.new }
    ensures loads { IsLoad (load_with two_words state.old.frames.now pool.old work.old image.now)
        state.new.numbers.now state.new.deques.now state.new.frames.now pool.new work.new (result_number result) }
{
    let result = read_image(state, pool, work, image);
    if result.is_err() {
        state.clear();
    }
    result
}
