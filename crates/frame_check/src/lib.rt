#![tactic(auto)]
// The frames and deques of document 01's soundness, decided on any records and words in time linear in the places.
mod deques;
mod links;
mod places;
mod tallies;

ghost use Rattle.std.specs.Prelude.{◌≡◌, ◌≤◌, cond, length, Some, None};
ghost use Rattle.frames.specs.Widths.{max_places};
ghost use Rattle.soundness.specs.Soundness.{frames_sound};
ghost use Rattle.frame_check.specs.Algorithm.{live_end};

use deques::{deques_fit, tally_deques};
use frames::{DEQUE_WORDS, Frame, MAX_PLACES};
use places::{follow_free, places_sound};
pub use tallies::Census;
use tallies::tally_children;

// Are frames and deques sound? One more than the last place where a frame lives, or 0; None if they are not. first is the first free place.
pub fn check_frames(
    workers: u32,
    first: u32,
    deques: &[u32; DEQUE_WORDS],
    frames: &[Frame],
) -> Option<u32>
    requires { length frames.now ≤ max_places }
    ensures { result ≡ cond (frames_sound workers first deques.now frames.now) (Some (live_end frames.now)) None }
{
    if !deques_fit(workers, frames.len(), deques) {
        return None;
    }
    let mut tallies = [0; MAX_PLACES as usize];
    let census = tally_children(&mut tallies, frames);
    let placed = tally_deques(&mut tallies, deques, frames);
    let free = (frames.len() as u32).saturating_sub(census.live);
    let chained = follow_free(frames, free, first);
    let sound = places_sound(frames, &tallies, census.end);
    (placed & chained & (census.mains <= 1) & sound).then_some(census.end)
}
