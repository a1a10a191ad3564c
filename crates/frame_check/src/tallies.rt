// How often each place stands somewhere, counted in a word for each place: two counts in one word, and above them what its children's links add up to.
ghost use Rattle.std.specs.Prelude.{◌≡◌, ◌≤◌, length};
ghost use Rattle.frames.specs.Widths.{max_places};
ghost use Rattle.frame_check.specs.Algorithm.{child_count, deque_count, link_sum, bump, step_of, with_live, child_tallied, counted, tally_children, census_to};

use frames::{Frame, MAX_PLACES};

// A word for each place that a table may have.
pub type Tallies = [u32; MAX_PLACES as usize];

// The steps in which a place's word counts its children, its places in deques, and its children's places less those that they name: specs/Algorithm.antt has
// why they are enough for 256 places.
const CHILD_STEP: u32 = 1;

pub const DEQUE_STEP: u32 = 1024;

const DEQUE_SPAN: u32 = 4096;

const LINK_STEP: u32 = DEQUE_STEP * DEQUE_SPAN;

// A place's word t taken apart: its live children, its places in deques, and what its children's links add up to.
pub fn child_count(t: u32) -> u32
    ensures { result ≡ child_count t }
{
    t % DEQUE_STEP
}

pub fn deque_count(t: u32) -> u32
    ensures { result ≡ deque_count t }
{
    t / DEQUE_STEP % DEQUE_SPAN
}

pub fn link_sum(t: u32) -> u32
    ensures { result ≡ link_sum t }
{
    t / LINK_STEP
}

// How many frames live, how many of them have depth 0, and one more than the last place where a frame lives, or 0.
#[derive(Clone, Copy, Default)]
pub struct Census {
    pub mains: u32,
    pub live: u32,
    pub end: u32,
}

impl Census {
    // With the live frame f at place p, which is past those counted.
    fn with_live(self, p: u32, f: &Frame) -> Census
        ensures { result ≡ with_live self p f.now }
    {
        Census {
            mains: self.mains.wrapping_add(u32::from(f.depth == 0)),
            live: self.live.wrapping_add(1),
            end: p.wrapping_add(1),
        }
    }
}

// One step more at p; past the end, nothing.
#[tactic(auto, unfolding(crate::specs::Algorithm::bump))]
pub fn bump(tallies: &mut Tallies, p: u32, step: u32)
    ensures { tallies.new ≡ bump step tallies.old p }
{
    let at = p as usize;
    if at < tallies.len() {
        tallies[at] = tallies[at].wrapping_add(step);
    }
}

// What the child at place c adds to its parent's word, whose next younger sibling is y.
fn step_of(c: u32, y: u32) -> u32
    ensures { result ≡ step_of c y }
{
    c.wrapping_sub(y)
        .wrapping_mul(LINK_STEP)
        .wrapping_add(CHILD_STEP)
}

// Counts the record f at place p, if a frame lives there, and its link at its parent's place.
fn tally_child(tallies: &mut Tallies, census: Census, p: u32, f: &Frame) -> Census
    ensures tallied { tallies.new ≡ child_tallied tallies.old p f.now }
    ensures counted { result ≡ counted census p f.now }
{
    if f.live != 1 {
        return census;
    }
    bump(tallies, f.parent, step_of(p, f.younger));
    census.with_live(p, f)
}

// Counts each place's live children and adds up their links; counts the live frames, and those of depth 0.
pub fn tally_children(tallies: &mut Tallies, frames: &[Frame]) -> Census
    requires { length frames.now ≤ max_places }
    ensures tallied { tallies.new ≡ tally_children frames.now tallies.old }
    ensures counted { result ≡ census_to frames.now (length frames.now) }
{
    let mut census = Census::default();
    for p in 0..frames.len() as u32 {
        census = tally_child(tallies, census, p, &frames[p as usize]);
    }
    census
}
