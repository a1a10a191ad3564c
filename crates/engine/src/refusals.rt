// Refusals 8 to 12, tested in the order of document 01. Whether all workers are idle is asked only on the way to a refusal.
ghost use Rattle.std.specs.Prelude.{◌≡◌, not, ◌||◌, ◌≤◌, eqb, ltb};
ghost use Rattle.words.specs.Basics.{all};
ghost use Rattle.frames.specs.Widths.{max_workers};
ghost use Rattle.frames.specs.Deques.{size};
ghost use Rattle.semantics.specs.Core.{steal_tests};
ghost use Rattle.semantics.specs.Ranges.{Ready};
ghost use Rattle.engine.specs.Promises.{tested};
ghost use Rattle.engine.specs.Run.{core_in, IsActing};

use crate::run::Run;
use frames::{DEQUE_WORDS, MAX_WORKERS, acting_place, size_at};
use semantics::Refusal;

// The place of the frame that a worker executes, and how many frames the worker has.
#[derive(Clone, Copy)]
pub struct Acting {
    pub place: u32,
    pub count: u32,
}

// Has every worker an empty deque? Those that do not exist have one, so all eight are asked.
fn all_idle(deques: &[u32; DEQUE_WORDS]) -> bool
    ensures { result ≡ all max_workers (λ w. eqb (size deques.now w) 0) }
{
    for w in (0..MAX_WORKERS).rev() {
        if size_at(deques, w) != 0 {
            return false;
        }
    }
    true
}

// Does v not exist, or has it fewer than two frames?
fn no_victim(workers: u32, deques: &[u32; DEQUE_WORDS], v: u32) -> bool
    requires { workers ≤ max_workers }
    ensures { result ≡ (not (ltb v workers) || ltb (size deques.now v) 2) }
{
    v >= workers || size_at(deques, v) < 2
}

impl Run<'_, '_> {
    // 8, 9 and 10, or the place of the frame that worker w executes, and how many it has.
    pub fn acting(&self, w: u32) -> Result<Acting, Refusal>
        requires { Ready (core_in self.now) }
        ensures { IsActing (core_in self.now) w result }
    {
        if w >= self.head.numbers.workers {
            return Err(Refusal::NoWorker);
        }
        let count = size_at(self.deques, w);
        if count != 0 {
            return Ok(Acting {
                place: acting_place(self.deques, w, count),
                count,
            });
        }
        if all_idle(self.deques) {
            return Err(Refusal::MainReturned);
        }
        Err(Refusal::WorkerIdle)
    }

    // 8, 9, 11 and 12, of a steal.
    pub fn may_steal(&self, w: u32, v: u32) -> Result<(), Refusal>
        requires { Ready (core_in self.now) }
        ensures { result ≡ tested (steal_tests (core_in self.now) w v) }
    {
        if w >= self.head.numbers.workers {
            return Err(Refusal::NoWorker);
        }
        if size_at(self.deques, w) != 0 {
            return Err(Refusal::ThiefBusy);
        }
        if !no_victim(self.head.numbers.workers, self.deques, v) {
            return Ok(());
        }
        if all_idle(self.deques) {
            return Err(Refusal::MainReturned);
        }
        Err(Refusal::NoVictim)
    }
}
