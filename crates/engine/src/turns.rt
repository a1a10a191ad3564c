// R-7: the records of a tape in turns, a record and the reads, writes and folds after it: these move no deque, so that their clocks are moved when the turn is done, and
// nothing of the clocks is on the way of a plain tape.
ghost use Rattle.std.specs.Prelude.{◌≡◌, ℕ, ◌+◌, ◌-◌, ◌*◌, ◌/◌, ◌≤◌, ◌<◌, length, get_or};
ghost use Rattle.semantics.specs.Entries.{records_result, records_from, records_of, run_on};
ghost use Rattle.semantics.specs.Ranges.{Kept};
ghost use Rattle.frames.specs.Frames.{frame_at};
ghost use Rattle.semantics.specs.Timing.{latest, rise, timed_over};
ghost use Rattle.timing.specs.Turns.{timing, kind_at};
ghost use Rattle.engine.specs.Run.{core_in, SameRun};
ghost use Rattle.soundness.specs.Layout.{two_words};

use crate::records::record_count;
use crate::run::Run;
use semantics::Rise;
use timing::{Tally, bottom_of, rise_of, time_data, time_first, turn_end};

impl Run<'_, '_> {
    // The ends that the record at i, of the frame at place p, begins if it is a return.
    fn rise(&self, clocks: &[u64], tape: &[u8], i: usize, p: u32) -> Rise
        requires { 8 * i + 8 ≤ length tape.now }
        ensures { kind_at tape.now i ≡ 2 → result ≡ rise (frame_at self.now.frames.now p).depth self.now.frames.now clocks.now p (latest clocks.now p) }
    {
        rise_of(clocks, self.frames, tape, i, p)
    }

    // The record at i and the reads, writes and folds after it, up to the record at `to`.
    pub fn turn(
        &mut self,
        tape: &[u8],
        answers: &mut [u32],
        clocks: &mut [u64],
        i: usize,
        to: usize,
        t: Tally,
    ) -> Tally
        requires { Kept two_words (core_in self.old) × (self.old.pool.now.nodes ≡ self.old.head.numbers.nodes) × (2 * (length tape.now / 8) ≤ length answers.old)
            × (i < to) × (to ≤ length tape.now / 8) × ((j : ℕ) → i + 1 ≤ j → j < to → 5 ≤ kind_at tape.now j)
            × (length clocks.old ≡ 2 * length self.old.frames.now) × ((j : ℕ) → get_or clocks.old j 0 ≤ i) × (t.work ≤ i) × (t.span ≤ i) }
        ensures same { SameRun self.old self.new }
        ensures runs { records_result (core_in self.new) answers.new
            ≡ run_on two_words (records_result (core_in self.old) answers.old) (2 * i) (records_from (to - i) tape.now (8 * i)) }
        ensures times { timing clocks.new result.work result.span
            ≡ timed_over two_words (core_in self.old) (records_from (to - i) tape.now (8 * i)) (timing clocks.old t.work t.span) }
    {
        let free_place = self.head.numbers.free_place;
        let p = bottom_of(self.deques, tape, i);
        let r = self.rise(clocks, tape, i, p);
        self.records(tape, answers, i, to);
        let (first, second) = (answers[2 * i], answers[2 * i + 1]);
        let t = time_first(clocks, first, second, p, free_place, r, t);
        let work = time_data(clocks, self.deques, tape, answers, i + 1, to, t.work);
        Tally { work, span: t.span }
    }

    // All records of a tape, from clocks of 0.
    pub fn turns(&mut self, tape: &[u8], answers: &mut [u32], clocks: &mut [u64]) -> Tally
        requires { Kept two_words (core_in self.old) × (self.old.pool.now.nodes ≡ self.old.head.numbers.nodes) × (2 * (length tape.now / 8) ≤ length answers.old)
            × (length clocks.old ≡ 2 * length self.old.frames.now) × ((j : ℕ) → get_or clocks.old j 0 ≤ 0) }
        ensures same { SameRun self.old self.new }
        ensures runs { records_result (core_in self.new) answers.new
            ≡ run_on two_words (records_result (core_in self.old) answers.old) 0 (records_of tape.now) }
        ensures times { timing clocks.new result.work result.span
            ≡ timed_over two_words (core_in self.old) (records_of tape.now) (timing clocks.old 0 0) }
    {
        let records = record_count(tape);
        let mut t = Tally { work: 0, span: 0 };
        let mut i: usize = 0;
        while i < records {
            let to = turn_end(tape, i + 1, records);
            t = self.turn(tape, answers, clocks, i, to, t);
            i = to;
        }
        t
    }
}
