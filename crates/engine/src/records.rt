// A step of any kind, a record, and the records of a tape.
ghost use Rattle.std.specs.Prelude.{◌≡◌, ◌+◌, ◌-◌, ◌*◌, ◌/◌, ◌≤◌, length};
ghost use Rattle.model.specs.Record.{decode_at};
ghost use Rattle.semantics.specs.Answers.{answer_words};
ghost use Rattle.semantics.specs.Core.{step_on};
ghost use Rattle.semantics.specs.Entries.{record_on, records_from, records_result, run_on};
ghost use Rattle.semantics.specs.Ranges.{Kept};
ghost use Rattle.engine.specs.Run.{core_in, stepped, ReadyRun, SameRun};
ghost use Rattle.soundness.specs.Layout.{two_words};

use crate::run::Run;
use model::Step;
use model::record::decode;
use semantics::{Done, Refusal};

// Document 01's words for an answer: "A refused record gives its refusal and 0".
pub fn answer_words(answer: Result<Done, Refusal>) -> (u32, u32)
    ensures { result ≡ answer_words answer }
{
    match answer {
        Ok(Done::Spawned(depth)) => (101, depth),
        Ok(Done::Ended(outcome)) => (102, u32::from(outcome)),
        Ok(Done::Stolen(depth)) => (103, depth),
        Ok(Done::Waited(outcome)) => (104, u32::from(outcome)),
        Ok(Done::Value(value)) => (105, value),
        Ok(Done::Written(free)) => (106, free),
        Ok(Done::Folded) => (107, 0),
        Err(refusal) => (u32::from(refusal), 0),
    }
}

// How many records the tape has.
pub fn record_count(tape: &[u8]) -> usize
    ensures { result ≡ length tape.now / 8 }
{
    tape.len() / 8
}

impl Run<'_, '_> {
    // Any step.
    pub fn step(&mut self, step: Step) -> Result<Done, Refusal>
        requires { ReadyRun self.old }
        ensures same { SameRun self.old self.new }
        ensures steps { stepped self.new result ≡ step_on two_words (core_in self.old) step }
    {
        match step {
            Step::Spawn(w) => self.spawn(w),
            Step::Return(w) => self.return_frame(w),
            Step::Steal(w, v) => self.steal(w, v),
            Step::Sync(w) => self.sync(w),
            Step::Read(w, x) => self.read(w, x),
            Step::Write(w, x, v) => self.write(w, x, v),
            Step::Fold(w, reducer, v) => self.fold(w, reducer, v),
        }
    }

    // The record at a place of the tape.
    pub fn record(&mut self, tape: &[u8], at: usize) -> Result<Done, Refusal>
        requires { ReadyRun self.old × (at + 8 ≤ length tape.now) }
        ensures same { SameRun self.old self.new }
        ensures steps { stepped self.new result ≡ record_on two_words (core_in self.old) (decode_at tape.now at) }
    {
        let Some(step) = decode(tape, at) else {
            return Err(Refusal::Record);
        };
        self.step(step)
    }

    // The tape's records from the one at `from` up to the one at `to`, in order, from a sound core: "Each record gives two answer words", and a refused one lets the
    // tape go on. A tape and a report call it, once each, so that the compiler keeps it as one function of its own.
    pub fn records(&mut self, tape: &[u8], answers: &mut [u32], from: usize, to: usize)
        requires { Kept two_words (core_in self.old) × (self.old.pool.now.nodes ≡ self.old.head.numbers.nodes) × (2 * (length tape.now / 8) ≤ length answers.old) × (from ≤ to) × (to ≤ length tape.now / 8) }
        ensures same { SameRun self.old self.new }
        ensures runs { records_result (core_in self.new) answers.new
            ≡ run_on two_words (records_result (core_in self.old) answers.old) (2 * from) (records_from (to - from) tape.now (8 * from)) }
    {
        for i in from..to {
            let (first, second) = answer_words(self.record(tape, 8 * i));
            answers[2 * i] = first;
            answers[2 * i + 1] = second;
        }
    }
}
