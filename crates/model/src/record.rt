// A record's 8 bytes to its step: kind, worker, a 16-bit splitter or victim, a 32-bit value, little-endian (document 01).
ghost use Rattle.std.specs.Prelude.{◌≡◌, ◌+◌, ◌≤◌, length};
ghost use Rattle.model.specs.Record.{record_of, decode_at};

use crate::Step;

// The step of a record with these fields, or none (refusal 7): "Unused fields are zero."
#[tactic(auto, unfolding(crate::specs::Record::record_of))]
pub fn step_of(kind: u32, worker: u32, field: u32, value: u32) -> Option<Step>
    ensures { result ≡ record_of kind worker field value }
{
    match kind {
        1 if field == 0 && value == 0 => Some(Step::Spawn(worker)),
        2 if field == 0 && value == 0 => Some(Step::Return(worker)),
        3 if value == 0 => Some(Step::Steal(worker, field)),
        4 if field == 0 && value == 0 => Some(Step::Sync(worker)),
        5 if value == 0 => Some(Step::Read(worker, field)),
        6 => Some(Step::Write(worker, field, value)),
        7 => Some(Step::Fold(worker, field, value)),
        _ => None,
    }
}

// The record at `at`.
pub fn decode(tape: &[u8], at: usize) -> Option<Step>
    requires { at + 8 ≤ length tape.now }
    ensures { result ≡ decode_at tape.now at }
{
    let field = u32::from_le_bytes([tape[at + 2], tape[at + 3], 0, 0]);
    let value = u32::from_le_bytes([tape[at + 4], tape[at + 5], tape[at + 6], tape[at + 7]]);
    step_of(u32::from(tape[at]), u32::from(tape[at + 1]), field, value)
}
