// The clock words of single frames, and the report's words.
ghost use Rattle.std.specs.Prelude.{◌≡◌, cond, suc, ◌+◌, ◌*◌, ◌<◌, eqb, length, replicate, Ok, Err};
ghost use Rattle.semantics.specs.declared.Refusal.TheVariants.{Span};
ghost use Rattle.semantics.specs.Timing.{latest, ticked, passed, heard, begun, waits_for_one};
ghost use Rattle.semantics.specs.Report.{report_words};
ghost use Rattle.timing.specs.Turns.{RoomFor, timing};

use crate::Tally;
use frames::Frame;
use semantics::Refusal;

// "the latest of its own and its ended children's"
pub fn latest_at(clocks: &[u64], p: u32) -> u64
    ensures { result ≡ latest clocks.now p }
{
    let at = 2 * (p as usize);
    let own = words::at_or(clocks, at, 0);
    let children = words::at_or(clocks, at + 1, 0);
    own.max(children)
}

// A step of the frame at p.
pub fn tick(clocks: &mut [u64], p: u32)
    requires { (suc (2 * p) < length clocks.old) × RoomFor 1 clocks.old }
    ensures { clocks.new ≡ ticked clocks.old p }
{
    let at = 2 * (p as usize);
    clocks[at] += 1;
}

// The frame at p passes a sync.
pub fn pass_sync(clocks: &mut [u64], p: u32)
    requires { RoomFor 1 clocks.old }
    ensures { clocks.new ≡ passed clocks.old p }
{
    let t = latest_at(clocks, p);
    words::put(clocks, 2 * (p as usize), t + 1);
}

// A child of the frame at q has ended at the time t.
pub fn hear(clocks: &mut [u64], q: u32, t: u64)
    ensures { clocks.new ≡ heard clocks.old q t }
{
    let at = 2 * (q as usize) + 1;
    let before = words::at_or(clocks, at, 0);
    words::put(clocks, at, before.max(t));
}

// The frame at p spawns a child at g.
pub fn begin_child(clocks: &mut [u64], p: u32, g: u32)
    requires { RoomFor 1 clocks.old }
    ensures { clocks.new ≡ begun clocks.old p g }
{
    let before = words::at_or(clocks, 2 * (p as usize), 0);
    let t = before + 1;
    words::put(clocks, 2 * (p as usize), t);
    words::put(clocks, 2 * (g as usize), t);
    words::put(clocks, 2 * (g as usize) + 1, 0);
}

// Does the frame wait for one child?
pub fn waits_for_one(f: Frame) -> bool
    ensures { result ≡ waits_for_one f }
{
    (f.suspended == 1) & (f.outstanding == 1)
}

// At a start every clock is 0.
pub fn clear_clocks(clocks: &mut [u64])
    ensures { clocks.new ≡ replicate (length clocks.old) 0 }
{
    clocks.fill(0);
}

// Work, span, quotient and remainder, or 22.
pub fn put_report(report: &mut [u64], t: Tally) -> Result<(), Refusal>
    requires { length report.old ≡ 4 }
    ensures { (report.new ≡ cond (eqb t.span 0) report.old (report_words (timing report.old t.work t.span)))
        × (result ≡ cond (eqb t.span 0) (Err Span) (Ok tt)) }
{
    if t.span == 0 {
        return Err(Refusal::Span);
    }
    report[0] = t.work;
    report[1] = t.span;
    report[2] = t.work / t.span;
    report[3] = t.work % t.span;
    Ok(())
}
