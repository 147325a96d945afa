// Sliding: a distance is added to every start of a passed plan.
ghost use Rattle.std.specs.Prelude.{true, ◌≡◌, ◌≤◌, length};
ghost use Rattle.basics.specs.Answers.{Promise};
ghost use Rattle.basics.specs.Tables.{within};
ghost use Rattle.sheets.specs.Answers.{output, written_of};
ghost use Rattle.sheets.specs.Limits.{max_steps};
ghost use Rattle.sheets.specs.PlanSheet.{plan_record_fault, plan_sheet};
ghost use Rattle.moves.specs.Slide.{backward, steps, moved as moved_by, moved_starts, keeps_at, keeps as keeps_of, slid as slid_by, slide_plan, slide as slide_of, slide_out};

use basics::{Fault, Paper, Refusal, cell, cells};
use rules::judging::lend;
use rules::model::{timing_in, types_in};
use rules::rows::finish;
use sheets::limits::*;
use sheets::plans::write_plan;
use sheets::{Job, Plan};

// A start moved; 0 where there are too few steps before it.
fn moved(distance: i16, start: u16) -> u16
    requires { (steps distance ≤ max_steps) × (start ≤ max_steps) }
    ensures { result ≡ moved_by (backward distance) (steps distance) start }
{
    start.saturating_add_signed(distance)
}

// The starts of the plan, moved.
fn moved_starts(distance: i16, plan: &Plan) -> [u16; OP_CELLS]
    requires { (steps distance ≤ max_steps) × (within plan.now.starts max_steps plan.now.n ≡ true) }
    ensures { result ≡ moved_starts (backward distance) (steps distance) plan.now.starts plan.now.n }
{
    cells(plan.n as usize, |o| moved(distance, cell(&plan.starts, o)))
}

// The last test of row_fault, without the others, which a plan that passed keeps.
// Operation o starts at 1 or later, and ends at T or before.
#[tactic(auto, unfolding(crate::specs::Slide::keeps_at))]
fn keeps_at(t: u16, starts: &[u16], delays: &[u16], o: usize) -> bool
    ensures { result ≡ keeps_at t starts.now delays.now o }
{
    let start = cell(starts, o);
    1 <= start && finish(start, cell(delays, o)) <= t as u32
}

// Each of n operations does.
fn keeps(n: u16, t: u16, starts: &[u16], delays: &[u16]) -> bool
    ensures { result ≡ keeps_of n t starts.now delays.now }
{
    (0..n as usize).all(|o| keeps_at(t, starts, delays, o))
}

// Slides a plan that passed.
fn slide_plan(job: &Job, plan: &Plan, distance: i32, out: &mut [u8]) -> Result<u32, Refusal>
    requires { plan_record_fault plan.now ≡ 0 }
    ensures { let answer = slide_plan job.now plan.now distance (length out.old) in
        Promise answer (output answer (plan_sheet (slid_by distance plan.now)) out.old) (written_of result) out.new }
{
    if distance.unsigned_abs() > MAX_STEPS as u32 {
        return Err(Refusal {
            fault: Fault::DistanceFar,
            paper: Paper::Request,
        });
    }
    let starts = moved_starts(distance as i16, plan);
    let types = types_in(&job.copies, job.m);
    let timing = timing_in(
        &types,
        job.clock,
        &job.kinds,
        &job.times,
        &job.intervals,
        &plan.insts,
    );
    if !keeps(plan.n, job.t, &starts, &timing.delays) {
        return Err(Refusal {
            fault: Fault::MovedOut,
            paper: Paper::Plan,
        });
    }
    write_plan(&Plan { starts, ..*plan }, out)
}

/// Slides a passed plan by a distance, and writes its sheet. A refusal changes no byte.
pub fn slide(job: &[u8], plan: &[u8], distance: i32, out: &mut [u8]) -> Result<u32, Refusal>
    ensures { Promise (slide_of job.now plan.now distance (length out.old)) (slide_out job.now plan.now distance out.old) (written_of result) out.new }
{
    let lent = lend(true, job, plan);
    lent.judged?;
    slide_plan(&lent.job, &lent.plan, distance, out)
}
