// Tidying: each type's selected instances move to its last numbers, and the rows follow.
ghost use Rattle.std.specs.Prelude.{◌≡◌, ◌≤◌, length};
ghost use Rattle.basics.specs.Answers.{Promise};
ghost use Rattle.basics.specs.Counting.{any_to};
ghost use Rattle.sheets.specs.Answers.{written_of};
ghost use Rattle.sheets.specs.Limits.{max_insts};
ghost use Rattle.sheets.specs.PlanSheet.{plan_record_fault};
ghost use Rattle.moves.specs.Tidy.{moves_past, moves_to, moves_in, takes, taken_in, follows_in, tidied as tidied_of, tidy as tidy_of, tidy_out};

use basics::{Refusal, cell, cells};
use rules::judging::lend;
use rules::model::types_in;
use rules::selection::selected;
use sheets::limits::*;
use sheets::plans::write_plan;
use sheets::{Job, Plan};

// Instance i moves past instance `other`: an unselected one of its type, behind it.
#[tactic(auto, unfolding(crate::specs::Tidy::moves_past))]
fn moves_past(types: &[u16], plan: &Plan, i: usize, other: usize) -> bool
    ensures { result ≡ moves_past types.now plan.now.selection i other }
{
    i < other && cell(types, other) == cell(types, i) && !selected(&plan.selection, other)
}

// Where instance i of the plan moves to.
fn moves_to(types: &[u16], plan: &Plan, i: usize) -> u16
    requires { (plan.now.k ≤ max_insts) × (i ≤ max_insts) }
    ensures { result ≡ moves_to types.now plan.now.selection plan.now.k i }
{
    let passed = (0..plan.k as usize)
        .filter(|other| moves_past(types, plan, i, *other))
        .count();
    (i + passed) as u16
}

// Where each instance of the plan moves to.
fn moves_in(types: &[u16], plan: &Plan) -> [u16; INST_CELLS]
    requires { plan.now.k ≤ max_insts }
    ensures { result ≡ moves_in types.now plan.now.selection plan.now.k }
{
    cells(plan.k as usize, |i| moves_to(types, plan, i))
}

// Instance i is selected, and moves to instance m.
#[tactic(auto, unfolding(crate::specs::Tidy::takes))]
fn takes(moves: &[u16], plan: &Plan, m: usize, i: usize) -> bool
    ensures { result ≡ takes moves.now plan.now.selection m i }
{
    selected(&plan.selection, i) && cell(moves, i) as usize == m
}

// A selected instance moves to instance m.
fn taken(moves: &[u16], plan: &Plan, m: usize) -> bool
    ensures { result ≡ any_to (takes moves.now plan.now.selection m) plan.now.k }
{
    (0..plan.k as usize).any(|i| takes(moves, plan, m, i))
}

// The plan's selection, moved.
fn taken_in(moves: &[u16], plan: &Plan) -> [u16; INST_CELLS]
    ensures { result ≡ taken_in moves.now plan.now.selection plan.now.k }
{
    cells(plan.k as usize, |m| u16::from(taken(moves, plan, m)))
}

// The instances of the plan's rows, moved.
fn follows_in(moves: &[u16], plan: &Plan) -> [u16; OP_CELLS]
    ensures { result ≡ follows_in moves.now plan.now.insts plan.now.n }
{
    cells(
        plan.n as usize,
        |o| cell(moves, cell(&plan.insts, o) as usize),
    )
}

// The plan, tidied.
fn tidied(job: &Job, plan: &Plan) -> Plan
    requires { plan_record_fault plan.now ≡ 0 }
    ensures { result ≡ tidied_of job.now plan.now }
{
    let types = types_in(&job.copies, job.m);
    let moves = moves_in(&types, plan);
    Plan {
        selection: taken_in(&moves, plan),
        insts: follows_in(&moves, plan),
        ..*plan
    }
}

/// Tidies a plan that breaks no rule but possibly selection order, and writes its sheet. A refusal changes no byte.
pub fn tidy(job: &[u8], plan: &[u8], out: &mut [u8]) -> Result<u32, Refusal>
    ensures { Promise (tidy_of job.now plan.now (length out.old)) (tidy_out job.now plan.now out.old) (written_of result) out.new }
{
    let lent = lend(false, job, plan);
    lent.judged?;
    write_plan(&tidied(&lent.job, &lent.plan), out)
}
