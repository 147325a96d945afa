// The judge: a plan passes exactly when it meets every rule.
ghost use Rattle.std.specs.Prelude.{◌≡◌, IfOk, IfErr};
ghost use Rattle.basics.specs.Faults.{fault_in};
ghost use Rattle.rules.specs.Model.{inst_count, types_of};
ghost use Rattle.rules.specs.Judge.{counts_fault, placing_fault, fault_with, judged_of, judged_with, judged as judged_by, Passed, papers_of, lent as lent_of, judge as judge_of, judged_says as says_of};

use crate::chains::chains_ok;
use crate::model::{inst_count, timing_in, types_in};
use crate::precedence::precedence_ok;
use crate::resource::resource_ok;
use crate::rows::rows_fault;
use crate::selection::{order_ok, selection_cost};
use crate::{Lent, Timing};
use basics::{Answer, Fault, Outcome, Paper, Refusal, blame, unless};
use sheets::jobs::read_job;
use sheets::plans::read_plan;
use sheets::{Job, Plan};

// A plan of so many operations and instances, for a job of n and k.
#[tactic(auto, unfolding(crate::specs::Judge::counts_fault))]
fn counts_fault(ops: u16, insts: u16, n: u16, k: usize) -> Result<(), Fault>
    ensures { fault_in result ≡ counts_fault ops insts n k }
{
    unless(ops == n && insts as usize == k, Fault::CountsDiffer)
}

// Tables of any length and no records, as the definitions have it.
/// The first of precedence, resource and chain that the operations placed break.
#[tactic(auto, using(basics::proofs::FaultLaws::fault_laws), unfolding(crate::specs::Judge::placing_fault))]
pub fn placing_fault(
    n: u16,
    e: u16,
    wire: u16,
    clock: u16,
    from: &[u16],
    to: &[u16],
    starts: &[u16],
    insts: &[u16],
    timing: &Timing,
) -> Result<(), Fault>
    ensures { fault_in result ≡ placing_fault n e wire clock from.now to.now starts.now insts.now timing.now }
{
    let precedence = precedence_ok(from, to, e, starts, &timing.delays);
    unless(precedence, Fault::PrecedenceBroken)?;
    let resource = resource_ok(n, starts, insts, &timing.spacings);
    unless(resource, Fault::ResourceBroken)?;
    let chains = chains_ok(from, to, e, wire, clock, starts, &timing.times);
    unless(chains, Fault::ChainBroken)
}

// `order` is a switch, as the definitions have it.
// The first rule that a plan breaks, with selection order asked or not.
#[tactic(auto, using(basics::proofs::FaultLaws::fault_laws), unfolding(crate::specs::Judge::fault_with))]
fn fault_with(order: bool, job: &Job, plan: &Plan, types: &[u16], k: usize) -> Result<(), Fault>
    requires { (types.now ≡ types_of job.now) × (k ≡ inst_count job.now) }
    ensures { fault_in result ≡ fault_with order job.now plan.now }
{
    let n = job.n;
    let timing = timing_in(
        types,
        job.clock,
        &job.kinds,
        &job.times,
        &job.intervals,
        &plan.insts,
    );
    counts_fault(plan.n, plan.k, n, k)?;
    unless(
        !order || order_ok(types, &plan.selection, k),
        Fault::OrderBroken,
    )?;
    rows_fault(
        n,
        k,
        job.t,
        &plan.starts,
        &plan.insts,
        &timing.times,
        &timing.delays,
        &plan.selection,
    )?;
    placing_fault(
        n,
        job.e,
        job.wire,
        job.clock,
        &job.from,
        &job.to,
        &plan.starts,
        &plan.insts,
        &timing,
    )
}

/// A plan passes at its cost, or is refused by the first rule that it breaks, with selection order asked or not.
#[tactic(auto, using(crate::proofs::JudgeLaws::judged_laws))]
pub fn judged_with(order: bool, job: &Job, plan: &Plan) -> Result<u32, Refusal>
    ensures { judged_of result ≡ judged_with order job.now plan.now }
{
    let k = inst_count(&job.copies, job.m);
    let types = types_in(&job.copies, job.m);
    blame(Paper::Plan, fault_with(order, job, plan, &types, k))?;
    // plan.k is k where the plan passes, and its 16 bits keep the sum in range
    Ok(selection_cost(&job.costs, &types, &plan.selection, plan.k))
}

/// A plan passes at its cost, or is refused by the first rule that it breaks.
#[tactic(auto, unfolding(crate::specs::Judge::judged))]
pub fn judged(job: &Job, plan: &Plan) -> Result<u32, Refusal>
    ensures { judged_of result ≡ judged_by job.now plan.now }
{
    judged_with(true, job, plan)
}

// A record and no `Result`, since the papers stand beside a refusal too.
/// Reads a job sheet and a plan sheet, and judges the plan, with selection order asked or not. A paper that cannot be read ends
/// the question there: it is zeros, and so is a plan beside a job that cannot be read.
pub fn lend(order: bool, job: &[u8], plan: &[u8]) -> Lent
    ensures { papers_of result ≡ lent_of order job.now plan.now }
{
    let job = match read_job(job) {
        Ok(job) => job,
        Err(refusal) => {
            return Lent {
                judged: Err(refusal),
                job: Job::default(),
                plan: Plan::default(),
            };
        }
    };
    let plan = match read_plan(plan) {
        Ok(plan) => plan,
        Err(refusal) => {
            return Lent {
                judged: Err(refusal),
                job,
                plan: Plan::default(),
            };
        }
    };
    Lent {
        judged: judged_with(order, &job, &plan),
        job,
        plan,
    }
}

/// Judges a plan sheet against a job sheet.
pub fn judge(job: &[u8], plan: &[u8]) -> Result<u32, Refusal>
    ensures { judged_of result ≡ judge_of job.now plan.now }
{
    lend(true, job, plan).judged
}

// No `From`: the type does not tell that the number is a cost. A refusal is whatever converts to an answer, any two numbers too.
/// What the judge answers.
pub fn judged_says<R: Into<Answer>>(answer: Result<u32, R>) -> Answer
    ensures passed { IfOk answer (λ cost. result ≡ says_of (Passed cost)) }
    ensures refused { IfErr answer (λ refusal. R.converts refusal result) }
{
    match answer {
        Ok(cost) => Answer {
            outcome: Outcome::Passed as u32,
            cost,
            ..Answer::default()
        },
        Err(refusal) => refusal.into(),
    }
}
