// What is claimed of a job: that the plan beside it, which must pass, is a cheapest one; or, without a plan, that there is none.
ghost use Rattle.std.specs.Prelude.{◌≡◌};
ghost use Rattle.notes.specs.Check.{claimed_of, claim_of, papers_of, asked};

use crate::Asked;
use basics::Refusal;
use placing::Claim;
use rules::judging::judged;
use sheets::Job;
use sheets::jobs::read_job;
use sheets::plans::read_plan;

// No plan is a slice of no bytes, as C hands it over.
// What is claimed of a job that was read, by a plan's sheet or by none of its bytes.
#[tactic(auto, using(crate::proofs::AskLaws::claim_laws))]
fn claim_of(job: &Job, plan: &[u8]) -> Result<Claim, Refusal>
    ensures { claimed_of result ≡ claim_of job.now plan.now }
{
    if plan.len() == 0 {
        return Ok(None);
    }
    let plan = read_plan(plan)?;
    let cost = judged(job, &plan)?;
    Ok(Some(cost))
}

// A record and no `Result`, since the job stands beside a refusal too.
/// What is claimed of a job's sheet, by a plan's sheet or by none of its bytes, and the job. A paper that cannot be read ends the
/// question there; a job that cannot be read is zeros.
#[tactic(auto, using(crate::proofs::AskLaws::ask_laws))]
pub fn ask(job: &[u8], plan: &[u8]) -> Asked
    ensures { papers_of result ≡ asked job.now plan.now }
{
    match read_job(job) {
        Ok(job) => Asked {
            claimed: claim_of(&job, plan),
            job,
        },
        Err(refusal) => Asked {
            claimed: Err(refusal),
            job: Job::default(),
        },
    }
}
