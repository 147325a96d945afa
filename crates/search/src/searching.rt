// The search: the job is read, its plans are walked over, and the best is written.
ghost use Rattle.std.specs.Prelude.{◌≡◌, ◌≤◌, ◌<◌, length, IfOk, IfErr, MatchOption};
ghost use Rattle.basics.specs.Answers.{Promise};
ghost use Rattle.placing.specs.Board.{OfJob, WasRead};
ghost use Rattle.search.specs.Search.{walked as walked_of, found_of, searched_of, search_job, search_job_out, search as search_of, search_out, searched_says as says_of};
ghost use Rattle.search.specs.Walking.{state_of};

use crate::Finding;
use crate::walking::Walk;
use basics::{Answer, Fault, Outcome, Paper, Refusal};
use placing::Board;
use placing::boards::board_of;
use placing::rows::Rows;
use sheets::jobs::read_job;
use sheets::plans::write_plan;
use sheets::{Job, Plan};

// The walk from nothing placed over all plans of a board. None: the budget is spent.
fn walked(board: &Board, budget: u32) -> Option<Walk>
    requires { OfJob board.now }
    ensures { MatchOption result (budget < (walked_of board.now).visits)
        (λ w. ((walked_of board.now).visits ≤ budget) × (state_of w ≡ walked_of board.now)) }
{
    let mut walk = Walk {
        visits: 0,
        rows: Rows::none(),
        best: None,
    };
    walk.arrive(budget)?;
    walk.walk(board, budget, 0, 0)?;
    Some(walk)
}

// That the job was read is asked (`WasRead`) and is no type: the judge is lent the same record, whatever it holds.
// Searches a job that was read.
fn search_job(job: &Job, budget: u32, out: &mut [u8]) -> Result<Finding, Refusal>
    requires { WasRead job.now }
    ensures { Promise (search_job job.now budget (length out.old)) (search_job_out job.now budget out.old) (searched_of result) out.new }
{
    let board = board_of(job);
    let Some(walk) = walked(&board, budget) else {
        return Ok(Finding::Spent { visits: budget });
    };
    let visits = walk.visits;
    let Some(best) = walk.best else {
        return Ok(Finding::Nothing { visits });
    };
    let plan = Plan {
        n: board.n,
        k: board.k,
        selection: board.smallest(&best.rows),
        starts: best.rows.starts,
        insts: best.rows.insts,
    };
    let length = write_plan(&plan, out)?;
    Ok(Finding::Found {
        cost: best.cost,
        visits,
        length,
    })
}

/// Searches for the cheapest plan of a job sheet within a budget of visits, and writes the plan's sheet to the output.
pub fn search(job: &[u8], budget: u32, out: &mut [u8]) -> Result<Finding, Refusal>
    ensures { Promise (search_of job.now budget (length out.old)) (search_out job.now budget out.old) (searched_of result) out.new }
{
    let job = read_job(job)?;
    search_job(&job, budget, out)
}

// No `From`: `Result` is of std and `Answer` of basics, so none may be written here. A refusal is whatever converts to an answer, any
// two numbers too.
/// What the search answers.
pub fn searched_says<R: Into<Answer>>(answer: Result<Finding, R>) -> Answer
    ensures found { IfOk answer (λ finding. result ≡ says_of (found_of finding)) }
    ensures refused { IfErr answer (λ refusal. R.converts refusal result) }
{
    match answer {
        Ok(
            Finding::Found {
                cost,
                visits,
                length,
            },
        ) => Answer {
            outcome: Outcome::Found as u32,
            cost,
            visits,
            length,
            ..Answer::default()
        },
        Ok(Finding::Nothing { visits }) => Answer {
            outcome: Outcome::Nothing as u32,
            number: Fault::NoPlan.number(),
            paper: Paper::Job.number(),
            visits,
            ..Answer::default()
        },
        Ok(Finding::Spent { visits }) => Answer {
            outcome: Outcome::Spent as u32,
            number: Fault::BudgetSpent.number(),
            paper: Paper::Request.number(),
            visits,
            ..Answer::default()
        },
        Err(refusal) => refusal.into(),
    }
}
