// The check of a closing note: the job and the plan beside it are judged, and then the note is read.
ghost use Rattle.std.specs.Prelude.{◌≡◌, IfOk, IfErr};
ghost use Rattle.basics.specs.Faults.{fault_in};
ghost use Rattle.placing.specs.Board.{WasRead, board_of};
ghost use Rattle.notes.specs.Check.{head_fault, note_fault, accepted, checked_of, check_note, checked_says as says_of};

use crate::claims::ask;
use crate::limits::*;
use crate::reading::Reader;
use basics::{Answer, Fault, Outcome, Paper, Refusal, blame, only, unless};
use placing::Claim;
use placing::boards::board_of;
use placing::rows::Rows;
use sheets::Job;
use sheets::groups::{fill_fault, form_fault, runs_out};
use sheets::limits::FORM_BITS;

// The first fault of the note's header, where a plan is lent or not.
#[tactic(auto, using(basics::proofs::FaultLaws::fault_laws), unfolding(crate::specs::Check::head_fault))]
fn head_fault(note: &[u8], plan: bool) -> Result<(), Fault>
    ensures { fault_in result ≡ head_fault note.now plan }
{
    unless(note.len() <= MAX_NOTE, Fault::NoteLong)?;
    form_fault(note, NOTE_FORM)?;
    runs_out(note.len(), NOTE_HEAD)?;
    let verdict = bits::field(note, FORM_BITS, VERDICT_BITS);
    unless(verdict == only(plan, 1), Fault::VerdictDiffers)
}

// The first fault of the note, against the claim of a job that was read.
fn note_fault(job: &Job, claim: Claim, note: &[u8]) -> Result<(), Fault>
    requires { WasRead job.now }
    ensures { fault_in result ≡ note_fault (board_of job.now) claim note.now }
{
    head_fault(note, claim.is_some())?;
    let board = board_of(job);
    let reader = Reader {
        board: &board,
        note,
        claim,
    };
    let end = reader.place(&mut Rows::none(), NOTE_HEAD, board.n as usize, 0, 0)?;
    fill_fault(note, end)
}

/// Checks the note beside a plan's sheet, or beside none of its bytes, against a job's sheet: it is accepted as it is claimed.
#[tactic(auto, using(crate::proofs::CheckLaws::check_laws))]
pub fn check_note(job: &[u8], plan: &[u8], note: &[u8]) -> Result<Claim, Refusal>
    ensures { checked_of result ≡ check_note job.now plan.now note.now }
{
    let asked = ask(job, plan);
    let claim = asked.claimed?;
    blame(Paper::Note, note_fault(&asked.job, claim, note))?;
    Ok(claim)
}

// No `From`: `Result` is of std and `Answer` of basics, so none may be written here. A refusal is whatever converts to an answer, any
// two numbers too.
/// What the check answers.
#[tactic(auto, unfolding(crate::specs::Check::accepted))]
pub fn checked_says<R: Into<Answer>>(answer: Result<Claim, R>) -> Answer
    ensures accepted { IfOk answer (λ claim. result ≡ says_of (accepted claim)) }
    ensures refused { IfErr answer (λ refusal. R.converts refusal result) }
{
    match answer {
        Ok(Some(cost)) => Answer {
            outcome: Outcome::Cheapest as u32,
            cost,
            ..Answer::default()
        },
        Ok(None) => Answer {
            outcome: Outcome::Nothing as u32,
            ..Answer::default()
        },
        Err(refusal) => refusal.into(),
    }
}
