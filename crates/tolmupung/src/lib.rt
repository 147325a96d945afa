// The entries for C, as include/tolmupung.h declares them.
#![tactic(auto)]

ghost use Rattle.std.specs.Prelude.{◌≡◌, length};
ghost use Rattle.sheets.specs.JobSheet.{read_job, write_job, job_out};
ghost use Rattle.sheets.specs.PlanSheet.{read_plan, write_plan, plan_out};
ghost use Rattle.tolmupung.specs.Promises.{job_says, plan_says};
ghost use Rattle.basics.specs.Answers.{Promise};
ghost use Rattle.sheets.specs.Answers.{written_says};
ghost use Rattle.rules.specs.Judge.{judge, judged_says};
ghost use Rattle.search.specs.Search.{search as search_of, search_out, searched_says};
ghost use Rattle.notes.specs.Check.{check_note, checked_says};
ghost use Rattle.house.specs.House.{write_note, note_out};
ghost use Rattle.moves.specs.Slide.{slide, slide_out};
ghost use Rattle.moves.specs.Tidy.{tidy, tidy_out};
ghost use Rattle.dossiers.specs.Dossier.{check_dossier};

use basics::{Answer, Refusal};
use notes::checking::checked_says;
use rules::judging::judged_says;
use search::searching::searched_says;
use sheets::answers::{reading_says, written_says};
use sheets::jobs::{read_job, write_job};
use sheets::plans::{read_plan, write_plan};
use sheets::{Job, Plan};

// Two structs, JobRead and PlanRead, since C has none with a parameter.
/// A job reader's answer. Of a sheet that is refused the job is zeros.
#[repr(C)]
#[derive(Clone, Copy)]
pub struct JobRead {
    pub answer: Answer,
    pub job: Job,
}

/// A plan reader's answer. Of a sheet that is refused the plan is zeros.
#[repr(C)]
#[derive(Clone, Copy)]
pub struct PlanRead {
    pub answer: Answer,
    pub plan: Plan,
}

#[unsafe(no_mangle)]
pub extern "C" fn tolmupung_read_job(sheet: &[u8]) -> JobRead
    ensures { result ≡ job_says (read_job sheet.now) }
{
    match read_job(sheet) {
        Ok(job) => JobRead {
            answer: reading_says(Ok::<(), Refusal>(())),
            job,
        },
        Err(refusal) => JobRead {
            answer: reading_says(Err(refusal)),
            job: Job::default(),
        },
    }
}

#[unsafe(no_mangle)]
pub extern "C" fn tolmupung_read_plan(sheet: &[u8]) -> PlanRead
    ensures { result ≡ plan_says (read_plan sheet.now) }
{
    match read_plan(sheet) {
        Ok(plan) => PlanRead {
            answer: reading_says(Ok::<(), Refusal>(())),
            plan,
        },
        Err(refusal) => PlanRead {
            answer: reading_says(Err(refusal)),
            plan: Plan::default(),
        },
    }
}

#[unsafe(no_mangle)]
pub extern "C" fn tolmupung_write_job(job: Job, out: &mut [u8]) -> Answer
    ensures { Promise (written_says (write_job job (length out.old))) (job_out job out.old) result out.new }
{
    written_says(write_job(&job, out))
}

#[unsafe(no_mangle)]
pub extern "C" fn tolmupung_write_plan(plan: Plan, out: &mut [u8]) -> Answer
    ensures { Promise (written_says (write_plan plan (length out.old))) (plan_out plan out.old) result out.new }
{
    written_says(write_plan(&plan, out))
}

#[unsafe(no_mangle)]
pub extern "C" fn tolmupung_judge(job: &[u8], plan: &[u8]) -> Answer
    ensures { result ≡ judged_says (judge job.now plan.now) }
{
    judged_says(rules::judging::judge(job, plan))
}

#[unsafe(no_mangle)]
pub extern "C" fn tolmupung_search(job: &[u8], budget: u32, out: &mut [u8]) -> Answer
    ensures { Promise (searched_says (search_of job.now budget (length out.old))) (search_out job.now budget out.old) result out.new }
{
    searched_says(search::searching::search(job, budget, out))
}

#[unsafe(no_mangle)]
pub extern "C" fn tolmupung_check_note(job: &[u8], plan: &[u8], note: &[u8]) -> Answer
    ensures { result ≡ checked_says (check_note job.now plan.now note.now) }
{
    checked_says(notes::checking::check_note(job, plan, note))
}

#[unsafe(no_mangle)]
pub extern "C" fn tolmupung_write_note(job: &[u8], plan: &[u8], out: &mut [u8]) -> Answer
    ensures { Promise (written_says (write_note job.now plan.now (length out.old))) (note_out job.now plan.now out.old) result out.new }
{
    written_says(house::writing::write_note(job, plan, out))
}

#[unsafe(no_mangle)]
pub extern "C" fn tolmupung_slide(job: &[u8], plan: &[u8], distance: i32, out: &mut [u8]) -> Answer
    ensures { Promise (written_says (slide job.now plan.now distance (length out.old))) (slide_out job.now plan.now distance out.old) result out.new }
{
    written_says(moves::sliding::slide(job, plan, distance, out))
}

#[unsafe(no_mangle)]
pub extern "C" fn tolmupung_tidy(job: &[u8], plan: &[u8], out: &mut [u8]) -> Answer
    ensures { Promise (written_says (tidy job.now plan.now (length out.old))) (tidy_out job.now plan.now out.old) result out.new }
{
    written_says(moves::tidying::tidy(job, plan, out))
}

#[unsafe(no_mangle)]
pub extern "C" fn tolmupung_check_dossier(dossier: &[u8]) -> Answer
    ensures { result ≡ checked_says (check_dossier dossier.now) }
{
    checked_says(dossiers::checking::check_dossier(dossier))
}
