// The check of a dossier: its header, and then the three papers where they stand.
ghost use Rattle.std.specs.Prelude.{◌≡◌, ◌≤◌, ◌<◌, ◌^◌};
ghost use Rattle.basics.specs.Faults.{fault_in, paper_of};
ghost use Rattle.notes.specs.Check.{checked_of};
ghost use Rattle.dossiers.specs.Dossier.{length_in, job_part, plan_part, note_part, dossier_fault, check_dossier};

use crate::limits::*;
use basics::{Fault, Paper, Refusal, blame, unless};
use notes::checking::check_note;
use placing::Claim;
use sheets::groups::{form_fault, runs_out};
use sheets::limits::*;

// The length of the job, the plan or the note.
fn length_in(dossier: &[u8], paper: Paper) -> usize
    requires { paper_of paper ≤ 2 }
    ensures { (result ≡ length_in dossier.now (paper_of paper)) × (result < 2 ^ 16) }
{
    let i = paper.number() as usize;
    bits::field(dossier, LENGTHS_AT + LENGTH_BITS * i, LENGTH_BITS) as usize
}

// The first fault of the dossier itself.
#[tactic(auto, using(basics::proofs::FaultLaws::fault_laws), unfolding(crate::specs::Dossier::dossier_fault))]
fn dossier_fault(dossier: &[u8]) -> Result<(), Fault>
    ensures { fault_in result ≡ dossier_fault dossier.now }
{
    unless(dossier.len() <= MAX_DOSSIER, Fault::DossierLong)?;
    runs_out(dossier.len(), DOSSIER_HEAD)?;
    form_fault(dossier, DOSSIER_FORM)?;
    let zeros = bits::field(dossier, FORM_BITS, ZERO_BITS);
    unless(zeros == 0, Fault::FillBroken)?;
    let end = JOB_AT
        + length_in(dossier, Paper::Job)
        + length_in(dossier, Paper::Plan)
        + length_in(dossier, Paper::Note);
    unless(end == dossier.len(), Fault::LengthsDiffer)
}

// The papers of a dossier without a fault, where they stand.
fn papers(dossier: &[u8]) -> (&[u8], &[u8], &[u8])
    requires { dossier_fault dossier.now ≡ 0 }
    ensures job { result.0.now ≡ job_part dossier.now }
    ensures plan { result.1.now ≡ plan_part dossier.now }
    ensures note { result.2.now ≡ note_part dossier.now }
{
    let plan_at = JOB_AT + length_in(dossier, Paper::Job);
    let note_at = plan_at + length_in(dossier, Paper::Plan);
    (
        &dossier[JOB_AT..plan_at],
        &dossier[plan_at..note_at],
        &dossier[note_at..],
    )
}

/// Checks a dossier: its own header, and then its job, its plan or none, and its note. What is accepted is the claim.
#[tactic(auto, using(crate::proofs::DossierLaws::dossier_laws))]
pub fn check_dossier(dossier: &[u8]) -> Result<Claim, Refusal>
    ensures { checked_of result ≡ check_dossier dossier.now }
{
    blame(Paper::Dossier, dossier_fault(dossier))?;
    let (job, plan, note) = papers(dossier);
    check_note(job, plan, note)
}
