// Closing notes: what is claimed, the tree read place by place, and the check.
#![tactic(auto)]

pub mod limits; // form, widths and limit of the sheet
pub mod claims; // what is claimed of a job
pub mod reading; // the tree, place by place
pub mod checking; // the check: check_note, checked_says

/// What is claimed, or why nothing is, beside the job that it is claimed of, as far as that was read.
#[derive(Clone, Copy)]
pub struct Asked {
    pub claimed: Result<placing::Claim, basics::Refusal>,
    pub job: sheets::Job,
}
