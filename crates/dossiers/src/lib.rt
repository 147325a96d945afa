// Dossiers: a job, a plan and a note in one sheet, each judged where it stands.
#![tactic(auto)]

pub mod limits; // form, widths and limit of the sheet
pub mod checking; // the check: check_dossier
