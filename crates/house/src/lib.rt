// The house writer of closing notes: it splits on the lowest unplaced operation, and closes wherever that is allowed.
#![tactic(auto)]

pub mod places; // the tree, place by place
pub mod writing; // the note: write_note
