// Job and plan sheets: the records, and their readers and writers.
#![tactic(auto)]

pub mod answers; // what each case of an answer says in numbers
pub mod limits; // limits, widths and positions
pub mod groups; // groups of a sheet in stream order, and their faults
pub mod columns; // tables read out of fields, and put into them
pub mod jobs; // the job sheet: read_job, write_job
pub mod plans; // the plan sheet: read_plan, write_plan

// Numbers, and tables of full size beside their counts, as in include/tolmupung.h.
/// A job. Cells that its counts do not use are zero.
#[repr(C)]
#[derive(Clone, Copy)]
pub struct Job {
    pub n: u16, // operations
    pub e: u16, // links
    pub m: u16, // unit types
    pub t: u16, // deadline, in steps
    pub clock: u16, // ns
    pub wire: u16, // ns
    pub kinds: [u16; limits::OP_CELLS], // of each operation
    pub from: [u16; limits::LINK_CELLS], // of each link
    pub to: [u16; limits::LINK_CELLS], // of each link
    pub costs: [u16; limits::TYPE_CELLS], // of each type
    pub copies: [u16; limits::TYPE_CELLS], // of each type
    pub times: [u16; limits::PAIR_CELLS], // of kind k at type y: cell 8 * y + k
    pub intervals: [u16; limits::PAIR_CELLS], // likewise
}

/// A plan. Cells that its counts do not use are zero.
#[repr(C)]
#[derive(Clone, Copy)]
pub struct Plan {
    pub n: u16, // operations, a row each
    pub k: u16, // instances
    pub selection: [u16; limits::INST_CELLS], // of each instance: 1 selected, 0 not
    pub starts: [u16; limits::OP_CELLS], // of each row
    pub insts: [u16; limits::OP_CELLS], // of each row
}
