// Rows placed so far: what is live, what it costs, and the test of one more row.
#![tactic(auto)]

pub mod rows; // rows placed on a board, and taken back
pub mod boards; // what placing asks of a job
mod links; // the operations that a link joins to one of them
pub mod fitting; // one more row against a live placing
pub mod costing; // the smallest selection and its cost
pub mod closing; // when a place may be closed, and what it can be split on

/// What placing asks of a job, for the functions below to borrow.
// Tables side by side, since each test reads one or two of them; in each a number says none, as in a plan's record. `near` is gone through by
// `Linked`. That it leads from one linked operation to the next (`Leads`) is asked by the functions that follow it, and is no ghost field:
// each definition that makes a board would have to carry its proof.
#[derive(Clone, Copy)]
pub struct Board {
    pub n: u16, // operations
    pub k: u16, // instances
    pub t: u16, // deadline, in steps
    pub e: u16, // links
    pub wire: u16, // ns
    pub clock: u16, // ns
    pub from: [u16; sheets::limits::LINK_CELLS], // of each link
    pub to: [u16; sheets::limits::LINK_CELLS],
    pub types: [u16; sheets::limits::INST_CELLS], // of each instance
    pub costs: [u16; sheets::limits::TYPE_CELLS], // of each type
    pub times: [u16; rules::model::UNIT_CELLS], // of operation o on instance i: cell 16 * o + i; ns, 0: cannot be done
    pub delays: [u16; rules::model::UNIT_CELLS], // steps
    pub spacings: [u16; rules::model::UNIT_CELLS], // steps
    pub lasts: [u16; rules::model::UNIT_CELLS], // the last step to start in, 0: none
    pub near: [u16; boards::NEAR_TABLE], // the first operation from x on that a link joins to o: cell 25 * o + x; 24: none
}

/// What a note claims: a plan at this cost, or that there is none.
pub type Claim = Option<u32>;
