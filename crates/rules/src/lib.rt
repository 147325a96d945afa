// The rules of a plan, and the judge. A rule takes its tables as slices: the judge lends those of a job and a plan, placing those
// of a board and its rows.
#![tactic(auto)]

pub mod model; // what a job says of its instances: K, types, times, delays, spacings
pub mod selection; // selection order and cost
pub mod rows; // the rule on rows
pub mod precedence; // the rule on links
pub mod resource; // the rule on operations that share an instance
pub mod chains; // the rule on runs within a step
pub mod judging; // the judge

// Tables side by side and no table of spans, since each rule goes by one or two of them.
/// What so many operations take, each on an instance.
#[derive(Clone, Copy)]
pub struct Spans<const N: usize> {
    pub times: [u16; N], // ns; 0: cannot be done
    pub delays: [u16; N], // steps
    pub spacings: [u16; N], // steps
}

/// Of each operation of a plan, on its instance.
pub type Timing = Spans<{ sheets::limits::OP_CELLS }>;

/// Of each operation on each instance: operation o on instance i has cell INST_CELLS * o + i.
pub type Tables = Spans<{ model::UNIT_CELLS }>;

/// What the judge answers, beside the papers as far as they were read.
#[derive(Clone, Copy)]
pub struct Lent {
    pub judged: Result<u32, basics::Refusal>,
    pub job: sheets::Job,
    pub plan: sheets::Plan,
}
