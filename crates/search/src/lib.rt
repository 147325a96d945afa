// The search: the walk over all plans of a job, visit by visit, and its answer.
#![tactic(auto)]

pub mod walking; // the walk
pub mod searching; // the search: search, searched_says

/// What a search finds: a cheapest plan, whose sheet has so many bytes; that there is none; or that the budget is spent.
#[derive(Clone, Copy, Debug, PartialEq, Eq)]
pub enum Finding {
    Found { cost: u32, visits: u32, length: u32 },
    Nothing { visits: u32 },
    Spent { visits: u32 },
}
