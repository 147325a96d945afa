// The answer of every entry; refusals and the order of faults; tables of a record.
#![tactic(auto)]

ghost use Rattle.std.specs.Prelude.{◌≡◌};
ghost use Rattle.basics.specs.Answers.{refused_says};
ghost use Rattle.basics.specs.Counting.{only as only_if};
ghost use Rattle.basics.specs.Faults.{number_of, paper_of};

mod refusals;
mod tables;

pub use refusals::{Fault, Paper, Refusal, blame, unless};
pub use tables::{blank, cell, cells, within};

/// What an answer can be.
#[derive(Clone, Copy, Debug, PartialEq, Eq)]
pub enum Outcome {
    Refused = 0,
    Passed = 1,
    Found = 2,
    Nothing = 3,
    Spent = 4,
    Cheapest = 5,
    Written = 6,
    Read = 7,
}

/// The answer of every entry. A number that does not belong to the outcome is 0.
// Numbers and no enum, since C reads it.
#[repr(C)]
#[derive(Clone, Copy, Debug, Default, PartialEq, Eq)]
pub struct Answer {
    pub outcome: u32,
    pub number: u32,
    pub paper: u32,
    pub cost: u32,
    pub visits: u32,
    pub length: u32,
}

// Numbers and no enums, as the answer for C has them.
/// Refused by a number, with the paper at fault.
pub fn refused(number: u32, paper: u32) -> Answer
    ensures { result ≡ refused_says number paper }
{
    Answer {
        outcome: Outcome::Refused as u32,
        number,
        paper,
        ..Answer::default()
    }
}

impl From<Refusal> for Answer {
    ghost from_gives = { λ refusal answer. answer ≡ refused_says (number_of refusal.fault) (paper_of refusal.paper) };

    fn from(refusal: Refusal) -> Answer {
        refused(refusal.fault.number(), refusal.paper.number())
    }
}

// A function and no `if` where it stands: it is the definitions' own word.
/// x where the test holds, else 0.
#[tactic(auto, unfolding(crate::specs::Counting::only))]
pub fn only(test: bool, x: u32) -> u32
    ensures { result ≡ only_if test x }
{
    if test { x } else { 0 }
}
