// The rule on links.
ghost use Rattle.std.specs.Prelude.{◌≡◌};
ghost use Rattle.rules.specs.Rules.{joins as joins_at, precedes as precedes_by, link_ok, precedence_ok};

use crate::rows::finish;
use basics::cell;

/// Both ends of link l are placed.
#[tactic(auto, unfolding(crate::specs::Rules::joins))]
pub fn joins(from: &[u16], to: &[u16], starts: &[u16], l: usize) -> bool
    ensures { result ≡ joins_at from.now to.now starts.now l }
{
    let a = cell(from, l) as usize;
    let b = cell(to, l) as usize;
    0 < cell(starts, a) && 0 < cell(starts, b)
}

/// An operation precedes another: the other (start2, delay2) starts behind its finish, or both start together and both
/// delays are 1.
#[tactic(auto, unfolding(crate::specs::Rules::precedes))]
pub fn precedes(start: u16, delay: u16, start2: u16, delay2: u16) -> bool
    ensures { result ≡ precedes_by start delay start2 delay2 }
{
    finish(start, delay) < start2 as u32 || (start == start2 && delay == 1 && delay2 == 1)
}

// Link l keeps precedence.
#[tactic(auto, unfolding(crate::specs::Rules::link_ok))]
fn link_ok(from: &[u16], to: &[u16], starts: &[u16], delays: &[u16], l: usize) -> bool
    ensures { result ≡ link_ok from.now to.now starts.now delays.now l }
{
    let a = cell(from, l) as usize;
    let b = cell(to, l) as usize;
    !joins(from, to, starts, l)
        || precedes(
            cell(starts, a),
            cell(delays, a),
            cell(starts, b),
            cell(delays, b),
        )
}

/// The first e links keep precedence.
pub fn precedence_ok(from: &[u16], to: &[u16], e: u16, starts: &[u16], delays: &[u16]) -> bool
    ensures { result ≡ precedence_ok from.now to.now e starts.now delays.now }
{
    (0..e as usize).all(|l| link_ok(from, to, starts, delays, l))
}
