// When a claim lets a place be closed, and what it can be split on.
ghost use Rattle.std.specs.Prelude.{◌≡◌};
ghost use Rattle.placing.specs.Closing.{allowed as allowed_by, unplaced as unplaced_in};

use crate::Claim;
use basics::cell;

/// A cost is not below the claim's, where a plan is claimed; where none is, no cost will do.
#[tactic(auto, unfolding(crate::specs::Closing::allowed))]
pub fn allowed(claim: Claim, cost: u32) -> bool
    ensures { result ≡ allowed_by claim cost }
{
    claim.is_some_and(|least| least <= cost)
}

/// Operation o is one of n, and not placed.
#[tactic(auto, unfolding(crate::specs::Closing::unplaced))]
pub fn unplaced(n: usize, starts: &[u16], o: usize) -> bool
    ensures { result ≡ unplaced_in n starts.now o }
{
    o < n && cell(starts, o) == 0
}
