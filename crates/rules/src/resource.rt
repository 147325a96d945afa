// The rule on operations that share an instance.
ghost use Rattle.std.specs.Prelude.{◌≡◌};
ghost use Rattle.rules.specs.Rules.{spaced as spaced_by, share_ok, beside_ok, resource_ok};

use basics::cell;

/// An operation of this start and spacing starts before step `later`, and by its spacing or more.
pub fn spaced(start: u16, spacing: u16, later: u16) -> bool
    ensures { result ≡ spaced_by start spacing later }
{
    start < later && start as u32 + spacing as u32 <= later as u32
}

// Operations a and b are not on one instance, not both placed, or start apart: the later start exceeds the earlier by at least
// the earlier operation's spacing.
#[tactic(auto, unfolding(crate::specs::Rules::share_ok, crate::specs::Rules::apart))]
fn share_ok(starts: &[u16], insts: &[u16], spacings: &[u16], b: usize, a: usize) -> bool
    ensures { result ≡ share_ok starts.now insts.now spacings.now b a }
{
    let start_a = cell(starts, a);
    let start_b = cell(starts, b);
    cell(insts, a) != cell(insts, b)
        || !(0 < start_a && 0 < start_b)
        || spaced(start_a, cell(spacings, a), start_b)
        || spaced(start_b, cell(spacings, b), start_a)
}

// Operation b with each before it.
fn beside_ok(starts: &[u16], insts: &[u16], spacings: &[u16], b: usize) -> bool
    ensures { result ≡ beside_ok starts.now insts.now spacings.now b }
{
    (0..b).all(|a| share_ok(starts, insts, spacings, b, a))
}

/// Each of the first n operations with each before it.
pub fn resource_ok(n: u16, starts: &[u16], insts: &[u16], spacings: &[u16]) -> bool
    ensures { result ≡ resource_ok n starts.now insts.now spacings.now }
{
    (0..n as usize).all(|b| beside_ok(starts, insts, spacings, b))
}
