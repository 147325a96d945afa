// The rule on runs within a step.
ghost use Rattle.std.specs.Prelude.{◌≡◌, ◌+◌, ◌*◌, ◌^◌, ◌<◌, ◌≤◌};
ghost use Rattle.rules.specs.Rules.{same_step, carried as carried_by, raised, link_most, Bounded, chains_ok};

use crate::precedence::joins;
use basics::cell;
use sheets::limits::OP_CELLS;

/// Link l joins two operations placed in one step.
#[tactic(auto, unfolding(crate::specs::Rules::same_step))]
pub fn same_step(from: &[u16], to: &[u16], starts: &[u16], l: usize) -> bool
    ensures { result ≡ same_step from.now to.now starts.now l }
{
    let a = cell(from, l) as usize;
    let b = cell(to, l) as usize;
    joins(from, to, starts, l) && cell(starts, a) == cell(starts, b)
}

// What link l's first operation carries on: what was brought to it, its own time and a wire.
#[tactic(auto, unfolding(crate::specs::Rules::carried))]
fn carried(from: &[u16], wire: u16, times: &[u16], brought: &[usize], l: usize) -> usize
    requires { (l < 2 ^ 16) × Bounded brought.now l }
    ensures { (result ≡ carried_by from.now wire times.now brought.now l) × (result ≤ link_most * (l + 1)) }
{
    let a = cell(from, l) as usize;
    brought.get(a).copied().unwrap_or(0) + cell(times, a) as usize + wire as usize
}

// Cell b is raised to x, where it holds less.
#[tactic(auto, using(crate::proofs::ChainLaws::raised_laws))]
fn raise(table: &mut [usize], b: usize, x: usize)
    ensures { table.new ≡ raised table.old b x }
{
    if b < table.len() {
        table[b] = table[b].max(x);
    }
}

/// Every run over the first e links within a step is within the clock. Links ascend by their first operation, so all that
/// comes to it has been brought before it carries on.
#[tactic(auto, using(crate::proofs::ChainLaws::tested_laws))]
pub fn chains_ok(
    from: &[u16],
    to: &[u16],
    e: u16,
    wire: u16,
    clock: u16,
    starts: &[u16],
    times: &[u16],
) -> bool
    ensures { result ≡ chains_ok from.now to.now e wire clock starts.now times.now }
{
    let mut brought = [0usize; OP_CELLS];
    for l in 0..e as usize {
        if !same_step(from, to, starts, l) {
            continue;
        }
        let reached = carried(from, wire, times, &brought, l);
        let b = cell(to, l) as usize;
        if reached + cell(times, b) as usize > clock as usize {
            return false;
        }
        raise(&mut brought, b, reached);
    }
    true
}
