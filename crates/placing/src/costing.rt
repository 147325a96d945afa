// The smallest selection and its cost, while rows are placed one by one and at the end. The functions take a board's tables and its
// rows' one by one, tables of any length, as the definitions do; a Board has them as methods.
ghost use Rattle.std.specs.Prelude.{◌≡◌, ◌≤◌, ◌<◌, ◌^◌};
ghost use Rattle.rules.specs.Selection.{cost_at, selection_cost};
ghost use Rattle.sheets.specs.Limits.{inst_cells};
ghost use Rattle.placing.specs.Costing.{reached, cost_with, cost_on};
ghost use Rattle.placing.specs.Placing.{wants_in, needed_in, smallest_in, smallest as smallest_on};
ghost use Rattle.placing.specs.Ready.{placing_of};

use crate::Board;
use crate::rows::Rows;
use basics::{cell, cells, only};
use sheets::limits::INST_CELLS;

impl Board {
    /// The cost with instance i, where `rows.lows` has it already, and before the cost was `here` and its type's lowest
    /// instance `low`.
    #[inline]
    pub fn cost_with(&self, rows: &Rows, here: u32, low: u16, i: usize) -> u32
        requires { self.now.k ≤ inst_cells }
        ensures { result ≡ cost_on self.now rows.now.lows here low i }
    {
        cost_with(
            &self.types,
            &self.costs,
            &rows.lows,
            self.k as usize,
            here,
            low,
            i,
        )
    }

    /// The smallest selection of the board's instances that holds those in use and keeps selection order.
    pub fn smallest(&self, rows: &Rows) -> [u16; INST_CELLS]
        requires { self.now.k ≤ inst_cells }
        ensures { result ≡ smallest_on self.now (placing_of rows.now) }
    {
        smallest(
            self.n as usize,
            self.k as usize,
            &self.types,
            &rows.starts,
            &rows.insts,
        )
    }
}

/// What `Board::cost_with` answers, of tables.
#[inline]
#[tactic(auto, unfolding(crate::specs::Costing::cost_with, crate::specs::Costing::cost_if))]
pub fn cost_with(
    types: &[u16],
    costs: &[u16],
    lows: &[u16],
    k: usize,
    here: u32,
    low: u16,
    i: usize,
) -> u32
    requires { k ≤ inst_cells }
    ensures { result ≡ cost_with types.now costs.now lows.now k here low i }
{
    if low as usize <= i {
        here
    } else {
        cost_of(types, costs, lows, k)
    }
}

// Beside rules' selection_cost, which goes by a selection's table: one for both would take the test as a closure, and with it a bound
// on what it lets through.
// What the needed ones of k instances cost.
#[tactic(auto, unfolding(rules::specs::Selection::selection_cost, basics::specs::Counting::sum_to))]
fn cost_of(types: &[u16], costs: &[u16], lows: &[u16], k: usize) -> u32
    requires { k ≤ inst_cells }
    ensures { result ≡ selection_cost costs.now types.now (reached types.now lows.now) k }
{
    let mut sum = 0;
    for i in 0..k {
        sum += cost_at(types, costs, lows, i);
    }
    sum
}

// What instance i costs, where it is needed: it is not before the lowest needed one of its type.
#[tactic(auto, unfolding(rules::specs::Selection::cost_at, basics::specs::Counting::only))]
fn cost_at(types: &[u16], costs: &[u16], lows: &[u16], i: usize) -> u32
    ensures { (result ≡ cost_at costs.now types.now (reached types.now lows.now) i) × (result < 2 ^ 16) }
{
    let y = cell(types, i) as usize;
    // `only` and no `if`, which would be compiled into a branch that is often guessed wrongly
    only(cell(lows, y) as usize <= i, cell(costs, y) as u32)
}

/// What `Board::smallest` answers, of tables, for n operations and k instances.
#[tactic(auto, unfolding(crate::specs::Placing::smallest_in))]
pub fn smallest(
    n: usize,
    k: usize,
    types: &[u16],
    starts: &[u16],
    insts: &[u16],
) -> [u16; INST_CELLS]
    requires { k ≤ inst_cells }
    ensures { result ≡ smallest_in n k types.now starts.now insts.now }
{
    cells(k, |i| u16::from(needed(n, types, starts, insts, i)))
}

// Instance i is wanted by one of n operations.
#[tactic(auto, unfolding(crate::specs::Placing::needed_in))]
fn needed(n: usize, types: &[u16], starts: &[u16], insts: &[u16], i: usize) -> bool
    ensures { result ≡ needed_in n types.now starts.now insts.now i }
{
    (0..n).any(|o| wants(types, starts, insts, i, o))
}

// Operation o wants instance i selected: it is placed on i, or on one before i of the same type.
#[tactic(auto, unfolding(crate::specs::Placing::wants_in))]
fn wants(types: &[u16], starts: &[u16], insts: &[u16], i: usize, o: usize) -> bool
    ensures { result ≡ wants_in types.now starts.now insts.now i o }
{
    let inst = cell(insts, o) as usize;
    0 < cell(starts, o) && cell(types, inst) == cell(types, i) && inst <= i
}
