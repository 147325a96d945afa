// A selection: its order, and its cost.
ghost use Rattle.std.specs.Prelude.{◌≡◌, ◌<◌, ◌^◌};
ghost use Rattle.rules.specs.Selection.{selected as selected_in, order_at, order_ok, cost_at, selection_cost};

use basics::cell;

/// Instance i is selected.
pub fn selected(selection: &[u16], i: usize) -> bool
    ensures { result ≡ selected_in selection.now i }
{
    cell(selection, i) == 1
}

// Instance i and the one before it keep selection order.
#[tactic(auto, using(crate::proofs::RuleLaws::order_laws))]
fn order_at(types: &[u16], selection: &[u16], i: usize) -> bool
    ensures { result ≡ order_at types.now selection.now i }
{
    i == 0
        || cell(types, i - 1) != cell(types, i)
        || !selected(selection, i - 1)
        || selected(selection, i)
}

/// Within a type no selected instance of the first k precedes an unselected one.
pub fn order_ok(types: &[u16], selection: &[u16], k: usize) -> bool
    ensures { result ≡ order_ok types.now selection.now k }
{
    (0..k).all(|i| order_at(types, selection, i))
}

// What instance i costs, as far as it is selected.
#[tactic(auto, unfolding(crate::specs::Selection::cost_at, basics::specs::Counting::only))]
fn cost_at(costs: &[u16], types: &[u16], selection: &[u16], i: usize) -> u32
    ensures { (result ≡ cost_at costs.now types.now (selected_in selection.now) i) × (result < 2 ^ 16) }
{
    if selected(selection, i) {
        cell(costs, cell(types, i) as usize) as u32
    } else {
        0
    }
}

/// What the first k instances cost, as far as they are selected.
pub fn selection_cost(costs: &[u16], types: &[u16], selection: &[u16], k: u16) -> u32
    ensures { result ≡ selection_cost costs.now types.now (selected_in selection.now) k }
{
    (0..k as usize)
        .map(|i| cost_at(costs, types, selection, i))
        .sum()
}
