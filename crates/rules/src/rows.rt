// The rule on rows.
ghost use Rattle.std.specs.Prelude.{◌≡◌};
ghost use Rattle.basics.specs.Faults.{fault_in};
ghost use Rattle.rules.specs.Rules.{finish as finish_of, row_fault, rows_fault};

use crate::selection::selected;
use basics::{Fault, cell, unless};

/// The step in which an operation ends.
#[tactic(auto, unfolding(crate::specs::Rules::finish))]
pub fn finish(start: u16, delay: u16) -> u32
    ensures { result ≡ finish_of start delay }
{
    (start as u32 + delay as u32).saturating_sub(1)
}

// Seven numbers of one row, which no other function takes together.
/// A row among k instances with a deadline t: `time` and `delay` are the operation's on its instance, `chosen` says whether
/// that is selected.
#[tactic(auto, using(basics::proofs::FaultLaws::fault_laws), unfolding(crate::specs::Rules::row_fault))]
pub fn row_fault(
    k: usize,
    t: u16,
    inst: u16,
    time: u16,
    chosen: bool,
    start: u16,
    delay: u16,
) -> Result<(), Fault>
    ensures { fault_in result ≡ row_fault k t inst time chosen start delay }
{
    unless((inst as usize) < k, Fault::RowInstance)?;
    unless(0 < time, Fault::RowKind)?;
    unless(chosen, Fault::RowUnselected)?;
    unless(
        1 <= start && finish(start, delay) <= t as u32,
        Fault::RowStep,
    )
}

// Tables of any length and no records, as the definitions have it.
/// The first fault of n rows.
#[tactic(auto, using(basics::proofs::FaultLaws::first_laws), unfolding(crate::specs::Rules::rows_fault, crate::specs::Rules::row_fault_at))]
pub fn rows_fault(
    n: u16,
    k: usize,
    t: u16,
    starts: &[u16],
    insts: &[u16],
    times: &[u16],
    delays: &[u16],
    selection: &[u16],
) -> Result<(), Fault>
    ensures { fault_in result ≡ rows_fault n k t starts.now insts.now times.now delays.now selection.now }
{
    for o in 0..n as usize {
        let inst = cell(insts, o);
        let chosen = selected(selection, inst as usize);
        row_fault(
            k,
            t,
            inst,
            cell(times, o),
            chosen,
            cell(starts, o),
            cell(delays, o),
        )?;
    }
    Ok(())
}
