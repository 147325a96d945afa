// What a job says of its instances, and of an operation on one.
ghost use Rattle.std.specs.Prelude.{◌≡◌, ◌<◌, ◌^◌, length};
ghost use Rattle.basics.specs.Counting.{sum_to};
ghost use Rattle.basics.specs.Tables.{cell as cell_of, cells};
ghost use Rattle.rules.specs.Model.{type_at, types_in, span_of, in_steps, steps_at, row_table, timing_in, unit_table, tables_of};

use crate::{Tables, Timing};
use basics::cell;
use sheets::Job;
use sheets::limits::*;
use std::array::from_fn;

/// Cells of a table of every operation on every instance.
pub const UNIT_CELLS: usize = OP_CELLS * INST_CELLS;

/// How many instances m types have.
pub fn inst_count(copies: &[u16], m: u16) -> usize
    ensures { result ≡ sum_to (cell_of copies.now) m }
{
    (0..m as usize).map(|y| cell(copies, y) as usize).sum()
}

// Copies and the number of types, and not a job: the definitions take them so, and judge and board have them from one.
// The type of instance i: how many types it is behind.
#[tactic(auto, using(crate::proofs::ModelLaws::type_laws))]
fn type_at(copies: &[u16], m: u16, i: usize) -> u16
    ensures { (result ≡ type_at copies.now m i) × (result < 2 ^ 16) }
{
    let mut counted: usize = 0;
    let mut behind: u16 = 0;
    for y in 0..m as usize {
        counted += cell(copies, y) as usize;
        if counted <= i {
            behind += 1;
        }
    }
    behind
}

/// The types of all instances.
pub fn types_in(copies: &[u16], m: u16) -> [u16; INST_CELLS]
    ensures { result ≡ types_in copies.now m }
{
    from_fn(|i| type_at(copies, m, i))
}

/// A span of ns in steps of the clock, rounded up; 0 where the clock is 0.
#[tactic(auto, using(crate::proofs::ModelLaws::steps_laws))]
pub fn in_steps(clock: u16, span: u16) -> u16
    ensures { (result ≡ in_steps clock span) × (result < 2 ^ 16) }
{
    if clock == 0 { 0 } else { span.div_ceil(clock) }
}

// What operation o takes on instance i, out of times or intervals.
fn span_of(types: &[u16], kinds: &[u16], pairs: &[u16], o: usize, i: usize) -> u16
    ensures { (result ≡ span_of types.now kinds.now pairs.now o i) × (result < 2 ^ 16) }
{
    let y = cell(types, i) as usize;
    cell(pairs, KIND_COUNT * y + cell(kinds, o) as usize)
}

// The same for each operation on its instance.
fn row_spans(types: &[u16], kinds: &[u16], pairs: &[u16], insts: &[u16]) -> [u16; OP_CELLS]
    ensures { result ≡ row_table (span_of types.now kinds.now pairs.now) insts.now }
{
    from_fn(|o| span_of(types, kinds, pairs, o, cell(insts, o) as usize))
}

// Tables of any length and no job, as the definitions have it.
/// What each operation takes on its instance: times, delays and spacings.
pub fn timing_in(
    types: &[u16],
    clock: u16,
    kinds: &[u16],
    times: &[u16],
    intervals: &[u16],
    insts: &[u16],
) -> Timing
    ensures { result ≡ timing_in types.now clock kinds.now times.now intervals.now insts.now }
{
    let times = row_spans(types, kinds, times, insts);
    let intervals = row_spans(types, kinds, intervals, insts);
    Timing {
        times,
        delays: from_fn(|o| in_steps(clock, times[o])),
        spacings: from_fn(|o| in_steps(clock, intervals[o])),
    }
}

// Beside row_spans: its cells are other pairs of operation and instance, and one function for both would take a closure that tells them.
// What each operation takes on each instance, out of times or intervals, or of either in steps.
fn unit_spans(types: &[u16], kinds: &[u16], pairs: &[u16]) -> [u16; UNIT_CELLS]
    ensures { result ≡ unit_table (span_of types.now kinds.now pairs.now) }
{
    from_fn(|c| span_of(types, kinds, pairs, c / INST_CELLS, c % INST_CELLS))
}

/// What each operation takes on each instance, for search and notes to borrow.
pub fn tables_of(job: &Job) -> Tables
    ensures { result ≡ tables_of job.now }
{
    let types = types_in(&job.copies, job.m);
    let delays: [u16; PAIR_CELLS] = from_fn(|p| in_steps(job.clock, job.times[p]));
    let spacings: [u16; PAIR_CELLS] = from_fn(|p| in_steps(job.clock, job.intervals[p]));
    Tables {
        times: unit_spans(&types, &job.kinds, &job.times),
        delays: unit_spans(&types, &job.kinds, &delays),
        spacings: unit_spans(&types, &job.kinds, &spacings),
    }
}
