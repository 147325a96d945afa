// What placing asks of a job, as tables that the functions of this crate borrow.
ghost use Rattle.std.specs.Prelude.{◌≡◌, ◌<◌, ◌≤◌};
ghost use Rattle.sheets.specs.Limits.{max_steps, op_cells, inst_cells};
ghost use Rattle.rules.specs.Model.{inst_count};
ghost use Rattle.placing.specs.Board.{last_start, last_table, nearer as nearer_of, nearest as nearest_of, near_table, board_of};

use crate::Board;
use basics::{cell, cells};
use rules::model::{UNIT_CELLS, inst_count, tables_of, types_in};
use sheets::Job;
use sheets::limits::*;

/// A cell for every x up to OP_CELLS.
pub const NEAR_CELLS: usize = OP_CELLS + 1;

/// A row of them for each operation.
pub const NEAR_TABLE: usize = NEAR_CELLS * OP_CELLS;

// The last step in which an operation of so much time and delay can start; 0 where it never can.
#[tactic(auto, unfolding(crate::specs::Board::last_start, basics::specs::Counting::only))]
fn last_start(t: u16, time: u16, delay: u16) -> u16
    requires { t ≤ max_steps }
    ensures { result ≡ last_start t time delay }
{
    if time == 0 {
        0
    } else {
        (t + 1).saturating_sub(delay)
    }
}

// The same for every operation on every instance.
fn lasts_in(t: u16, times: &[u16], delays: &[u16]) -> [u16; UNIT_CELLS]
    requires { t ≤ max_steps }
    ensures { result ≡ last_table t times.now delays.now }
{
    std::array::from_fn(|c| last_start(t, cell(times, c), cell(delays, c)))
}

// A link joins a and y: y where a is o and y is from x on and before `far`, else that.
#[tactic(auto, unfolding(crate::specs::Board::nearer, crate::specs::Board::nearer_if))]
fn nearer(o: usize, x: usize, far: u16, a: u16, y: u16) -> u16
    ensures { result ≡ nearer_of o x far a y }
{
    // `&`: links come in any order, and a branch on each would be guessed wrongly
    if (a as usize == o) & (x <= y as usize) & (y < far) {
        y
    } else {
        far
    }
}

// The first operation from x on that one of e links joins to operation o.
#[tactic(auto, unfolding(crate::specs::Board::nearest))]
fn nearest(from: &[u16], to: &[u16], o: usize, x: usize, e: u16) -> u16
    ensures { result ≡ nearest_of from.now to.now o x e }
{
    let mut far = MAX_OPS;
    for l in 0..e as usize {
        let a = cell(from, l);
        let b = cell(to, l);
        far = nearer(o, x, nearer(o, x, far, a, b), b, a);
    }
    far
}

// The same for each of n operations and every x.
fn near_in(from: &[u16], to: &[u16], e: u16, n: u16) -> [u16; NEAR_TABLE]
    requires { n ≤ op_cells }
    ensures { result ≡ near_table from.now to.now e n }
{
    cells(
        NEAR_CELLS * n as usize,
        |c| nearest(from, to, c / NEAR_CELLS, c % NEAR_CELLS, e),
    )
}

/// The board of a job within these limits, as every job read is.
#[tactic(auto, unfolding(crate::specs::Board::board_of, rules::specs::Model::tables_of))]
pub fn board_of(job: &Job) -> Board
    requires { let j = job.now in (j.n ≤ op_cells) × (inst_count j ≤ inst_cells) × (j.t ≤ max_steps) }
    ensures { result ≡ board_of job.now }
{
    let insts = inst_count(&job.copies, job.m);
    let types = types_in(&job.copies, job.m);
    let near = near_in(&job.from, &job.to, job.e, job.n);
    let tables = tables_of(job);
    let lasts = lasts_in(job.t, &tables.times, &tables.delays);
    Board {
        n: job.n,
        k: insts as u16,
        t: job.t,
        e: job.e,
        wire: job.wire,
        clock: job.clock,
        from: job.from,
        to: job.to,
        types,
        costs: job.costs,
        times: tables.times,
        delays: tables.delays,
        spacings: tables.spacings,
        lasts,
        near,
    }
}
