// One more row, operation op at step s on instance i, against rows placed before, all of them below `reach`. That these are within
// the tables is asked in each contract: loops count in them, so they are numbers and no types.
// The functions take a board's tables and its rows' one by one, as the definitions do, and those of links and of units at any length; a
// Board has them as methods.
ghost use Rattle.std.specs.Prelude.{◌≡◌, ◌<◌, ◌≤◌, ◌^◌};
ghost use Rattle.sheets.specs.Limits.{op_cells};
ghost use Rattle.rules.specs.Model.{row_table};
ghost use Rattle.placing.specs.Board.{unit, Leads};
ghost use Rattle.placing.specs.Fitting.{in_turn, pair_ok, links_fit, share_fits, shares_fit, chained as chained_in, chains_fit, end_of, free_at, links_hold, fits as fits_in, first_start, fits_on, free_on, links_on, first_on};
ghost use Rattle.placing.specs.Ready.{placing_of};

use crate::Board;
use crate::boards::NEAR_TABLE;
use crate::links::Linked;
use crate::rows::Rows;
use basics::cell;
use rules::chains::chains_ok;
use rules::precedence::precedes;
use rules::resource::spaced;
use rules::rows::finish;
use sheets::limits::*;

impl Board {
    // `settled` is a switch: links that were settled for one start are for the next.
    // An option is three numbers, op, s and i, as the loops over options have them: a struct would be made for each, and taken apart here.
    // Not by `fits` of tables, which would bring the loops over links into those over options.
    /// Operation op can be placed at step s on instance i. Where its links are settled, because those that they join to it end
    /// before that step, they are not asked.
    #[inline]
    #[tactic(auto, unfolding(crate::specs::Fitting::fits))]
    pub fn fits(
        &self,
        rows: &Rows,
        settled: bool,
        reach: usize,
        op: usize,
        s: u16,
        i: usize,
    ) -> bool
        requires { (reach ≤ op_cells) × (op < op_cells) × (i < 2 ^ 16) × Leads self.now.near op }
        ensures { result ≡ fits_on self.now (placing_of rows.now) settled reach op s i }
    {
        self.free_at(rows, reach, op, s, i) && (settled || self.links_hold(rows, reach, op, s, i))
    }

    /// Operation op is done in time if it starts at step s on instance i, and the instance is free then.
    #[inline]
    pub fn free_at(&self, rows: &Rows, reach: usize, op: usize, s: u16, i: usize) -> bool
        requires { (reach ≤ op_cells) × (op < op_cells) × (i < 2 ^ 16) }
        ensures { result ≡ free_on self.now (placing_of rows.now) reach op s i }
    {
        free_at(
            &self.spacings,
            &self.lasts,
            &rows.starts,
            &rows.insts,
            reach,
            op,
            s,
            i,
        )
    }

    /// Precedence and chains hold if operation op starts at step s on instance i.
    // out of line: most options are not free, and their loops stay small
    #[inline(never)]
    pub fn links_hold(&self, rows: &Rows, reach: usize, op: usize, s: u16, i: usize) -> bool
        requires { (reach ≤ op_cells) × (op < op_cells) × (i < 2 ^ 16) × Leads self.now.near op }
        ensures { result ≡ links_on self.now (placing_of rows.now) reach op s i }
    {
        links_hold(
            &self.from,
            &self.to,
            self.e,
            self.wire,
            self.clock,
            &self.times,
            &self.delays,
            &self.near,
            &rows.starts,
            &rows.insts,
            reach,
            op,
            s,
            i,
        )
    }

    /// A step before which operation op cannot start: the latest end of those before it that a link joins to it, at least 1.
    pub fn first_start(&self, rows: &Rows, op: usize) -> u32
        requires { (op < op_cells) × Leads self.now.near op }
        ensures { result ≡ first_on self.now (placing_of rows.now) op }
    {
        first_start(&self.delays, &self.near, &rows.starts, &rows.insts, op)
    }
}

/// What `Board::fits` answers, of tables.
#[inline]
#[tactic(auto, unfolding(crate::specs::Fitting::fits))]
pub fn fits(
    from: &[u16],
    to: &[u16],
    e: u16,
    wire: u16,
    clock: u16,
    times: &[u16],
    delays: &[u16],
    spacings: &[u16],
    lasts: &[u16],
    near: &[u16; NEAR_TABLE],
    starts: &[u16; OP_CELLS],
    insts: &[u16; OP_CELLS],
    settled: bool,
    reach: usize,
    op: usize,
    s: u16,
    i: usize,
) -> bool
    requires { (reach ≤ op_cells) × (op < op_cells) × (i < 2 ^ 16) × Leads near.now op }
    ensures { result ≡ fits_in from.now to.now e wire clock times.now delays.now spacings.now lasts.now near.now starts.now insts.now settled reach op s i }
{
    free_at(spacings, lasts, starts, insts, reach, op, s, i)
        && (settled
            || links_hold(
                from, to, e, wire, clock, times, delays, near, starts, insts, reach, op, s, i,
            ))
}

/// What `Board::free_at` answers, of tables.
#[inline]
pub fn free_at(
    spacings: &[u16],
    lasts: &[u16],
    starts: &[u16; OP_CELLS],
    insts: &[u16; OP_CELLS],
    reach: usize,
    op: usize,
    s: u16,
    i: usize,
) -> bool
    requires { (reach ≤ op_cells) × (op < op_cells) × (i < 2 ^ 16) }
    ensures { result ≡ free_at spacings.now lasts.now starts.now insts.now reach op s i }
{
    s <= unit_at(lasts, op, i)
        && shares_fit(
            spacings,
            starts,
            insts,
            reach,
            s,
            i,
            unit_at(spacings, op, i),
        )
}

/// What `Board::links_hold` answers, of tables.
#[inline]
pub fn links_hold(
    from: &[u16],
    to: &[u16],
    e: u16,
    wire: u16,
    clock: u16,
    times: &[u16],
    delays: &[u16],
    near: &[u16; NEAR_TABLE],
    starts: &[u16; OP_CELLS],
    insts: &[u16; OP_CELLS],
    reach: usize,
    op: usize,
    s: u16,
    i: usize,
) -> bool
    requires { (reach ≤ op_cells) × (op < op_cells) × (i < 2 ^ 16) × Leads near.now op }
    ensures { result ≡ links_hold from.now to.now e wire clock times.now delays.now near.now starts.now insts.now reach op s i }
{
    let time = unit_at(times, op, i);
    let delay = unit_at(delays, op, i);
    links_fit(
        times, delays, near, starts, insts, wire, clock, reach, op, s, time, delay,
    ) && (!chained(near, starts, reach, op, s)
        || chains_fit(from, to, e, wire, clock, times, starts, insts, op, s, time))
}

/// What `Board::first_start` answers, of tables.
#[inline]
pub fn first_start(
    delays: &[u16],
    near: &[u16; NEAR_TABLE],
    starts: &[u16; OP_CELLS],
    insts: &[u16; OP_CELLS],
    op: usize,
) -> u32
    requires { (op < op_cells) × Leads near.now op }
    ensures { result ≡ first_start delays.now near.now starts.now insts.now op op }
{
    let mut first: u32 = 1;
    for o in Linked::below(near, op, op) {
        first = first.max(end_of(delays, starts, insts, o));
    }
    first
}

// Operation o on instance i, in a table over both.
fn unit_at(table: &[u16], o: usize, i: usize) -> u16
    requires { (o < op_cells) × (i < 2 ^ 16) }
    ensures { (result ≡ unit table.now o i) × (result < 2 ^ 16) }
{
    cell(table, INST_CELLS * o + i)
}

// Each operation that a link joins to op is in turn, and in one step with it within the clock.
#[inline]
fn links_fit(
    times: &[u16],
    delays: &[u16],
    near: &[u16; NEAR_TABLE],
    starts: &[u16; OP_CELLS],
    insts: &[u16; OP_CELLS],
    wire: u16,
    clock: u16,
    reach: usize,
    op: usize,
    s: u16,
    time: u16,
    delay: u16,
) -> bool
    requires { (reach ≤ op_cells) × (op < op_cells) × Leads near.now op }
    ensures { result ≡ links_fit times.now delays.now near.now starts.now insts.now wire clock reach op s time delay }
{
    Linked::below(near, op, reach).all(|o| in_turn(delays, starts, insts, op, s, delay, o)
        && pair_ok(times, starts, insts, wire, clock, s, time, o))
}

// Operation o, which a link joins to op, is not placed, or the earlier of the two precedes the other.
#[inline]
#[tactic(auto, unfolding(crate::specs::Fitting::in_turn, crate::specs::Fitting::in_turn_if))]
fn in_turn(
    delays: &[u16],
    starts: &[u16; OP_CELLS],
    insts: &[u16; OP_CELLS],
    op: usize,
    s: u16,
    delay: u16,
    o: usize,
) -> bool
    requires { o < op_cells }
    ensures { result ≡ in_turn delays.now starts.now insts.now op s delay o }
{
    let start = starts[o];
    if start == 0 {
        return true;
    }
    let other = unit_at(delays, o, insts[o] as usize);
    if o < op {
        precedes(start, other, s, delay)
    } else {
        precedes(s, delay, start, other)
    }
}

// Operation o is not in step s, or the run of the two is within the clock.
#[inline]
#[tactic(auto, unfolding(crate::specs::Fitting::pair_ok))]
fn pair_ok(
    times: &[u16],
    starts: &[u16; OP_CELLS],
    insts: &[u16; OP_CELLS],
    wire: u16,
    clock: u16,
    s: u16,
    time: u16,
    o: usize,
) -> bool
    requires { o < op_cells }
    ensures { result ≡ pair_ok times.now starts.now insts.now wire clock s time o }
{
    let other = unit_at(times, o, insts[o] as usize);
    starts[o] != s || time as u32 + wire as u32 + other as u32 <= clock as u32
}

// An operation that a link joins to op is placed in step s.
#[inline]
fn chained(
    near: &[u16; NEAR_TABLE],
    starts: &[u16; OP_CELLS],
    reach: usize,
    op: usize,
    s: u16,
) -> bool
    requires { (reach ≤ op_cells) × (op < op_cells) × Leads near.now op }
    ensures { result ≡ chained_in near.now starts.now reach op s }
{
    Linked::below(near, op, reach).any(|o| starts[o] == s)
}

// The rule on chains, with operation op of so much time in step s.
#[tactic(auto, unfolding(crate::specs::Fitting::chains_fit))]
fn chains_fit(
    from: &[u16],
    to: &[u16],
    e: u16,
    wire: u16,
    clock: u16,
    times: &[u16],
    starts: &[u16; OP_CELLS],
    insts: &[u16; OP_CELLS],
    op: usize,
    s: u16,
    time: u16,
) -> bool
    requires { op < op_cells }
    ensures { result ≡ chains_fit from.now to.now e wire clock times.now starts.now insts.now op s time }
{
    let mut with = *starts;
    with[op] = s;
    let mut row_times = times_in(times, insts);
    row_times[op] = time;
    chains_ok(from, to, e, wire, clock, &with, &row_times)
}

// Each operation's time on its instance.
fn times_in(times: &[u16], insts: &[u16; OP_CELLS]) -> [u16; OP_CELLS]
    ensures { result ≡ row_table (unit times.now) insts.now }
{
    std::array::from_fn(|o| unit_at(times, o, insts[o] as usize))
}

// Each operation placed on instance i starts apart from step s.
#[inline]
fn shares_fit(
    spacings: &[u16],
    starts: &[u16; OP_CELLS],
    insts: &[u16; OP_CELLS],
    reach: usize,
    s: u16,
    i: usize,
    spacing: u16,
) -> bool
    requires { (reach ≤ op_cells) × (i < 2 ^ 16) }
    ensures { result ≡ shares_fit spacings.now starts.now insts.now reach s i spacing }
{
    (0..reach).all(|o| share_fits(spacings, starts, insts, s, i, spacing, o))
}

// Operation o is not on instance i, not placed, or starts apart from s.
#[inline]
#[tactic(auto, unfolding(crate::specs::Fitting::share_fits, rules::specs::Rules::apart))]
fn share_fits(
    spacings: &[u16],
    starts: &[u16; OP_CELLS],
    insts: &[u16; OP_CELLS],
    s: u16,
    i: usize,
    spacing: u16,
    o: usize,
) -> bool
    requires { (o < op_cells) × (i < 2 ^ 16) }
    ensures { result ≡ share_fits spacings.now starts.now insts.now s i spacing o }
{
    if insts[o] as usize != i {
        return true;
    }
    let start = starts[o];
    start == 0 || spaced(s, spacing, start) | spaced(start, unit_at(spacings, o, i), s)
}

// The step in which operation o ends, not before its start; 0 where it is not placed.
#[tactic(auto, unfolding(crate::specs::Fitting::end_of, basics::specs::Counting::only))]
fn end_of(delays: &[u16], starts: &[u16; OP_CELLS], insts: &[u16; OP_CELLS], o: usize) -> u32
    requires { o < op_cells }
    ensures { result ≡ end_of delays.now starts.now insts.now o }
{
    let start = starts[o];
    if start == 0 {
        return 0;
    }
    let delay = unit_at(delays, o, insts[o] as usize);
    finish(start, delay).max(start as u32)
}
