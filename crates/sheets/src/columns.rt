// Tables read out of a sheet's fields, and put into them.
ghost use Rattle.std.specs.Prelude.{◌≡◌, ℕ, ◌+◌, ◌*◌, ◌^◌, ◌≤◌, ◌<◌, length};
ghost use Rattle.basics.specs.Tables.{cell, filled, cells};
ghost use Rattle.bits.specs.Sheet.{many, put_all};
ghost use Rattle.sheets.specs.Columns.{InReach, column_at, pair_at, single, double};
ghost use Rattle.sheets.specs.Limits.{pair_cells};

use crate::limits::*;

// Where a column begins, and how many cells it has, is asked in each contract: they are numbers made of a sheet's counts.
/// Reads `count` fields of `width` bits into the first cells of a table: the first at bit `at`, each `stride` bits behind the one
/// before. The other cells stay.
pub fn fill_column(
    s: &[u8],
    at: usize,
    stride: usize,
    width: usize,
    count: usize,
    table: &mut [u16],
)
    requires reach { InReach at stride width }
    requires few { count ≤ 64 }
    requires room { count ≤ length table.old }
    ensures { table.new ≡ filled table.old (column_at s.now at stride width) count }
{
    for i in 0..count {
        table[i] = bits::field(s, at + stride * i, width) as u16;
    }
}

/// A table of `count` fields of `width` bits, the first at bit `at`, each `stride` bits behind the one before; cells that
/// are not read are 0.
pub fn column<const N: usize>(
    s: &[u8],
    at: usize,
    stride: usize,
    width: usize,
    count: usize,
) -> [u16; N]
    requires reach { InReach at stride width }
    requires few { count ≤ 64 }
    requires small { N < 2 ^ 16 }
    ensures { result ≡ cells (column_at s.now at stride width) count N }
{
    let mut table = [0; N];
    fill_column(s, at, stride, width, count.min(N), &mut table);
    table
}

// No `column`: its fields do not stand at one stride.
/// Times or intervals: cell c is that of kind c % KIND_COUNT at type c / KIND_COUNT, and the first stands at bit `at`.
pub fn pair_column(s: &[u8], at: usize, count: usize) -> [u16; PAIR_CELLS]
    requires near { at < 2 ^ 24 }
    requires few { count ≤ pair_cells }
    ensures { result ≡ cells (pair_at s.now at) count pair_cells }
{
    basics::cells(count, |c| {
        bits::field(
            s,
            at + TYPE_BITS * (c / KIND_COUNT) + PAIR_BITS * (c % KIND_COUNT),
            TIME_BITS,
        ) as u16
    })
}

/// Puts the first `count` cells of a table from bit `at` on, `width` bits for each.
#[tactic(auto, using(crate::proofs::ColumnLaws::put_laws))]
pub fn put_singles(out: &mut [u8], at: usize, width: usize, table: &[u16], count: usize)
    requires near { at < 2 ^ 24 }
    requires narrow { width ≤ 16 }
    requires few { count ≤ 64 }
    requires room { at + width * count ≤ 8 * length out.old }
    requires fit { (i : ℕ) → i < count → cell table.now i < 2 ^ width }
    ensures { out.new ≡ put_all out.old at (many (single width table.now) count) }
{
    for i in 0..count {
        bits::put(out, at + width * i, width, basics::cell(table, i) as u32);
    }
}

// One function for one table or for two would be handed each cell's fields by a closure, which is no plainer.
/// Puts `count` cells of two tables from their cell `first` on, one of each after the other, from bit `at` on: `width` bits for
/// the one, `width2` for the other.
#[tactic(auto, using(crate::proofs::ColumnLaws::put_laws))]
pub fn put_doubles(
    out: &mut [u8],
    at: usize,
    width: usize,
    table: &[u16],
    width2: usize,
    table2: &[u16],
    first: usize,
    count: usize,
)
    requires near { at < 2 ^ 24 }
    requires narrow { width ≤ 16 }
    requires narrow2 { width2 ≤ 16 }
    requires early { first < 2 ^ 16 }
    requires few { count ≤ 64 }
    requires room { at + (width + width2) * count ≤ 8 * length out.old }
    requires fit { (i : ℕ) → i < count → cell table.now (first + i) < 2 ^ width }
    requires fit2 { (i : ℕ) → i < count → cell table2.now (first + i) < 2 ^ width2 }
    ensures { out.new ≡ put_all out.old at (many (double width table.now width2 table2.now first) count) }
{
    for i in 0..count {
        let here = at + (width + width2) * i;
        bits::put(out, here, width, basics::cell(table, first + i) as u32);
        bits::put(
            out,
            here + width,
            width2,
            basics::cell(table2, first + i) as u32,
        );
    }
}
