// Tables of a record: one cell, a table made cell by cell, and what is asked of a table.
ghost use Rattle.std.specs.Prelude.{◌≡◌, ℕ, ◌<◌, ◌^◌};
ghost use Rattle.basics.specs.Tables.{cell as cell_of, within as within_of, blank as blank_of, HoldsCells};

/// Cell i of a table, and 0 past its end.
pub fn cell(table: &[u16], i: usize) -> u16
    ensures { (result ≡ cell_of table.now i) × (result < 65536) }
{
    table.get(i).copied().unwrap_or(0)
}

/// A table with f(0), f(1), .. in its first `count` cells, and 0 in the others.
pub fn cells<const N: usize, F: Fn(usize) -> u16>(count: usize, f: F) -> [u16; N]
    requires small { N < 2 ^ 16 }
    requires asked { (i : ℕ) → i < count → F.pre f i }
    ensures { HoldsCells (F.post f) count N result }
{
    let mut table = [0; N];
    for i in 0..count.min(N) {
        table[i] = f(i);
    }
    table
}

// These two go over every cell, where a chain would stop at the first that fails: so they are compiled into vector instructions.
/// The first n cells are at most the limit.
#[tactic(auto, using(crate::proofs::CountLaws::count_laws), unfolding(crate::specs::Tables::within))]
pub fn within(table: &[u16], limit: u16, n: usize) -> bool
    ensures { result ≡ within_of table.now limit n }
{
    let mut ok = true;
    for i in 0..table.len() {
        ok &= (n <= i) | (table[i] <= limit);
    }
    ok
}

/// The cells behind the first n are 0.
#[tactic(auto, using(crate::proofs::CountLaws::count_laws), unfolding(crate::specs::Tables::blank))]
pub fn blank(table: &[u16], n: usize) -> bool
    ensures { result ≡ blank_of table.now n }
{
    let mut ok = true;
    for i in 0..table.len() {
        ok &= (i < n) | (table[i] == 0);
    }
    ok
}
