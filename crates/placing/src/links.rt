// The operations that a link joins to one of them, one after another.
ghost use Rattle.std.specs.Prelude.{◌≡◌, ◌<◌, ◌≤◌};
ghost use Rattle.sheets.specs.Limits.{op_cells};
ghost use Rattle.placing.specs.Board.{near_of, Leads};

use crate::boards::{NEAR_CELLS, NEAR_TABLE};

// Those from `from` on and below `reach` that a link joins to operation op, ascending.
#[derive(Drop)]
pub(crate) struct Linked<'a> {
    near: &'a [u16; NEAR_TABLE],
    op: usize,
    from: usize,
    reach: usize,
    ghost few_ops: { op < op_cells },
    ghost begins: { from ≤ op_cells },
    ghost ends: { reach ≤ op_cells },
    ghost leads: { Leads near.now op },
}

impl Iterator for Linked<'_> {
    type Item = usize;

    ghost use Rattle.std.specs.Iterator.{YieldsFirst, item_count};
    ghost use Rattle.placing.specs.Linked.{linked_left};

    ghost next_gives = { YieldsFirst linked_left };

    ghost remaining = { item_count linked_left };

    #[inline]
    fn next(&mut self) -> Option<usize> {
        let o = near_at(self.near, self.op, self.from);
        if o < self.reach {
            self.from = o + 1;
            Some(o)
        } else {
            None
        }
    }
}

impl<'a> Linked<'a> {
    ghost use Rattle.placing.specs.Linked.{linked_from, linked_left};

    // Those below `reach` that a link joins to operation op.
    #[inline]
    pub(crate) fn below(near: &'a [u16; NEAR_TABLE], op: usize, reach: usize) -> Linked<'a>
        requires { (reach ≤ op_cells) × (op < op_cells) × Leads near.now op }
        ensures { linked_left result ≡ linked_from near.now op 0 reach }
    {
        Linked {
            near,
            op,
            from: 0,
            reach,
        }
    }
}

// The first operation from x on that a link joins to operation o.
fn near_at(near: &[u16; NEAR_TABLE], o: usize, x: usize) -> usize
    requires { (o < op_cells) × (x ≤ op_cells) }
    ensures { result ≡ near_of near.now o x }
{
    near[NEAR_CELLS * o + x] as usize
}
