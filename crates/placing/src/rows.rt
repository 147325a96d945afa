// Rows placed so far on a board: placed and taken back.
ghost use Rattle.std.specs.Prelude.{◌≡◌, ◌<◌, ◌≤◌, ◌^◌, set, replicate};
ghost use Rattle.basics.specs.Tables.{cell};
ghost use Rattle.sheets.specs.Limits.{op_cells, inst_cells, type_cells, max_insts};
ghost use Rattle.placing.specs.Costing.{lowered};
ghost use Rattle.placing.specs.Options.{none};
ghost use Rattle.placing.specs.Ready.{placing_of};

use crate::Board;
use sheets::limits::*;

/// Each operation's start (0: not placed) and instance, and of each type the lowest instance in use.
// Two tables and no table of rows: a plan's record, which C reads, has them so.
#[derive(Clone, Copy)]
pub struct Rows {
    pub starts: [u16; OP_CELLS],
    pub insts: [u16; OP_CELLS],
    pub lows: [u16; TYPE_CELLS], // none in use: MAX_INSTS
}

/// What stands in one operation's row.
#[derive(Clone, Copy)]
pub struct Row {
    pub start: u16,
    pub inst: u16,
}

impl Rows {
    /// Nothing placed.
    pub fn none() -> Rows
        ensures rows { placing_of result ≡ none }
        ensures lows { result.lows ≡ replicate type_cells max_insts }
    {
        Rows {
            starts: [0; OP_CELLS],
            insts: [0; OP_CELLS],
            lows: [MAX_INSTS; TYPE_CELLS],
        }
    }

    /// Instance i is in use too. Tells its type's lowest instance before.
    #[inline]
    pub fn lower(&mut self, board: &Board, i: usize) -> u16
        requires { (i < inst_cells) × (cell board.now.types i < type_cells) }
        ensures was { result ≡ cell self.old.lows (cell board.now.types i) }
        ensures rows { self.new ≡ record self.old { lows = lowered board.now.types self.old.lows i } }
    {
        let y = board.types[i] as usize;
        let low = self.lows[y];
        self.lows[y] = low.min(i as u16);
        low
    }

    /// The lowest instance of instance i's type is `low` again.
    #[inline]
    pub fn raise(&mut self, board: &Board, i: usize, low: u16)
        requires { (i < inst_cells) × (cell board.now.types i < type_cells) }
        ensures { self.new ≡ record self.old { lows = set self.old.lows (cell board.now.types i) low } }
    {
        self.lows[board.types[i] as usize] = low;
    }

    /// Operation op is placed at step s on instance i. Tells what stood there.
    #[inline]
    pub fn place(&mut self, op: usize, s: u16, i: usize) -> Row
        requires { (op < op_cells) × (i < 2 ^ 16) }
        ensures was { result ≡ record { start = cell self.old.starts op; inst = cell self.old.insts op } }
        ensures rows { self.new ≡ record self.old { starts = set self.old.starts op s; insts = set self.old.insts op i } }
    {
        let was = Row {
            start: self.starts[op],
            inst: self.insts[op],
        };
        self.starts[op] = s;
        self.insts[op] = i as u16;
        was
    }

    /// What stood in operation op's row stands there again.
    #[inline]
    pub fn take_back(&mut self, op: usize, was: Row)
        requires { op < op_cells }
        ensures { self.new ≡ record self.old { starts = set self.old.starts op was.start; insts = set self.old.insts op was.inst } }
    {
        self.starts[op] = was.start;
        self.insts[op] = was.inst;
    }
}
