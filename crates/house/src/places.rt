// The house tree, written place by place: a mark, and then the children of a split, each child again a place.
ghost use Rattle.std.specs.Prelude.{◌≡◌, ◌+◌, ◌-◌, ◌*◌, ◌<◌, ◌≤◌, ◌^◌, length};
ghost use Rattle.bits.specs.Sheet.{put_all};
ghost use Rattle.placing.specs.Closing.{in_turn, split_on};
ghost use Rattle.placing.specs.Options.{put as put_row};
ghost use Rattle.placing.specs.Ready.{placing_of, option_at, Ready, Places};
ghost use Rattle.notes.specs.NoteSheet.{split_mark, split_bits, max_note};
ghost use Rattle.house.specs.Writing.{draft, write_at, InOrder, Drafts};

use basics::Fault;
use bits::put;
use notes::limits::{MARK_BITS, SPLIT_BITS};
use notes::reading::closed_if;
use placing::closing::allowed;
use placing::rows::Rows;
use placing::{Board, Claim};

// What stays the same along a tree that is written.
#[derive(Clone, Copy)]
pub(crate) struct Writer<'a> {
    pub(crate) board: &'a Board,
    pub(crate) claim: Claim,
    pub(crate) room: usize, // in bits
    ghost fits: { room ≤ 8 * max_note },
}

// Writes a split on operation op.
fn put_split(sheet: &mut [u8], at: usize, op: usize)
    requires { (at + 1 + split_bits ≤ 8 * length sheet.old) × (op < 2 ^ split_bits) × (at < 2 ^ 32) }
    ensures { sheet.new ≡ put_all sheet.old at (split_mark split_bits op) }
{
    put(sheet, at, MARK_BITS, 1);
    put(sheet, at + MARK_BITS, SPLIT_BITS, op as u32);
}

impl Writer<'_> {
    // An option is three numbers, as Board::fits takes it.
    // Writes the option of operation op, the lowest unplaced, at step s on instance i, which is live and so a place of its own. One
    // that is closed at once is not placed.
    #[cycle(child_children_place)]
    fn child(
        &self,
        rows: &mut Rows,
        sheet: &mut [u8],
        at: usize,
        op: usize,
        here: u32,
        s: u16,
        i: usize,
    ) -> Result<usize, Fault>
        requires places { Places self.now.board.now op op (placing_of rows.old) rows.old.lows here s i }
        requires order { InOrder (placing_of rows.old) op }
        requires room { (at ≤ self.now.room) × (self.now.room ≤ 8 * length sheet.old) }
        ensures drafts { let w = self.now in Drafts w.room
            (write_at w.room split_bits w.board.now w.claim (w.board.now.n - (op + 1)) (put_row (placing_of rows.old) op (option_at s i)) (draft sheet.old at))
            result sheet.old sheet.new }
        ensures same { rows.new ≡ rows.old }
    {
        let board = self.board;
        let low = rows.lower(board, i);
        let cost = board.cost_with(rows, here, low, i);
        if allowed(self.claim, cost) && op + 1 < board.n as usize && at < self.room {
            put(sheet, at, MARK_BITS, 0);
            rows.raise(board, i, low);
            return Ok(at + MARK_BITS);
        }
        let was = rows.place(op, s, i);
        let end = self.place(rows, sheet, at, op + 1, cost);
        rows.take_back(op, was);
        rows.raise(board, i, low);
        end
    }

    // The two loops of the reader again, and of the walk: one for all would take a closure that changes rows and sheet.
    // Writes the children of a split on operation op, the lowest unplaced: a place for each option that is live.
    #[cycle(child_children_place)]
    fn children(
        &self,
        rows: &mut Rows,
        sheet: &mut [u8],
        at: usize,
        op: usize,
        here: u32,
    ) -> Result<usize, Fault>
        requires ready { Ready self.now.board.now op (placing_of rows.old) rows.old.lows here }
        requires more { op < self.now.board.now.n }
        requires order { InOrder (placing_of rows.old) op }
        requires room { (at ≤ self.now.room) × (self.now.room ≤ 8 * length sheet.old) }
        ensures drafts { let w = self.now in Drafts w.room
            (in_turn (write_at w.room split_bits w.board.now w.claim (w.board.now.n - (op + 1))) (split_on w.board.now (placing_of rows.old) op) (draft sheet.old at))
            result sheet.old sheet.new }
        ensures same { rows.new ≡ rows.old }
    {
        let board = self.board;
        let mut next = at;
        let first = board.first_start(rows, op);
        for s in first..=board.t as u32 {
            for i in 0..board.k as usize {
                if !board.fits(rows, first < s, op, op, s as u16, i) {
                    continue;
                }
                next = self.child(rows, sheet, next, op, here, s as u16, i)?;
            }
        }
        Ok(next)
    }

    // What is asked of rows and of the bit changes from place to place, so it stands in each contract and not in a type.
    // Writes a place at a bit of the sheet, where the operations before op are placed: a mark, and then the children of a split on op.
    #[cycle(child_children_place)]
    pub(crate) fn place(
        &self,
        rows: &mut Rows,
        sheet: &mut [u8],
        at: usize,
        op: usize,
        here: u32,
    ) -> Result<usize, Fault>
        requires ready { Ready self.now.board.now op (placing_of rows.old) rows.old.lows here }
        requires order { InOrder (placing_of rows.old) op }
        requires room { (at ≤ self.now.room) × (self.now.room ≤ 8 * length sheet.old) }
        ensures drafts { let w = self.now in Drafts w.room
            (write_at w.room split_bits w.board.now w.claim (w.board.now.n - op) (placing_of rows.old) (draft sheet.old at))
            result sheet.old sheet.new }
        ensures same { rows.new ≡ rows.old }
    {
        let may = allowed(self.claim, here);
        if op == self.board.n as usize {
            return closed_if(may, Fault::Cheaper, at);
        }
        if may {
            if self.room < at + MARK_BITS {
                return Err(Fault::OutputShort);
            }
            put(sheet, at, MARK_BITS, 0);
            return Ok(at + MARK_BITS);
        }
        if self.room < at + MARK_BITS + SPLIT_BITS {
            return Err(Fault::OutputShort);
        }
        put_split(sheet, at, op);
        self.children(rows, sheet, at + MARK_BITS + SPLIT_BITS, op, here)
    }
}
