// The tree of a note: a place is read as a mark and then its children, each child again a place.
ghost use Rattle.std.specs.Prelude.{◌≡◌, ◌+◌, ◌*◌, ◌<◌, ◌≤◌, ◌^◌, ◌||◌, true, length};
ghost use Rattle.basics.specs.Faults.{fault_in};
ghost use Rattle.placing.specs.Closing.{in_turn, unplaced as unplaced_in, choice, split_on};
ghost use Rattle.placing.specs.Board.{Leads};
ghost use Rattle.placing.specs.Fitting.{links_on};
ghost use Rattle.placing.specs.Options.{put};
ghost use Rattle.sheets.specs.Limits.{op_cells};
ghost use Rattle.placing.specs.Ready.{placing_of, option_at, Ready, Places};
ghost use Rattle.notes.specs.NoteSheet.{split_bits, max_note};
ghost use Rattle.notes.specs.Reading.{splits, closes, split_op, mark_fault, place_at, turn_of, closed_by};

use crate::limits::{MARK_BITS, SPLIT_BITS};
use basics::{Fault, unless};
use placing::closing::{allowed, unplaced};
use placing::rows::Rows;
use placing::{Board, Claim};
use sheets::groups::runs_out;

// Beside `unless`, which has no position to go on from; house closes its places by it too.
/// Closed before bit `at`, or refused by the fault where that is not allowed: a number, or whatever says why.
#[tactic(auto, unfolding(crate::specs::Reading::closed_by))]
pub fn closed_if<F: Copy>(may: bool, fault: F, at: usize) -> Result<usize, F>
    ensures { result ≡ closed_by may fault at }
{
    if may { Ok(at) } else { Err(fault) }
}

// That a bit is below 2^31 is asked where bits are read: these functions read of any bytes, and only a Reader's note is known to be short.
// The mark at a bit of the note splits.
fn splits_at(note: &[u8], at: usize) -> bool
    requires { at < 2 ^ 31 }
    ensures { result ≡ splits note.now at }
{
    bits::field(note, at, MARK_BITS) == 1
}

// The operation that it splits on.
fn split_op(note: &[u8], at: usize) -> usize
    requires { at < 2 ^ 31 }
    ensures { result ≡ split_op note.now split_bits at }
{
    bits::field(note, at + MARK_BITS, SPLIT_BITS) as usize
}

// The mark at a bit of the note is there, and closes.
fn closes_at(note: &[u8], at: usize) -> bool
    requires { at < 2 ^ 31 }
    ensures { result ≡ closes note.now at }
{
    runs_out(note.len(), at + MARK_BITS).is_ok() && !splits_at(note, at)
}

// A flag and a number, since the number's bits stand there whether the mark splits or not; an Option would be made and taken apart.
// The fault of the mark at a bit of the note, which splits or not, on operation op; n operations are placed by `starts`, and the
// place may be closed or not.
#[tactic(auto, using(basics::proofs::FaultLaws::fault_laws), unfolding(crate::specs::Reading::mark_fault, crate::specs::Reading::fault_if))]
fn mark_fault(
    note: &[u8],
    at: usize,
    may: bool,
    split: bool,
    op: usize,
    n: usize,
    starts: &[u16],
) -> Result<(), Fault>
    requires { (at < 2 ^ 31) × (split ≡ splits note.now at) × (op ≡ split_op note.now split_bits at) }
    ensures { fault_in result ≡ mark_fault note.now split_bits may (unplaced_in n starts.now) at }
{
    runs_out(note.len(), at + MARK_BITS)?;
    if !split {
        return unless(may, Fault::CloseBroken);
    }
    runs_out(note.len(), at + MARK_BITS + SPLIT_BITS)?;
    unless(unplaced(n, starts, op), Fault::SplitBroken)
}

// Links are settled, or hold.
fn links_kept(
    board: &Board,
    rows: &Rows,
    settled: bool,
    reach: usize,
    op: usize,
    s: u16,
    i: usize,
) -> bool
    requires { (reach ≤ op_cells) × (op < op_cells) × (i < 2 ^ 16) × Leads board.now.near op }
    ensures { result ≡ settled || links_on board.now (placing_of rows.now) reach op s i }
{
    settled || board.links_hold(rows, reach, op, s, i)
}

// What stays the same along a tree that is read.
#[derive(Clone, Copy)]
pub(crate) struct Reader<'a> {
    pub(crate) board: &'a Board,
    pub(crate) note: &'a [u8],
    pub(crate) claim: Claim,
    ghost short: { length note.now ≤ max_note },
}

impl Reader<'_> {
    // An option is three numbers, as Board::fits takes it.
    // Reads the option of operation op at step s on instance i, which is live and so a place of its own. One that is closed at once
    // is not placed.
    #[cycle(child_children_place)]
    fn child(
        &self,
        rows: &mut Rows,
        at: usize,
        left: usize,
        reach: usize,
        here: u32,
        op: usize,
        s: u16,
        i: usize,
    ) -> Result<usize, Fault>
        requires places { Places self.now.board.now reach op (placing_of rows.old) rows.old.lows here s i }
        requires inside { at ≤ 8 * length self.now.note.now }
        ensures answers { let r = self.now in
            turn_of result ≡ place_at r.note.now split_bits r.board.now r.claim left (put (placing_of rows.old) op (option_at s i)) at }
        ensures same { rows.new ≡ rows.old }
    {
        let board = self.board;
        let low = rows.lower(board, i);
        let cost = board.cost_with(rows, here, low, i);
        if allowed(self.claim, cost) && 0 < left && closes_at(self.note, at) {
            rows.raise(board, i, low);
            return Ok(at + MARK_BITS);
        }
        let was = rows.place(op, s, i);
        let end = self.place(rows, at, left, reach.max(op + 1), cost);
        rows.take_back(op, was);
        rows.raise(board, i, low);
        end
    }

    // Reads the children of a split on operation op, with `left` operations to place behind it: a place for each option that is live.
    #[cycle(child_children_place)]
    fn children(
        &self,
        rows: &mut Rows,
        at: usize,
        left: usize,
        reach: usize,
        here: u32,
        op: usize,
    ) -> Result<usize, Fault>
        requires ready { Ready self.now.board.now reach (placing_of rows.old) rows.old.lows here }
        requires unplaced { choice self.now.board.now (placing_of rows.old) op ≡ true }
        requires inside { at ≤ 8 * length self.now.note.now }
        ensures answers { let r = self.now in
            turn_of result ≡ in_turn (place_at r.note.now split_bits r.board.now r.claim left) (split_on r.board.now (placing_of rows.old) op) at }
        ensures same { rows.new ≡ rows.old }
    {
        let board = self.board;
        let mut next = at;
        let first = board.first_start(rows, op);
        for s in first..=board.t as u32 {
            let settled = (reach <= op) & (first < s);
            for i in 0..board.k as usize {
                if !board.free_at(rows, reach, op, s as u16, i) {
                    continue;
                }
                if !links_kept(board, rows, settled, reach, op, s as u16, i) {
                    continue;
                }
                next = self.child(rows, next, left, reach, here, op, s as u16, i)?;
            }
        }
        Ok(next)
    }

    // What is asked of rows and of the bit changes from place to place, so it stands in each contract and not in a type.
    // Reads the place at a bit of the note, with `left` operations to place: a mark, and then the children of a split.
    #[cycle(child_children_place)]
    pub(crate) fn place(
        &self,
        rows: &mut Rows,
        at: usize,
        left: usize,
        reach: usize,
        here: u32,
    ) -> Result<usize, Fault>
        requires ready { Ready self.now.board.now reach (placing_of rows.old) rows.old.lows here }
        requires inside { at ≤ 8 * length self.now.note.now }
        ensures answers { let r = self.now in turn_of result ≡ place_at r.note.now split_bits r.board.now r.claim left (placing_of rows.old) at }
        ensures same { rows.new ≡ rows.old }
    {
        let n = self.board.n as usize;
        let may = allowed(self.claim, here);
        if left == 0 {
            return closed_if(may, Fault::Cheaper, at);
        }
        let split = splits_at(self.note, at);
        let op = split_op(self.note, at);
        mark_fault(self.note, at, may, split, op, n, &rows.starts)?;
        if !split {
            return Ok(at + MARK_BITS);
        }
        self.children(rows, at + MARK_BITS + SPLIT_BITS, left - 1, reach, here, op)
    }
}
