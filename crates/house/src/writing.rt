// The house writer: what is claimed is judged, the note is written to a sheet of its own, and a whole one is copied to the output.
ghost use Rattle.std.specs.Prelude.{◌≡◌, ◌*◌, ◌≤◌, length};
ghost use Rattle.basics.specs.Answers.{Promise};
ghost use Rattle.basics.specs.Faults.{number_of};
ghost use Rattle.sheets.specs.Answers.{written_of};
ghost use Rattle.placing.specs.Board.{WasRead, board_of};
ghost use Rattle.notes.specs.NoteSheet.{max_note};
ghost use Rattle.notes.specs.Check.{Claims};
ghost use Rattle.house.specs.House.{room_of, stopped_by, write_claim, claim_out, write_note, note_out};
ghost use Rattle.house.specs.Writing.{draft_from, Drafts};

use crate::places::Writer;
use basics::{Fault, Paper, Refusal, only};
use bits::{bytes_for, put};
use notes::claims::ask;
use notes::limits::*;
use placing::Claim;
use placing::boards::board_of;
use placing::rows::Rows;
use sheets::Job;
use sheets::limits::FORM_BITS;

// The bits that an output of so many bytes has room for.
fn room_of(bytes: usize) -> usize
    ensures { result ≡ room_of bytes }
{
    8 * bytes.min(MAX_NOTE)
}

// Writes header and tree to a blank sheet, and answers where they end.
fn write_sheet(job: &Job, claim: Claim, room: usize, sheet: &mut [u8]) -> Result<usize, Fault>
    requires { WasRead job.now × (room ≤ 8 * length sheet.old) × (room ≤ 8 * max_note) }
    ensures { Drafts room (draft_from (board_of job.now) claim room sheet.old) result sheet.old sheet.new }
{
    if room < NOTE_HEAD {
        return Err(Fault::OutputShort);
    }
    put(sheet, 0, FORM_BITS, NOTE_FORM);
    put(sheet, FORM_BITS, VERDICT_BITS, only(claim.is_some(), 1));
    let board = board_of(job);
    let writer = Writer {
        board: &board,
        claim,
        room,
    };
    writer.place(&mut Rows::none(), sheet, NOTE_HEAD, 0, 0)
}

// The refusal where the writing stopped: an output that is too short is the request's fault.
fn stopped(fault: Fault) -> Refusal
    ensures { written_of (Err result) ≡ stopped_by (number_of fault) }
{
    let paper = match fault {
        Fault::OutputShort => Paper::Request,
        _ => Paper::Note,
    };
    Refusal { fault, paper }
}

// Writes the note of a claim on a job that was read, and answers its bytes.
fn write_claim(job: &Job, claim: Claim, out: &mut [u8]) -> Result<u32, Refusal>
    requires { WasRead job.now }
    ensures { Promise (write_claim (Claims claim) job.now (length out.old)) (claim_out (Claims claim) job.now out.old) (written_of result) out.new }
{
    let mut sheet = [0u8; MAX_NOTE];
    let room = room_of(out.len());
    match write_sheet(job, claim, room, &mut sheet) {
        Ok(end) => {
            let length = bytes_for(end);
            out[..length].copy_from_slice(&sheet[..length]);
            Ok(length as u32)
        }
        Err(fault) => Err(stopped(fault)),
    }
}

/// Writes the house note beside a plan's sheet, or beside none of its bytes, for a job's sheet, and answers its bytes. A refusal
/// changes no byte.
pub fn write_note(job: &[u8], plan: &[u8], out: &mut [u8]) -> Result<u32, Refusal>
    ensures { Promise (write_note job.now plan.now (length out.old)) (note_out job.now plan.now out.old) (written_of result) out.new }
{
    let asked = ask(job, plan);
    let claim = asked.claimed?;
    write_claim(&asked.job, claim, out)
}
