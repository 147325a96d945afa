// One dossier on standard input, one line on standard output: cheapest and the cost, none, or refused, paper and number.
#![tactic(auto)]

ghost use Rattle.std.specs.Prelude.{◌≡◌, ◌≤◌, ◌+◌, ◌++◌, decimal, length};
ghost use Rattle.arrayvec.specs.ArrayString.{array_string_len};
ghost use Rattle.notes.specs.Check.{checked_of};
ghost use Rattle.verdict.specs.Line.{line, line_bytes, most_digits};

use arrayvec::ArrayString;
use basics::Refusal;
use dossiers::checking::check_dossier;
use itoa::Buffer;
use placing::Claim;
use std::io::{Input, Read, Write};

// A byte more than any dossier has: input that fills it is too long, whatever follows.
const INPUT_CELLS: usize = dossiers::limits::MAX_DOSSIER + 1;

// Enough for the longest line, refused and two numbers.
const LINE_BYTES: usize = 32;

// The line with a number behind it.
fn push_number(line: &mut ArrayString<LINE_BYTES>, number: u32)
    requires { array_string_len line.old + most_digits ≤ line_bytes }
    ensures bytes { line.new.bytes ≡ line.old.bytes ++ decimal number }
    ensures few { array_string_len line.new ≤ array_string_len line.old + most_digits }
{
    line.push_str(Buffer::new().format(number));
}

// No `Display`: what one promises holds only where it does not fail, and every answer has its line.
// The line that is written for an answer. It needs no heap.
#[tactic(auto, using(crate::proofs::LineLaws::line_laws))]
fn line_of(answer: Result<Claim, Refusal>) -> ArrayString<LINE_BYTES>
    ensures { result.bytes ≡ line (checked_of answer) }
{
    let mut line = ArrayString::new();
    match answer {
        Ok(Some(cost)) => {
            line.push_str("cheapest ");
            push_number(&mut line, cost);
            line.push_str("\n");
        }
        Ok(None) => line.push_str("none\n"),
        Err(refusal) => {
            line.push_str("refused ");
            push_number(&mut line, refusal.paper.number());
            line.push_str(" ");
            push_number(&mut line, refusal.fault.number());
            line.push_str("\n");
        }
    }
    line
}

// A `while`, since each read says how far it went.
// Reads until the table is full, the input ends or a read fails, and says how many bytes there are.
fn read_full<R: Read>(input: &mut R, table: &mut [u8]) -> usize
    ensures { result ≤ length table.new }
{
    let mut done = 0;
    while done < table.len() {
        match input.read(&mut table[done..]) {
            Ok(0) | Err(_) => break,
            Ok(n) => done += n,
        }
    }
    done
}

fn main(rt: HostRuntime) -> std::io::Result<()> {
    let mut input = [0u8; INPUT_CELLS];
    let n = read_full(&mut rt.reader(), &mut input);
    let line = line_of(check_dossier(&input[..n]));
    std::io::writer(&rt).write_all(line.as_str().as_bytes())
}
