// What each case of an answer says in numbers: a function for each and no `From`, since a length and a cost are both a number, and the
// type does not tell which. A refusal is whatever converts to an answer: a `Refusal`, or any numbers, as `basics::refused` has them.
ghost use Rattle.std.specs.Prelude.{◌≡◌, IfOk, IfErr};
ghost use Rattle.sheets.specs.Answers.{Read, Wrote, reading_says, written_says};

use basics::{Answer, Outcome};

/// What a reader answers, beside its record.
pub fn reading_says<R: Into<Answer>>(answer: Result<(), R>) -> Answer
    ensures read { IfOk answer (λ _. result ≡ reading_says Read) }
    ensures refused { IfErr answer (λ refusal. R.converts refusal result) }
{
    match answer {
        Ok(()) => Answer {
            outcome: Outcome::Read as u32,
            ..Answer::default()
        },
        Err(refusal) => refusal.into(),
    }
}

/// What a writer answers.
pub fn written_says<R: Into<Answer>>(answer: Result<u32, R>) -> Answer
    ensures wrote { IfOk answer (λ length. result ≡ written_says (Wrote length)) }
    ensures refused { IfErr answer (λ refusal. R.converts refusal result) }
{
    match answer {
        Ok(length) => Answer {
            outcome: Outcome::Written as u32,
            length,
            ..Answer::default()
        },
        Err(refusal) => refusal.into(),
    }
}
