// Two openings: the question which of them wins at a time, and the choice between them, by either tie rule.
use crate::with_work;
use case_lines::{call_of, put_count, put_part, put_refused_field, setting};
use openings::Won;
use packed::Refusal;
use ties::Winner;

// Which opening won, as C numbers it, and the kind of its records.
fn put_won(won: Won) {
    put_count(match won.winner {
        Winner::First => 1,
        Winner::Second => 2,
    });
    put_count(won.kind as u64);
}

// What the question answered.
fn put_answer(answer: Result<Won, Refusal>) {
    match answer {
        Ok(won) => put_won(won),
        Err(refusal) => put_refused_field(refusal),
    }
}

// Runs a case that is for one of these calls; false for any other.
pub fn run(line: &[u8], first: &[u8], second: &[u8]) -> bool {
    let t = setting(line, b't');
    match call_of(line) {
        b"question" => with_work(line, |work| {
            put_answer(openings::question(first, second, t, work))
        }),
        b"question_first" => with_work(line, |work| {
            put_answer(openings::question_first(first, second, t, work))
        }),
        b"choose" => with_work(
            line,
            |work| put_part(openings::choose(first, second, t, work)),
        ),
        b"choose_first" => with_work(line, |work| {
            put_part(openings::choose_first(first, second, t, work))
        }),
        _ => return false,
    }
    true
}
