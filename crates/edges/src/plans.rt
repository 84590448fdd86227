// Plans: of an order, of an order of halves, and the text that the program prints for an order.
use crate::with_room;
use case_lines::{call_of, put, put_count, put_refusal, put_word};
use halves::HalvesPlan;
use packed::Refusal;
use planner::Figures;

// A plan's numbers.
fn put_figures(figures: Figures) {
    put_word(b" made");
    put_count(figures.mask);
    put_count(figures.kept as u64);
    put_count(figures.kept_weight as u64);
    put_count(figures.lost_weight as u64);
    put(figures.finish);
    put_count(figures.points as u64);
}

// What planning answered.
fn put_planned(answer: Result<Figures, Refusal>) {
    match answer {
        Ok(figures) => put_figures(figures),
        Err(refusal) => put_refusal(refusal),
    }
}

// What planning halves answered.
fn put_halves(answer: Result<HalvesPlan, Refusal>) {
    match answer {
        Ok(HalvesPlan { figures, seconds }) => {
            put_figures(figures);
            put_count(seconds as u64);
        }
        Err(refusal) => put_refusal(refusal),
    }
}

// `plan`: an order, with room for starts and a work area lent.
fn plan(line: &[u8], order: &[u8]) {
    with_room(line, |starts, work| {
        put_planned(planner::plan(order, starts, work))
    });
}

// `plan_halves`: the same of an order of halves.
fn plan_halves(line: &[u8], order: &[u8]) {
    with_room(line, |starts, work| {
        put_halves(halves::plan_halves(order, starts, work))
    });
}

// `report`: any bytes; the text stands on lines of its own.
fn report(bytes: &[u8]) {
    let mut text = [0; report::ROOM];
    let end = report::report(bytes, &mut text);
    put_word(b"\n");
    put_word(&text[..end]);
}

// Runs a case that is for one of these calls; false for any other.
pub fn run(line: &[u8], order: &[u8]) -> bool {
    match call_of(line) {
        b"plan" => plan(line, order),
        b"plan_halves" => plan_halves(line, order),
        b"report" => report(order),
        _ => return false,
    }
    true
}
