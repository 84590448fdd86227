// Packed plans: whether one is legal and whether it is best for an order, and the order's own plan written.
use crate::orders::put_written;
use crate::{BYTE_MARK, WORK_MARK, with_work};
use careful::lend;
use case_lines::{call_of, count_setting, put_buffer, put_bytes, put_refusal, put_word};
use packed::Refusal;

// What checking answered.
fn put_verdict(answer: Result<bool, Refusal>) {
    match answer {
        Ok(true) => put_word(b" yes"),
        Ok(false) => put_word(b" no"),
        Err(refusal) => put_refusal(refusal),
    }
}

// `legal`: an order and a plan.
fn legal(order: &[u8], plan: &[u8]) {
    put_verdict(checking::legal(order, plan));
}

// `legal_cut`: the same for each front of a plan, from none of its bytes to all.
fn legal_cut(order: &[u8], plan: &[u8]) {
    for many in 0..=plan.len() {
        legal(order, &plan[..many]);
    }
}

// `best`: an order and a plan, with a work area lent.
fn best(line: &[u8], order: &[u8], plan: &[u8]) {
    with_work(line, |work| put_verdict(best_plan::best(order, plan, work)));
}

// `write_plan`: an order, with room for bytes and a work area lent.
fn write_plan(line: &[u8], order: &[u8]) {
    let mut out = [BYTE_MARK; 130];
    let mut space = [WORK_MARK; 15_000];
    let plan = lend(&mut out, count_setting(line, b'm'));
    let work = lend(&mut space, count_setting(line, b'k'));
    put_written(plan_writer::write_plan(order, plan, work));
    put_bytes(plan);
    put_buffer(work);
}

// Runs a case that is for one of these calls; false for any other.
pub fn run(line: &[u8], order: &[u8], plan: &[u8]) -> bool {
    match call_of(line) {
        b"legal" => legal(order, plan),
        b"legal_cut" => legal_cut(order, plan),
        b"best" => best(line, order, plan),
        b"write_plan" => write_plan(line, order),
        _ => return false,
    }
    true
}
