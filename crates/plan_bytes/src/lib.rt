// Packed plans in bytes: a start is read from the three bytes that it ends in, and a plan is written start by start, each behind
// those before it. Assumes nothing.
#![tactic(auto)]

ghost use Rattle.std.specs.Prelude.{◌≡◌, cond, ◌++◌, suc, ◌-◌, ◌%◌, ◌^◌, ◌≤◌, ◌<◌, eqb, length, drop, get_or};
ghost use Rattle.std.specs.Int.Signed.{lt_z};
ghost use Rattle.seconds.specs.Limits.{left_out};
ghost use Rattle.packed_plan.specs.Plan.{plan_bytes, pad_bits, pack_plan, starts_kept};
ghost use Rattle.plan_bytes.specs.Asks.{StartThere, start_from, begun_at, start_put, StartRoom, KeptRoom, PlanRoom};

use fields::{put_word, time_bits, time_of, word_at};
use starting::LEFT_OUT;

// The bits of a mask, and its bytes.
const MASK_BITS: usize = 48;

const MASK_BYTES: usize = 6;

// The bits of a start, the numbers that they tell apart, and the bytes that it lies in.
const START_BITS: usize = 18;

const START_NUMBERS: u64 = 0x4_0000;

const START_BYTES: usize = 3;

// What one more of the first of a start's bytes counts for.
const FIRST_BYTE: u64 = 0x1_0000;

// The bytes of a plan with so many starts.
pub fn plan_bytes(n: usize) -> usize
    requires { n ≤ 48 }
    ensures { result ≡ plan_bytes n }
{
    (MASK_BITS + START_BITS * n + 7) / 8
}

// What one more of the last of so many starts counts for in the last byte: the padding lies below it.
fn unit(n: usize) -> u64
    ensures { result ≡ 2 ^ pad_bits n }
{
    match n % 4 {
        0 => 1,
        1 => 64,
        2 => 16,
        _ => 4,
    }
}

// The start at a place: it ends the plan of the starts up to it.
pub fn start_at(plan: &[u8], k: usize) -> i32
    requires { StartThere plan.now k }
    ensures { result ≡ start_from plan.now k }
{
    let end = plan_bytes(k + 1);
    let word = word_at(plan, end - START_BYTES, START_BYTES);
    time_of(word / unit(k + 1) % START_NUMBERS)
}

// Whether the bits behind the last of so many starts are zero.
pub fn padding_clear(plan: &[u8], n: usize) -> bool
    requires { 1 ≤ length plan.now }
    ensures { result ≡ eqb (get_or plan.now (length plan.now - 1) 0 % 2 ^ pad_bits n) 0 }
{
    let last = plan[plan.len() - 1] as u64;
    last % unit(n) == 0
}

// What stands in the byte in which a start begins: every fourth start begins a byte of its own, and finds nothing.
fn begun_in(bytes: &[u8], at: usize, k: usize) -> u64
    requires { at < length bytes.now }
    ensures { result ≡ begun_at bytes.now at k }
{
    if k % 4 == 0 {
        return 0;
    }
    bytes[at] as u64
}

// One start more, behind the plan of the k before it.
fn put_start(bytes: &mut [u8], k: usize, start: i32)
    requires { StartRoom bytes.old k start }
    ensures { bytes.new ≡ start_put bytes.old k start }
{
    let at = plan_bytes(k + 1) - START_BYTES;
    let begun = begun_in(bytes, at, k);
    let bits = time_bits(start);
    put_word(
        bytes,
        at,
        START_BYTES,
        begun * FIRST_BYTE + bits * unit(k + 1),
    );
}

// The same for a job that may be left out, which has no start in a plan; how many starts there are then.
fn put_kept(bytes: &mut [u8], k: usize, start: i32) -> usize
    requires { KeptRoom bytes.old k start }
    ensures counts { result ≡ cond (lt_z start left_out) (suc k) k }
    ensures writes { bytes.new ≡ cond (lt_z start left_out) (start_put bytes.old k start) bytes.old }
{
    if start < LEFT_OUT {
        put_start(bytes, k, start);
        return k + 1;
    }
    k
}

// A mask of 48 bits and the starts of the jobs kept, of starts in place order, written at the front; how many bytes they are.
pub fn put_plan(bytes: &mut [u8], mask: u64, starts: &[i32]) -> usize
    requires { PlanRoom bytes.old mask (starts_kept starts.now) }
    ensures counts { result ≡ plan_bytes (length (starts_kept starts.now)) }
    ensures writes { bytes.new ≡ pack_plan mask (starts_kept starts.now)
        ++ drop (plan_bytes (length (starts_kept starts.now))) bytes.old }
{
    put_word(bytes, 0, MASK_BYTES, mask);
    let mut kept = 0;
    for start in starts {
        kept = put_kept(bytes, kept, *start);
    }
    plan_bytes(kept)
}
