// The repeats of a frame, picked one by one in their sequence and written as the jobs of a packed order of kind 0 behind its header
// (R42). Assumes nothing.
#![tactic(auto)]

ghost use Rattle.std.specs.Prelude.{◌≡◌, ◌++◌, ◌+◌, ◌*◌, ◌≤◌, length, take, drop};
ghost use Rattle.packed.specs.Layout.{encode, bytes_of, job_layout};
ghost use Rattle.fields.specs.Fields.{fields_of};
ghost use Rattle.pack.specs.Writing.{first_records};
ghost use Rattle.frames.specs.Frames.{made_of, numbers_for, repeat_at, frame_numbers};
ghost use Rattle.repeating.specs.Repeating.{numbers_in};
ghost use Rattle.picking.specs.Picking.{IsLeast, Reached, CanStart, CanMake, CanPut, CanWrite};

use fields::Job;
use repeating::{MOST_REPEATING, Repeating, count_of};

// The place of the least of some numbers, the first of those that are equal. By place: that is the answer.
fn least(times: &[u32]) -> usize
    requires { 1 ≤ length times.now }
    ensures { IsLeast times.now (length times.now) result }
{
    let mut place = 0;
    for p in 1..times.len() {
        if times[p] < times[place] {
            place = p;
        }
    }
    place
}

// At first each job is ready next at its phase.
fn set_first(numbers: &[i32], next: &mut [u32])
    requires { CanStart numbers.now next.old }
    ensures { Reached numbers.now next.new 0 }
{
    for p in 0..numbers.len() / 6 {
        let job = Repeating::read(numbers, 6 * p);
        next[p] = count_of(job.phase);
    }
}

// A repeat as a job of the order, numbered by its place there, with pack 0, its deadline set by its ready time.
fn job_of(number: usize, ready: u32, job: Repeating) -> Job
    requires { CanMake number ready (numbers_in job) }
    ensures { fields_of result ≡ made_of number ready (numbers_in job) }
{
    let ready = ready as i32;
    Job {
        number: number as i32,
        pack: 0,
        critical: job.critical,
        weight: job.weight,
        ready,
        length: job.length,
        deadline: ready + job.deadline,
    }
}

// Writes the next repeat of the sequence as the job at a place of the order, and moves its job on by a period.
fn put_next(numbers: &[i32], k: usize, next: &mut [u32], order: &mut [u8])
    requires { CanPut numbers.now k next.old order.old }
    ensures moves { Reached numbers.now next.new (k + 1) }
    ensures writes { order.new ≡ take (4 + 8 * k) order.old
        ++ bytes_of 8 (encode (job_layout 0) (numbers_for numbers.now k (repeat_at numbers.now k)))
        ++ drop (4 + 8 * k + 8) order.old }
{
    let place = least(&next[..numbers.len() / 6]);
    let ready = next[place];
    let job = Repeating::read(numbers, 6 * place);
    next[place] = ready + count_of(job.period);
    fields::put_job(order, 4 + 8 * k, 0, job_of(k, ready, job));
}

// Writes the repeats of a frame behind the header, in their sequence.
pub fn write_repeats(numbers: &[i32], count: usize, order: &mut [u8])
    requires { CanWrite numbers.now count order.old }
    ensures { order.new ≡ first_records 0 (frame_numbers numbers.now) count order.old }
{
    let mut next = [0u32; MOST_REPEATING];
    set_first(numbers, &mut next);
    for k in 0..count {
        put_next(numbers, k, &mut next, order);
    }
}
