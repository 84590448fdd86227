// The refusals of an order, in packed bytes and in numbers: checks 1 to 7 and 9 of R24, the lowest that
// applies (R25). Assumes nothing.
#![tactic(auto)]

ghost use Rattle.std.specs.Prelude.{◌≡◌, ◌++◌, ◌<◌, length};
ghost use Rattle.packed.specs.Packed.{numbers_of};
ghost use Rattle.packed.specs.Judge.{fine, judge};
ghost use Rattle.packed.specs.Refusals.{header_checks, list_checks, job_checks, weight_checks, number_checks};
ghost use Rattle.judge.specs.Verdicts.{taken_in, noted_in, Gathers, JudgedEach};
ghost use Rattle.judge.specs.Verdicts.{repeats_judged, sum_judged, kind_judged};

use fields::Job;
use jobs::{Given, Jobs, Records};
use packed::Refusal;
use refusals::Reason;
use repeats::repeat_in;

// The most jobs and the most weight of an order.
pub const MOST_JOBS: usize = 48;

pub const MOST_WEIGHT: u64 = 300;

// Check 19 on bytes that have passed 1 to 5: kind 1 where every pack is 0.
fn judge_kind(records: Records) -> Result<(), Refusal>
    ensures { result ≡ kind_judged records.entry.bytes.now }
{
    if records.kind != 1 {
        return Ok(());
    }
    match kinds::first_packed(&records) {
        Some(_) => Ok(()),
        None => Err(Reason::EveryPackZero.into()),
    }
}

// Checks 1 to 5 and 19 on bytes.
pub fn judge_header(bytes: &[u8]) -> Result<(), Refusal>
    ensures { result ≡ judge (header_checks bytes.now) }
{
    if bytes.len() < 4 {
        return Err(Reason::OrderTooShort.into());
    }
    let header = fields::header_at(bytes);
    if header.kind > 1 {
        return Err(Reason::UnknownKind.into());
    }
    if header.count > MOST_JOBS {
        return Err(Reason::TooManyJobs.into());
    }
    if bytes.len() != 4 + fields::record_bytes(header.kind) * header.count {
        return Err(Reason::WrongLength.into());
    }
    if !limits::is_time(header.t0) {
        return Err(Reason::BusFreeOutOfRange.into());
    }
    judge_kind(Records {
        bytes,
        count: header.count,
        kind: header.kind,
    })
}

// The records of bytes that have passed them.
pub fn records_in(bytes: &[u8]) -> Records
    requires { judge (header_checks bytes.now) ≡ fine }
    ensures { result.bytes.now ≡ bytes.now }
{
    let header = fields::header_at(bytes);
    Records {
        bytes,
        count: header.count,
        kind: header.kind,
    }
}

// A job taken in: within its limits its number is noted at its place, and its weight told.
fn take_in(job: Job, place: usize, numbers: &mut [u8; MOST_JOBS]) -> Result<u32, Refusal>
    requires { place < length numbers.old }
    ensures goes { result ≡ taken_in job place }
    ensures notes { numbers.new ≡ noted_in job place numbers.old }
{
    match limits::bad_field(job) {
        Some(field) => Err(Refusal::in_field(Reason::JobOutOfRange, place, field)),
        None => {
            numbers[place] = job.number as u8;
            Ok(job.weight as u32)
        }
    }
}

// What the jobs weigh, with their numbers gathered; the first job that is out of range is refused.
fn gather<J: Jobs>(jobs: &J, numbers: &mut [u8; MOST_JOBS]) -> Result<u32, Refusal>
    ensures { Gathers (J.numbers jobs.now) numbers.new result }
{
    let mut weight = 0;
    for place in 0..jobs.count() {
        weight += take_in(jobs.job(place), place, numbers)?;
    }
    Ok(weight)
}

// Check 7 on gathered numbers.
fn judge_repeats(numbers: &[u8]) -> Result<(), Refusal>
    ensures { result ≡ repeats_judged numbers.now }
{
    let again = repeat_in(numbers);
    if again < numbers.len() {
        return Err(Refusal::at_place(Reason::NumberRepeated, again));
    }
    Ok(())
}

// Checks 6 and 7, and what jobs weigh that pass them.
fn judge_each<J: Jobs>(jobs: &J) -> Result<u32, Refusal>
    ensures { JudgedEach (J.numbers jobs.now) result }
{
    let mut numbers = [0u8; MOST_JOBS];
    let weight = gather(jobs, &mut numbers)?;
    judge_repeats(&numbers[..jobs.count()])?;
    Ok(weight)
}

// Check 9: a sum of weights.
fn judge_sum(before: u32, weight: u32) -> Result<(), Refusal>
    ensures { result ≡ sum_judged before weight }
{
    if before as u64 + weight as u64 > MOST_WEIGHT {
        return Err(Reason::TooMuchWeight.into());
    }
    Ok(())
}

// Checks 1 to 7 on bytes.
pub fn judge_jobs(bytes: &[u8]) -> Result<(), Refusal>
    ensures { result ≡ judge (header_checks bytes.now ++ job_checks (numbers_of bytes.now)) }
{
    judge_header(bytes)?;
    judge_each(&records_in(bytes))?;
    Ok(())
}

// Check 9 on bytes that have passed 1 to 7, with the weight that is there before.
pub fn judge_weight(bytes: &[u8], before: u32) -> Result<(), Refusal>
    requires { judge (header_checks bytes.now ++ job_checks (numbers_of bytes.now)) ≡ fine }
    ensures { result ≡ judge (weight_checks before (numbers_of bytes.now)) }
{
    let mut numbers = [0u8; MOST_JOBS];
    let weight = gather(&records_in(bytes), &mut numbers)?;
    judge_sum(before, weight)
}

// Checks 1 to 7 and 9 on bytes, with the weight that is there before.
pub fn judge_order(bytes: &[u8], before: u32) -> Result<(), Refusal>
    ensures { result ≡ judge (header_checks bytes.now ++ job_checks (numbers_of bytes.now)
        ++ weight_checks before (numbers_of bytes.now)) }
{
    judge_header(bytes)?;
    let weight = judge_each(&records_in(bytes))?;
    judge_sum(before, weight)
}

// Checks 3 to 5 on a bus-free time and numbers.
fn judge_list(t0: i32, given: &[i32]) -> Result<(), Refusal>
    ensures { result ≡ judge (list_checks t0 given.now) }
{
    if given.len() > 7 * MOST_JOBS {
        return Err(Reason::TooManyJobs.into());
    }
    if given.len() % 7 != 0 {
        return Err(Reason::WrongLength.into());
    }
    if !limits::is_time(t0) {
        return Err(Reason::BusFreeOutOfRange.into());
    }
    Ok(())
}

// Checks 3 to 7 and 9 on a bus-free time and numbers.
pub fn judge_numbers(t0: i32, given: &[i32]) -> Result<(), Refusal>
    ensures { result ≡ judge (number_checks t0 given.now) }
{
    judge_list(t0, given)?;
    let weight = judge_each(&Given { numbers: given })?;
    judge_sum(0, weight)
}
