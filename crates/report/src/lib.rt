// The text that the program prints: the plan of the bytes that it read, or why there is none, written into
// a lent buffer. Assumes nothing.
#![tactic(auto)]

ghost use Rattle.std.specs.Prelude.{◌*◌, take};
ghost use Rattle.text.specs.Buffer.{Wrote};
ghost use Rattle.text.specs.Writing.{Room, Writes};
ghost use Rattle.report.specs.Report.{refusal_line, plan_line, start_word, job_line, report_of, Reported};
ghost use Rattle.report.specs.Writing.{front_words, kept_words, CanRefuse, CanList, listed, CanTell, HasRoom};

use area::AREA;
use jobs::Records;
use judge::records_in;
use packed::Refusal;
use planner::{Figures, plan};
use starting::LEFT_OUT;
use text::Writer;

// The bytes between the figures of a line and at its end, and the one for a job that is left out.
const SPACE: u8 = b' ';

const NEWLINE: u8 = b'\n';

const MINUS: u8 = b'-';

// The most jobs of an order.
const MOST_JOBS: usize = 48;

// The room that is wanted for a text, in bytes.
pub const ROOM: usize = 2048;

// The two figures that every first line begins with, a refusal's number and its place: at most 22 bytes.
fn put_front(text: &mut Writer, number: u32, place: u32)
    requires { Room 22 text.old }
    ensures { Writes (front_words number place) 22 text.old text.new }
{
    text.figure(number, SPACE);
    text.figure(place, SPACE);
}

// The line of a refusal, at the front: at most 33 bytes.
pub fn put_refusal(out: &mut [u8], refusal: Refusal) -> usize
    requires { CanRefuse refusal out.old }
    ensures { Wrote out.old 0 (refusal_line refusal) out.new result }
{
    let field = refusal.figure();
    let mut text = Writer { out, at: 0 };
    put_front(&mut text, refusal.number(), refusal.place() as u32);
    text.figure(field, NEWLINE);
    text.at
}

// How many jobs are kept, and the weights kept and lost, a space behind each: at most 33 bytes.
fn put_kept(text: &mut Writer, figures: Figures)
    requires { Room 33 text.old }
    ensures { Writes (kept_words figures) 33 text.old text.new }
{
    text.figure(figures.kept, SPACE);
    text.figure(figures.kept_weight, SPACE);
    text.figure(figures.lost_weight, SPACE);
}

// The line of a plan: at most 78 bytes.
fn put_plan(text: &mut Writer, figures: Figures)
    requires { Room 78 text.old }
    ensures { Writes (plan_line figures) 78 text.old text.new }
{
    put_front(text, 0, 0);
    put_kept(text, figures);
    text.number(figures.finish);
    text.byte(SPACE);
    text.figure(figures.points, NEWLINE);
}

// A job's start, or a minus sign where the job is left out: at most eleven bytes.
fn put_start(text: &mut Writer, start: i32)
    requires { Room 11 text.old }
    ensures { Writes (start_word start) 11 text.old text.new }
{
    if start == LEFT_OUT {
        text.byte(MINUS);
    } else {
        text.number(start);
    }
}

// The line of a job: at most 23 bytes.
fn put_job(text: &mut Writer, number: u32, start: i32)
    requires { Room 23 text.old }
    ensures { Writes (job_line number start) 23 text.old text.new }
{
    text.figure(number, SPACE);
    put_start(text, start);
    text.byte(NEWLINE);
}

// The lines of the jobs, in place order.
fn put_jobs(text: &mut Writer, records: Records, starts: &[i32])
    requires { CanList records.bytes.now records.count starts.now text.old }
    ensures { Writes (listed records.entry.bytes.now starts.now records.entry.count) (23 * records.entry.count) text.old text.new }
{
    for place in 0..records.count {
        let job = records.job_at(place);
        put_job(text, job.number as u32, starts[place]);
    }
}

// The text of a plan: its line, and a line for each job.
fn tell_plan(bytes: &[u8], figures: Figures, starts: &[i32], out: &mut [u8]) -> usize
    requires { CanTell bytes.now figures starts.now out.old }
    ensures { Wrote out.old 0 (report_of bytes.now) out.new result }
{
    let mut text = Writer { out, at: 0 };
    put_plan(&mut text, figures);
    put_jobs(&mut text, records_in(bytes), starts);
    text.at
}

// The text by planning in lent numbers, of which there are enough.
fn plan_and_tell(bytes: &[u8], starts: &mut [i32], work: &mut [i32], out: &mut [u8]) -> usize
    requires { HasRoom starts.old work.old out.old }
    ensures { Wrote out.old 0 (report_of bytes.now) out.new result }
{
    match plan(bytes, starts, work) {
        Ok(figures) => tell_plan(bytes, figures, starts, out),
        Err(refusal) => put_refusal(out, refusal),
    }
}

// The text for any bytes, at the front of `out`. Returns its length; with less than 2,048 bytes of room
// nothing is written, and the length is 0.
pub fn report(bytes: &[u8], out: &mut [u8]) -> usize
    ensures { Reported bytes.now out.old out.new result }
{
    if out.len() < ROOM {
        return 0;
    }
    let mut starts = [0i32; MOST_JOBS];
    let mut work = [0i32; AREA];
    plan_and_tell(bytes, &mut starts, &mut work, out)
}

// The text for what was read into a buffer: its first `count` bytes, or all where it has fewer.
pub fn report_read(input: &[u8], count: usize, out: &mut [u8]) -> usize
    ensures { Reported (take count input.now) out.old out.new result }
{
    if count < input.len() {
        return report(&input[..count], out);
    }
    report(input, out)
}
