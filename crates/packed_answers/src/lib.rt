// The answers on packed orders, and on the sampler's byte, as structs with C's layout: the refusal and the values of the rules
// for each case. Every answer has its struct. Assumes nothing.
#![tactic(auto)]

ghost use Rattle.std.specs.Prelude.{◌≡◌};
ghost use Rattle.packed.specs.Judge.{no_refusal};
ghost use Rattle.packed_answers.specs.Numbers.{heat_numbers, unpack_numbers, pack_numbers, framed_numbers};
ghost use Rattle.packed_answers.specs.Numbers.{open_numbers, no_job, with_job, step_numbers};

use fields::Job;
use framing::FrameOrder;
use packed::Refusal;
use reader::Moved;
use refusals::Reason;
use unpack::Unpacked;

// Heating up: the length in seconds.
#[repr(C)]
#[derive(Clone, Copy)]
pub struct HeatAnswer {
    pub refusal: u32,
    pub seconds: u32,
}

// Unpacking: how many jobs, and the bus-free time.
#[repr(C)]
#[derive(Clone, Copy)]
pub struct UnpackAnswer {
    pub refusal: u32,
    pub place: usize,
    pub field: u32,
    pub jobs: usize,
    pub t0: i32,
}

// Packing: the bytes written.
#[repr(C)]
#[derive(Clone, Copy)]
pub struct PackAnswer {
    pub refusal: u32,
    pub place: usize,
    pub field: u32,
    pub bytes: usize,
}

// Framing: the bytes written, and the frame in seconds.
#[repr(C)]
#[derive(Clone, Copy)]
pub struct FrameAnswer {
    pub refusal: u32,
    pub place: usize,
    pub bytes: usize,
    pub frame: u32,
}

// Opening: the count of jobs of bytes that the reader accepts.
#[repr(C)]
#[derive(Clone, Copy)]
pub struct OpenAnswer {
    pub refusal: u32,
    pub jobs: usize,
}

// A step of the reader: the end (1, else 0) or the numbers of a job (all 0 where none is given), and the place at which it
// then stands. The first place is that of the refusal, and the field is that of the job there.
#[repr(C)]
#[derive(Clone, Copy)]
pub struct StepAnswer {
    pub refusal: u32,
    pub place: usize,
    pub field: u32,
    pub end: u32,
    pub number: i32,
    pub pack: i32,
    pub critical: i32,
    pub weight: i32,
    pub ready: i32,
    pub length: i32,
    pub deadline: i32,
    pub next: usize,
}

// The answer of heating up.
pub fn heat_answer(heating: Result<u32, Reason>) -> HeatAnswer
    ensures { result ≡ heat_numbers heating }
{
    match heating {
        Ok(seconds) => HeatAnswer {
            refusal: 0,
            seconds,
        },
        Err(reason) => HeatAnswer {
            refusal: reason.number(),
            seconds: 0,
        },
    }
}

// The answer of unpacking.
pub fn unpack_answer(unpacked: Result<Unpacked, Refusal>) -> UnpackAnswer
    ensures { result ≡ unpack_numbers unpacked }
{
    match unpacked {
        Ok(order) => UnpackAnswer {
            refusal: 0,
            place: 0,
            field: 0,
            jobs: order.jobs,
            t0: order.t0,
        },
        Err(refusal) => UnpackAnswer {
            refusal: refusal.number(),
            place: refusal.place(),
            field: refusal.figure(),
            jobs: 0,
            t0: 0,
        },
    }
}

// The answer of packing.
pub fn pack_answer(packed: Result<usize, Refusal>) -> PackAnswer
    ensures { result ≡ pack_numbers packed }
{
    match packed {
        Ok(bytes) => PackAnswer {
            refusal: 0,
            place: 0,
            field: 0,
            bytes,
        },
        Err(refused) => PackAnswer {
            refusal: refused.number(),
            place: refused.place(),
            field: refused.figure(),
            bytes: 0,
        },
    }
}

// The answer of framing.
pub fn frame_answer(framed: Result<FrameOrder, Refusal>) -> FrameAnswer
    ensures { result ≡ framed_numbers framed }
{
    match framed {
        Ok(FrameOrder { bytes, frame }) => FrameAnswer {
            refusal: 0,
            place: 0,
            bytes,
            frame,
        },
        Err(refused) => FrameAnswer {
            refusal: refused.number(),
            place: refused.place(),
            bytes: 0,
            frame: 0,
        },
    }
}

// The answer of opening.
pub fn open_answer(opened: Result<usize, Refusal>) -> OpenAnswer
    ensures { result ≡ open_numbers opened }
{
    match opened {
        Ok(jobs) => OpenAnswer { refusal: 0, jobs },
        Err(refused) => OpenAnswer {
            refusal: refused.number(),
            jobs: 0,
        },
    }
}

// A step that is not refused and gives no job.
fn no_job(end: u32, next: usize) -> StepAnswer
    ensures { result ≡ no_job no_refusal end next }
{
    StepAnswer {
        refusal: 0,
        place: 0,
        field: 0,
        end,
        number: 0,
        pack: 0,
        critical: 0,
        weight: 0,
        ready: 0,
        length: 0,
        deadline: 0,
        next,
    }
}

// One that gives a job.
fn with_job(job: Job, next: usize) -> StepAnswer
    ensures { result ≡ with_job job next }
{
    StepAnswer {
        number: job.number,
        pack: job.pack,
        critical: job.critical,
        weight: job.weight,
        ready: job.ready,
        length: job.length,
        deadline: job.deadline,
        ..no_job(0, next)
    }
}

// The answer of a step.
pub fn step_answer(moved: Moved) -> StepAnswer
    ensures { result ≡ step_numbers moved }
{
    let next = moved.place;
    match moved.answer {
        Ok(Some(job)) => with_job(job, next),
        Ok(None) => no_job(1, next),
        Err(said) => StepAnswer {
            refusal: said.number(),
            place: said.place(),
            field: said.figure(),
            ..no_job(0, next)
        },
    }
}
