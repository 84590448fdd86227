// One frame of repeating jobs, written as a packed order of kind 0 to the front of a lent buffer (R41 to R43). Any numbers and any room have
// an answer. Assumes nothing.
#![tactic(auto)]

ghost use Rattle.std.specs.Prelude.{◌≡◌, length};
ghost use Rattle.repeating.specs.Repeating.{CanCount};
ghost use Rattle.framing.specs.Answer.{framed_of, order_after};

use judge::{MOST_JOBS, MOST_WEIGHT};
use packed::Refusal;
use refusals::Reason;
use repeating::LONGEST_FRAME;

// An order of one frame: its bytes, and the frame in seconds.
#[derive(Clone, Copy, PartialEq, Eq)]
pub struct FrameOrder {
    pub bytes: usize,
    pub frame: u32,
}

// Writes the order of a frame that is not too long, if it is an order and there is room for it.
fn make(numbers: &[i32], frame: u32, order: &mut [u8]) -> Result<FrameOrder, Refusal>
    requires { CanCount numbers.now frame }
    ensures answer { result ≡ framed_of numbers.now (length order.old) }
    ensures lent { order.new ≡ order_after numbers.now order.old }
{
    let made = repeating::totals_of(numbers, frame);
    let count = made.count as usize;
    let weight = made.weight as u64;
    if count > MOST_JOBS {
        return Err(Reason::TooManyJobs.into());
    }
    if weight > MOST_WEIGHT {
        return Err(Reason::TooMuchWeight.into());
    }
    let bytes = 4 + 8 * count;
    if order.len() < bytes {
        return Err(Reason::BufferTooShort.into());
    }
    fields::put_header(order, 0, count, 0);
    picking::write_repeats(numbers, count, order);
    Ok(FrameOrder { bytes, frame })
}

// The packed order of one frame of repeating jobs, six numbers each, written to the front of `order`; what is past it stays.
pub fn frame(numbers: &[i32], order: &mut [u8]) -> Result<FrameOrder, Refusal>
    ensures answer { result ≡ framed_of numbers.now (length order.old) }
    ensures lent { order.new ≡ order_after numbers.now order.old }
{
    repeating::judge_given(numbers)?;
    let frame = repeating::frame_of(numbers);
    if frame > LONGEST_FRAME as u64 {
        return Err(Reason::FrameTooLong.into());
    }
    make(numbers, frame as u32, order)
}
