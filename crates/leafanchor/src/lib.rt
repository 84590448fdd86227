// The calls for programs in C: each calls the proved call of its crate and hands its answer over as numbers. Any bytes,
// numbers and rooms have an answer. What the caller owes, and no call checks: a pointer is never null, also where its
// length is 0; it points to as many elements as the length beside it says; a buffer that a call writes overlaps no other
// buffer of that call (those that it only reads may overlap).
#![tactic(auto)]

ghost use Rattle.std.specs.Prelude.{◌≡◌, length};
ghost use Rattle.heat.specs.Answer.{heating_of};
ghost use Rattle.unpack.specs.Answer.{unpack_of, numbers_after};
ghost use Rattle.pack.specs.Answer.{pack_of, bytes_after};
ghost use Rattle.framing.specs.Answer.{framed_of, order_after};
ghost use Rattle.reader.specs.Reading.{open_of, step_of};
ghost use Rattle.profiles.specs.Answer.{lookup_of};
ghost use Rattle.point_records.specs.Records.{flattened};
ghost use Rattle.better.specs.Answer.{joined_of, out_after as joined_after};
ghost use Rattle.extending.specs.Calls.{extended_of, out_after, extend_work_after};
ghost use Rattle.planner.specs.Calls.{planned_of, starts_after, plan_work_after};
ghost use Rattle.halves.specs.Calls.{halves_of, halves_starts_after, halves_work_after};
ghost use Rattle.plan_writer.specs.Calls.{written_of, out_after as plan_after, write_work_after};
ghost use Rattle.checking.specs.Calls.{legal_of};
ghost use Rattle.best_plan.specs.Calls.{best_of, best_work_after};
ghost use Rattle.ties.specs.Winning.{sooner, to_first};
ghost use Rattle.choosing.specs.Choosing.{work_after};
ghost use Rattle.openings.specs.Answer.{answer_of};
ghost use Rattle.sheet.specs.Sheet.{join_refusal, joined_after as sheet_after};
ghost use Rattle.adding.specs.Calls.{add_refusal, add_after, add_work_after};
ghost use Rattle.feeding.specs.Calls.{feed_refusal, feed_after, front_after, feed_work_after};
ghost use Rattle.sheet_text.specs.SheetText.{told_of, text_after};
ghost use Rattle.sheet_answers.specs.Numbers.{sheet_numbers, text_numbers, says_cut};
ghost use Rattle.packed_answers.specs.Numbers.{heat_numbers, unpack_numbers, pack_numbers, framed_numbers};
ghost use Rattle.packed_answers.specs.Numbers.{open_numbers, step_numbers};
ghost use Rattle.plan_answers.specs.Numbers.{lookup_numbers, better_numbers, extend_numbers, plan_figures};
ghost use Rattle.plan_answers.specs.Numbers.{halves_figures};
ghost use Rattle.opening_answers.specs.Numbers.{question_numbers, choose_numbers};
ghost use Rattle.verdict_answers.specs.Numbers.{verdict_numbers};

use opening_answers::{ChooseAnswer, QuestionAnswer};
use packed_answers::{FrameAnswer, HeatAnswer, OpenAnswer, PackAnswer, StepAnswer, UnpackAnswer};
use plan_answers::{BetterAnswer, ExtendAnswer, HalvesAnswer, LookupAnswer, PlanAnswer};
use point_records::Point;
use sheet_answers::{SheetAnswer, SheetTextAnswer};
use verdict_answers::VerdictAnswer;

// The heat-up length for the sampler's byte.
#[unsafe(no_mangle)]
pub extern "C" fn leafanchor_heat_up(byte: u8) -> HeatAnswer
    ensures { result ≡ heat_numbers (heating_of byte) }
{
    packed_answers::heat_answer(heat::heat_up(byte))
}

// The numbers of a packed order, seven a job, written to the front of `numbers`.
#[unsafe(no_mangle)]
pub extern "C" fn leafanchor_unpack(order: &[u8], numbers: &mut [i32]) -> UnpackAnswer
    ensures answer { result ≡ unpack_numbers (unpack_of order.now (length numbers.old)) }
    ensures lent { numbers.new ≡ numbers_after order.now numbers.old }
{
    packed_answers::unpack_answer(unpack::unpack(order, numbers))
}

// The packed order of a bus-free time and numbers, seven a job, written to the front of `order`.
#[unsafe(no_mangle)]
pub extern "C" fn leafanchor_pack(t0: i32, numbers: &[i32], order: &mut [u8]) -> PackAnswer
    ensures answer { result ≡ pack_numbers (pack_of t0 numbers.now (length order.old)) }
    ensures lent { order.new ≡ bytes_after t0 numbers.now order.old }
{
    packed_answers::pack_answer(pack::pack(t0, numbers, order))
}

// The packed order of one frame of repeating jobs, six numbers each, written to the front of `order`.
#[unsafe(no_mangle)]
pub extern "C" fn leafanchor_frame(repeating: &[i32], order: &mut [u8]) -> FrameAnswer
    ensures answer { result ≡ framed_numbers (framed_of repeating.now (length order.old)) }
    ensures lent { order.new ≡ order_after repeating.now order.old }
{
    packed_answers::frame_answer(framing::frame(repeating, order))
}

// Whether the reader accepts some bytes, and their count of jobs.
#[unsafe(no_mangle)]
pub extern "C" fn leafanchor_open(order: &[u8]) -> OpenAnswer
    ensures { result ≡ open_numbers (open_of order.now) }
{
    packed_answers::open_answer(reader::open(order))
}

// The job at a place, and the place at which the reader then stands.
#[unsafe(no_mangle)]
pub extern "C" fn leafanchor_step(order: &[u8], place: usize) -> StepAnswer
    ensures { result ≡ step_numbers (step_of order.now place) }
{
    packed_answers::step_answer(reader::step(order, place))
}

// The weight of the last point of a profile at or before t.
#[unsafe(no_mangle)]
pub extern "C" fn leafanchor_lookup(profile: &[i32], t: i32) -> LookupAnswer
    ensures { result ≡ lookup_numbers (lookup_of profile.now t) }
{
    plan_answers::lookup_answer(profiles::lookup(profile, t))
}

// The same lookup over a lent list of point records.
#[unsafe(no_mangle)]
pub extern "C" fn leafanchor_lookup_records(points: &[Point], t: i32) -> LookupAnswer
    ensures { result ≡ lookup_numbers (lookup_of (flattened points.now) t) }
{
    plan_answers::lookup_answer(point_records::lookup_records(points, t))
}

// The better of two profiles, written to the front of `out`.
#[unsafe(no_mangle)]
pub extern "C" fn leafanchor_better_of(p: &[i32], q: &[i32], out: &mut [i32]) -> BetterAnswer
    ensures answer { result ≡ better_numbers (joined_of p.now q.now out.old) }
    ensures lent { out.new ≡ joined_after p.now q.now out.old }
{
    plan_answers::better_answer(better::better_of(p, q, out))
}

// A profile extended by a packed order, written to the front of `out`.
#[unsafe(no_mangle)]
pub extern "C" fn leafanchor_extend(
    profile: &[i32],
    order: &[u8],
    out: &mut [i32],
    work: &mut [i32],
) -> ExtendAnswer
    ensures answer { result
        ≡ extend_numbers (extended_of profile.now order.now out.old work.old) }
    ensures lent { out.new ≡ out_after profile.now order.now out.old work.old }
    ensures area { work.new
        ≡ extend_work_after profile.now order.now out.old work.old }
{
    plan_answers::extend_answer(extending::extend(profile, order, out, work))
}

// The plan of a packed order; the starts are written in place order to the front of `starts`.
#[unsafe(no_mangle)]
pub extern "C" fn leafanchor_plan(order: &[u8], starts: &mut [i32], work: &mut [i32]) -> PlanAnswer
    ensures answer { result ≡ plan_figures (planned_of order.now starts.old work.old) }
    ensures lent { starts.new ≡ starts_after order.now starts.old work.old }
    ensures area { work.new ≡ plan_work_after order.now starts.old work.old }
{
    plan_answers::plan_answer(planner::plan(order, starts, work))
}

// The plan of a packed order of halves, and the optional seconds that it loses; else as planning.
#[unsafe(no_mangle)]
pub extern "C" fn leafanchor_plan_halves(
    order: &[u8],
    starts: &mut [i32],
    work: &mut [i32],
) -> HalvesAnswer
    ensures answer { result ≡ halves_figures (halves_of order.now starts.old work.old) }
    ensures lent { starts.new ≡ halves_starts_after order.now starts.old work.old }
    ensures area { work.new ≡ halves_work_after order.now starts.old work.old }
{
    plan_answers::halves_answer(halves::plan_halves(order, starts, work))
}

// The plan of a packed order as a packed plan, written to the front of `out`.
#[unsafe(no_mangle)]
pub extern "C" fn leafanchor_write_plan(
    order: &[u8],
    out: &mut [u8],
    work: &mut [i32],
) -> PackAnswer
    ensures answer { result ≡ pack_numbers (written_of order.now out.old work.old) }
    ensures lent { out.new ≡ plan_after order.now out.old work.old }
    ensures area { work.new ≡ write_work_after order.now out.old work.old }
{
    packed_answers::pack_answer(plan_writer::write_plan(order, out, work))
}

// Whether a packed plan is legal for a packed order.
#[unsafe(no_mangle)]
pub extern "C" fn leafanchor_legal(order: &[u8], plan: &[u8]) -> VerdictAnswer
    ensures { result ≡ verdict_numbers (legal_of order.now plan.now) }
{
    verdict_answers::verdict_answer(checking::legal(order, plan))
}

// Whether a packed plan is best for a packed order.
#[unsafe(no_mangle)]
pub extern "C" fn leafanchor_best(order: &[u8], plan: &[u8], work: &mut [i32]) -> VerdictAnswer
    ensures answer { result ≡ verdict_numbers (best_of order.now plan.now work.old) }
    ensures area { work.new ≡ best_work_after order.now plan.now work.old }
{
    verdict_answers::verdict_answer(best_plan::best(order, plan, work))
}

// Which of two openings wins at a time; of equal weights, the one that reaches it sooner.
#[unsafe(no_mangle)]
pub extern "C" fn leafanchor_question(
    first: &[u8],
    second: &[u8],
    t: i32,
    work: &mut [i32],
) -> QuestionAnswer
    ensures answer { result ≡ question_numbers (answer_of sooner first.now second.now t work.old) }
    ensures area { work.new ≡ work_after sooner first.now second.now t work.old }
{
    opening_answers::question_answer(openings::question(first, second, t, work))
}

// The same by the night desk's rule: of equal weights, the first.
#[unsafe(no_mangle)]
pub extern "C" fn leafanchor_question_first(
    first: &[u8],
    second: &[u8],
    t: i32,
    work: &mut [i32],
) -> QuestionAnswer
    ensures answer { result ≡ question_numbers (answer_of to_first first.now second.now t work.old) }
    ensures area { work.new ≡ work_after to_first first.now second.now t work.old }
{
    opening_answers::question_answer(openings::question_first(first, second, t, work))
}

// The choice: which of two openings wins at a time, and where in its bytes the records stand. C takes no slice back. Of equal
// weights, the one that reaches it sooner.
#[unsafe(no_mangle)]
pub extern "C" fn leafanchor_choose(
    first: &[u8],
    second: &[u8],
    t: i32,
    work: &mut [i32],
) -> ChooseAnswer
    ensures answer { result
        ≡ choose_numbers (answer_of sooner first.now second.now t work.old)
        (length first.now) (length second.now) }
    ensures area { work.new ≡ work_after sooner first.now second.now t work.old }
{
    let answer = openings::question(first, second, t, work);
    opening_answers::choose_answer(answer, first.len(), second.len())
}

// The same by the night desk's rule: of equal weights, the first.
#[unsafe(no_mangle)]
pub extern "C" fn leafanchor_choose_first(
    first: &[u8],
    second: &[u8],
    t: i32,
    work: &mut [i32],
) -> ChooseAnswer
    ensures answer { result
        ≡ choose_numbers (answer_of to_first first.now second.now t work.old)
        (length first.now) (length second.now) }
    ensures area { work.new ≡ work_after to_first first.now second.now t work.old }
{
    let told = openings::question_first(first, second, t, work);
    opening_answers::choose_answer(told, first.len(), second.len())
}

// One order more on a sheet of 26 numbers, by its bytes.
#[unsafe(no_mangle)]
pub extern "C" fn leafanchor_sheet_add(
    figures: &mut [u32],
    order: &[u8],
    work: &mut [i32],
) -> SheetAnswer
    ensures answer { result ≡ sheet_numbers (add_refusal figures.old work.old) }
    ensures lent { figures.new ≡ add_after figures.old order.now work.old }
    ensures area { work.new ≡ add_work_after figures.old work.old }
{
    sheet_answers::done_answer(adding::add(figures, order, work))
}

// A second sheet joined to a first.
#[unsafe(no_mangle)]
pub extern "C" fn leafanchor_sheet_join(figures: &mut [u32], more: &[u32]) -> SheetAnswer
    ensures answer { result ≡ sheet_numbers (join_refusal figures.old more.now) }
    ensures lent { figures.new ≡ sheet_after figures.old more.now }
{
    sheet_answers::done_answer(sheet::join(figures, more))
}

// A piece of a stream, of which 29 numbers and a front of 437 bytes are held.
#[unsafe(no_mangle)]
pub extern "C" fn leafanchor_sheet_feed(
    feed: &mut [u32],
    front: &mut [u8],
    piece: &[u8],
    work: &mut [i32],
) -> SheetAnswer
    ensures answer { result
        ≡ sheet_numbers (feed_refusal feed.old front.old piece.now work.old) }
    ensures numbers { feed.new ≡ feed_after feed.old front.old piece.now work.old }
    ensures room { front.new ≡ front_after feed.old front.old piece.now work.old }
    ensures area { work.new ≡ feed_work_after feed.old front.old work.old }
{
    sheet_answers::done_answer(feeding::feed(feed, front, piece, work))
}

// The text of a sheet, written to the front of `text`; any `cut` but 0 says that the stream was cut.
#[unsafe(no_mangle)]
pub extern "C" fn leafanchor_sheet_text(
    figures: &[u32],
    cut: u32,
    text: &mut [u8],
) -> SheetTextAnswer
    ensures answer { result ≡ text_numbers (told_of figures.now (says_cut cut) text.old) }
    ensures lent { text.new ≡ text_after figures.now (says_cut cut) text.old }
{
    sheet_answers::text_answer(sheet_text::tell(figures, cut != 0, text))
}
