// What the program says of a stream: the text of its sheet, or that there are too many orders. Assumes nothing.
#![tactic(auto)]

ghost use Rattle.text.specs.Buffer.{Wrote};
ghost use Rattle.sheet.specs.Sheet.{sheet_in};
ghost use Rattle.week_report.specs.WeekText.{held_text};
ghost use Rattle.week_report.specs.Telling.{CanTell};

use feeding::is_over;
use refusals::Reason;
use report::put_refusal;
use sheet_text::tell;

// The text for what is held of a stream at its end, at the front of `out`: by its figures, and how many bytes of a further length
// have come.
pub fn tell_held(known: u32, figures: &[u32], out: &mut [u8]) -> usize
    requires { CanTell figures.now out.old }
    ensures { Wrote out.old 0 (held_text (sheet_in figures.now) known) out.new result }
{
    if is_over(figures) {
        return put_refusal(out, Reason::NoSheet.into());
    }
    tell(figures, known > 0, out).unwrap()
}
