// The lines that records print, for C.
ghost use Rattle.std.specs.Prelude.{◌≡◌, ◌≤◌, length};
ghost use Rattle.printing.specs.Line.{line_longest};
ghost use Rattle.recording_c.specs.Writes.{wrote};
ghost use Rattle.recording_c.specs.Lines.{printed_of, harsolvek_record_line, harsolvek_record_stop};

use crate::BUFFER_SHORT;
use printing::LONGEST;

#[unsafe(no_mangle)]
pub extern "C" fn harsolvek_record_line_raw(
    cci: u32,
    number: u8,
    out: &mut [u8],
    written: &mut usize,
) -> u64
    ensures { wrote result written.new out.new ≡ harsolvek_record_line cci number out.old }
{
    print(printing::line_of(cci, number).text(), out, written)
}

#[unsafe(no_mangle)]
pub extern "C" fn harsolvek_record_stop_raw(out: &mut [u8], written: &mut usize) -> u64
    ensures { wrote result written.new out.new ≡ harsolvek_record_stop out.old }
{
    print(printing::stop().text(), out, written)
}

// A buffer that is shorter than the longest line takes none, also one that would fit.
#[tactic(auto, using(basis::specs::Pick::tests), unfolding(crate::specs::Lines::printed_of))]
fn print(text: &[u8], out: &mut [u8], written: &mut usize) -> u64
    requires { length text.now ≤ line_longest }
    ensures { wrote result written.new out.new ≡ printed_of text.now out.old }
{
    *written = 0;
    if out.len() < LONGEST {
        return BUFFER_SHORT;
    }
    let _ = lent::put(out, 0, text);
    *written = text.len();
    0
}
