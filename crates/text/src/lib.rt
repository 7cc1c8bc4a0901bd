// The text program's lines: what a line of input means, and the line of output for an answer.
#![tactic(auto)]

ghost use Rattle.std.specs.Prelude.{◌≡◌, ◌≤◌, ◌<◌, ◌^◌, length};
ghost use Rattle.output.specs.Writing.{Wrote};
ghost use Rattle.text.specs.Line.{longest};
ghost use Rattle.text.specs.Fronts.{seen};
ghost use Rattle.text.specs.Reading.{read_of};
ghost use Rattle.text.specs.Output.{header, output_line, line_room};

use controller::Input;
use mouse::Side;

mod figures;
mod kinds;
mod numbers;

pub use figures::{write_decimal, write_shown};
pub use numbers::hex_digit;

// The most bytes of a good line: a longer one may be cut anywhere past them.
pub const LONGEST_LINE: usize = 19;

// The same, as the specifications have it.
pub fn longest_line() -> usize
    ensures { result ≡ longest }
{
    LONGEST_LINE
}

// The most bytes of an output line beside the two for each byte written: 20 digits, two tabs, the answer, `-` and the line feed.
pub const LINE_REST: usize = 25;

// Room for the output line of `n` bytes.
pub fn line_room(n: usize) -> usize
    requires { line_room n < 2 ^ 64 }
    ensures { result ≡ line_room n }
{
    2 * n + LINE_REST
}

// The input of the line at the front of a text, and the text after the line. It is read up to its line feed in one go, which is not
// looked for first. Whoever is told that there is none looks for the line feed: the line is bad where there is one, and has not ended
// where there is none.
#[tactic(auto, using(crate::proofs::Letters::no_good))]
pub fn read_line(text: &[u8]) -> Option<(Input, &[u8])>
    ensures { seen result ≡ read_of text.now }
{
    match text {
        [b'T', b'\n', rest @ ..] => Some((Input::Tick, rest)),
        [b'B', b'\t', rest @ ..] => kinds::byte_line(rest),
        [b'K', b'\t', rest @ ..] => kinds::key_line(rest),
        [b'L', b'\t', rest @ ..] => kinds::button_line(Side::Left, rest),
        [b'R', b'\t', rest @ ..] => kinds::button_line(Side::Right, rest),
        [b'M', b'\t', rest @ ..] => kinds::motion_line(rest),
        [b'S', b'\t', rest @ ..] => kinds::stick_line(rest),
        [b'F', b'\t', rest @ ..] => kinds::sample_line(rest),
        _ => None,
    }
}

// The first line of the output. `listing` has a header of its own: one call each, with another constant.
pub fn write_header(out: &mut [u8]) -> usize
    requires { length header ≤ length out.old }
    ensures { Wrote header result out.old out.new }
{
    output::copy(b"line\tanswer\tbytes\n", out)
}

// The output line for the input line with this number: the answer, and the bytes written.
#[tactic(auto, using(crate::proofs::Shown::line_length, output::proofs::Writing::both, crate::proofs::Shown::line_end))]
pub fn write_line(number: u64, answer: u8, bytes: &[u8], out: &mut [u8]) -> usize
    requires { (answer ≤ 9) × (length (output_line number answer bytes.now) ≤ length out.old) }
    ensures { Wrote (output_line number answer bytes.now) result out.old out.new }
{
    let mut at = write_decimal(number, out);
    at += output::put3(b'\t', b'0' + answer, b'\t', &mut out[at..]);
    at += write_shown(bytes, &mut out[at..]);
    out[at] = b'\n';
    at + 1
}
