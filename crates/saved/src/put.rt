// Writing a line: each stage behind the one before.
ghost use Rattle.std.specs.Prelude.{◌≡◌, ◌++◌, ◌∷◌, [], ◌+◌, ◌*◌, ◌≤◌, length};
ghost use Rattle.output.specs.Writing.{Wrote};
ghost use Rattle.controller.specs.State.{IsState, contents, queue_room};
ghost use Rattle.text.specs.Line.{tab, line_feed};
ghost use Rattle.text.specs.Output.{decimal, shown};
ghost use Rattle.fields.specs.Ranges.{numbered};
ghost use Rattle.saved.specs.Digits.{map_text, word_digits};
ghost use Rattle.saved.specs.Line.{signed, motion_text, field_text, fields_text, line_of};
ghost use Rattle.saved.specs.Load.{map_width};
ghost use Rattle.saved.specs.Answers.{field_width, line_room};

use controller::{Queue, State};
use keys::Keys;
use output::ScanCode;

// Room for every field that is a number: five digits, or a minus and four, and a tab.
pub(crate) const FIELDS_ROOM: usize = 6 * fields::COUNT;

// How many keys have their digit from the map's low word, and how many from its high one.
pub(crate) const LOW_KEYS: usize = 64;

pub(crate) const HIGH_KEYS: usize = ScanCode::LAST_KEY as usize - LOW_KEYS;

// A number. Most have one digit, and need no call.
fn put_decimal(x: u16, out: &mut [u8]) -> usize
    requires { field_width ≤ length out.old }
    ensures { Wrote (decimal x) result out.old out.new }
{
    if x < 10 {
        out[0] = b'0' + x as u8;
        return 1;
    }
    text::write_decimal(x as u64, out)
}

// Held motion, which comes with its limit added.
#[tactic(auto, unfolding(crate::specs::Line::motion_text))]
fn put_motion(x: u16, out: &mut [u8]) -> usize
    requires { field_width ≤ length out.old }
    ensures { Wrote (motion_text x) result out.old out.new }
{
    if x < State::HELD_LIMIT {
        out[0] = b'-';
        return 1 + text::write_decimal((State::HELD_LIMIT - x) as u64, &mut out[1..]);
    }
    put_decimal(x - State::HELD_LIMIT, out)
}

// Whether field i + 1 may have a minus: held motion, X and Y.
pub(crate) fn signed(i: usize) -> bool
    ensures { result ≡ signed i }
{
    matches!(i, fields::HELD_X | fields::HELD_Y)
}

// Field i + 1.
#[tactic(auto, unfolding(crate::specs::Line::field_text))]
fn put_number(i: usize, x: u16, out: &mut [u8]) -> usize
    requires { field_width ≤ length out.old }
    ensures { Wrote (field_text i x) result out.old out.new }
{
    if signed(i) {
        put_motion(x, out)
    } else {
        put_decimal(x, out)
    }
}

// Field i + 1, and the tab after it.
fn put_field(i: usize, x: u16, out: &mut [u8]) -> usize
    requires { field_width ≤ length out.old }
    ensures { (Wrote (field_text i x ++ (tab ∷ [])) result out.old out.new) × (result ≤ field_width) }
{
    let n = put_number(i, x, out);
    out[n] = b'\t';
    n + 1
}

fn put_fields(a: [u16; fields::COUNT], out: &mut [u8]) -> usize
    requires { field_width * numbered ≤ length out.old }
    ensures { (Wrote (fields_text 0 a) result out.old out.new) × (result ≤ field_width * numbered) }
{
    let mut at = 0;
    for (i, x) in a.iter().enumerate() {
        at += put_field(i, *x, &mut out[at..]);
    }
    at
}

// The n lowest bits of a word, lowest first.
fn put_word(word: u64, n: usize, out: &mut [u8]) -> usize
    requires { n ≤ length out.old }
    ensures { Wrote (word_digits n word) result out.old out.new }
{
    let mut rest = word;
    for i in 0..n {
        out[i] = b'0' + (rest % 2) as u8;
        rest /= 2;
    }
    n
}

// A digit for each key, and the tab after them.
fn put_map(keys: Keys, out: &mut [u8]) -> usize
    requires { map_width ≤ length out.old }
    ensures { Wrote (map_text keys ++ (tab ∷ [])) result out.old out.new }
{
    let low = put_word(keys.low, LOW_KEYS, out);
    let n = low + put_word(keys.high, HIGH_KEYS, &mut out[low..]);
    out[n] = b'\t';
    n + 1
}

// The queue, and the line feed after it.
pub(crate) fn put_queue(queue: Queue, out: &mut [u8]) -> usize
    requires queue { (queue.len ≤ queue_room) × (length queue.bytes ≡ queue_room) }
    requires room { 2 * queue_room + 1 ≤ length out.old }
    ensures { (Wrote (shown (contents queue) ++ (line_feed ∷ [])) result out.old out.new) × (result ≤ 2 * queue_room + 1) }
{
    let n = text::write_shown(&queue.bytes[..queue.len], out);
    out[n] = b'\n';
    n + 1
}

// The line of a state, and how many bytes it has.
pub(crate) fn put_line(state: State, out: &mut [u8]) -> usize
    requires state { IsState state }
    requires room { line_room ≤ length out.old }
    ensures { (Wrote (line_of state) result out.old out.new) × (result ≤ line_room) }
{
    let a = fields::numbers(state);
    let mut at = put_fields(a, out);
    at += put_map(state.keys, &mut out[at..]);
    at + put_queue(state.queue, &mut out[at..])
}
