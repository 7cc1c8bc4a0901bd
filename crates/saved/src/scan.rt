// Reading a line: its numbers, the map and the queue, each as it is written. What stands at the front is read, and the rest handed on.
ghost use Rattle.std.specs.Prelude.{◌≡◌, true, ◌≤◌, ◌+◌, ◌*◌, ◌%◌, cond, eqb, length, take, drop, ◌∷◌, [], ◌++◌, bytes_eq, option_map};
ghost use Rattle.controller.specs.State.{contents, queue_room, queue_of};
ghost use Rattle.text.specs.Line.{line_feed, hex_digit};
ghost use Rattle.text.specs.Fronts.{seen};
ghost use Rattle.text.specs.Output.{shown};
ghost use Rattle.fields.specs.Ranges.{numbered};
ghost use Rattle.saved.specs.Digits.{word_from, map_from};
ghost use Rattle.saved.specs.Load.{may_follow, number_from, motion_from, field_from, read_numbers, map_width, read_queue, load, is_minus};

use crate::put::{HIGH_KEYS, LOW_KEYS, put_queue, signed};
use controller::{Queue, State};
use keys::Keys;
use output::ScanCode;

// The map's digits and the tab behind them.
pub(crate) const MAP_WIDTH: usize = ScanCode::LAST_KEY as usize + 1;

// Whether a byte is a digit that may follow those of a number, of which it may be the first: no digit follows a leading zero, and the
// number keeps its 16 bits.
fn may_follow(first: bool, value: u16, b: u8) -> bool
    ensures { result ≡ may_follow first value b }
{
    b.is_ascii_digit()
        && (first || 0 < value)
        && u32::from(value) * 10 + u32::from(b - b'0') < 65536
}

// The number that the bytes up to a tab are. Most have one digit.
fn number(line: &[u8]) -> Option<(u16, &[u8])>
    ensures { seen result ≡ number_from true 0 line.now }
{
    if let [b @ b'0'..=b'9', b'\t', rest @ ..] = line {
        return Some((u16::from(*b - b'0'), rest));
    }
    let mut value = 0;
    for (i, b) in line.iter().enumerate() {
        if *b == b'\t' {
            return if i == 0 {
                None
            } else {
                Some((value, &line[i + 1..]))
            };
        }
        if !may_follow(i == 0, value, *b) {
            return None;
        }
        value = value * 10 + u16::from(*b - b'0');
    }
    None
}

// Held motion, with its limit added. 0 has no minus.
fn motion(line: &[u8]) -> Option<(u16, &[u8])>
    ensures { seen result ≡ motion_from line.now }
{
    if let [b'-', digits @ ..] = line {
        let (n, rest) = number(digits)?;
        return if 0 < n && n <= State::HELD_LIMIT {
            Some((State::HELD_LIMIT - n, rest))
        } else {
            None
        };
    }
    let (n, rest) = number(line)?;
    if n <= State::HELD_LIMIT {
        Some((State::HELD_LIMIT + n, rest))
    } else {
        None
    }
}

// Field i + 1.
#[tactic(auto, unfolding(crate::specs::Load::field_from))]
fn field(i: usize, line: &[u8]) -> Option<(u16, &[u8])>
    ensures { seen result ≡ field_from i line.now }
{
    if signed(i) {
        motion(line)
    } else {
        number(line)
    }
}

// All numbers of a line.
fn numbers(line: &[u8]) -> Option<([u16; fields::COUNT], &[u8])>
    ensures { seen result ≡ read_numbers numbered 0 line.now }
{
    let mut numbers = [0; fields::COUNT];
    let mut rest = line;
    for i in 0..fields::COUNT {
        let (x, after) = field(i, rest)?;
        numbers[i] = x;
        rest = after;
    }
    Some((numbers, rest))
}

// The word whose lowest bits are these digits, lowest first.
fn word(digits: &[u8]) -> Option<u64>
    requires { length digits.now ≤ 64 }
    ensures { result ≡ word_from (length digits.now) digits.now }
{
    let mut bits = 0;
    for (i, b) in digits.iter().enumerate() {
        if !matches!(*b, b'0' | b'1') {
            return None;
        }
        bits += u64::from(*b - b'0') << i;
    }
    Some(bits)
}

// The map of the keys. A tab stands behind it.
fn map(line: &[u8]) -> Option<(Keys, &[u8])>
    ensures { seen result ≡ option_map (λ m. (m, drop map_width line.now)) (map_from line.now) }
{
    if line.len() < MAP_WIDTH {
        return None;
    }
    let (low, rest) = line.split_at(LOW_KEYS);
    let (high, rest) = rest.split_at(HIGH_KEYS);
    let low = word(low)?;
    let high = word(high)?;
    let [b'\t', rest @ ..] = rest else {
        return None;
    };
    Some((Keys { low, high }, rest))
}

// The byte of two digits, whatever they are: that a digit was none is seen when the queue is written again.
fn byte(high: u8, low: u8) -> u8
    ensures { result ≡ (16 * hex_digit high + hex_digit low) % 256 }
{
    let high = text::hex_digit(high).unwrap_or(16);
    let low = text::hex_digit(low).unwrap_or(16);
    high.wrapping_mul(16).wrapping_add(low)
}

// The queue: two digits for each byte. What follows them is not looked at.
fn queue(text: &[u8]) -> Queue
    ensures { result ≡ queue_of (take queue_room (read_queue text.now)) }
{
    let mut bytes = [0; State::QUEUE_ROOM];
    let mut rest = text;
    for len in 0..State::QUEUE_ROOM {
        let [high, low, after @ ..] = rest else {
            return Queue { bytes, len };
        };
        if *high == b'-' {
            return Queue { bytes, len };
        }
        bytes[len] = byte(*high, *low);
        rest = after;
    }
    Queue {
        bytes,
        len: State::QUEUE_ROOM,
    }
}

// Whether the queue and a line feed are all that a text is.
fn is_queue(queue: Queue, text: &[u8]) -> bool
    requires { (queue.len ≤ queue_room) × (length queue.bytes ≡ queue_room) }
    ensures { result ≡ bytes_eq (shown (contents queue) ++ (line_feed ∷ [])) text.now }
{
    let mut line = [0; 2 * State::QUEUE_ROOM + 1];
    let n = put_queue(queue, &mut line);
    &line[..n] == text
}

// How many bytes may be queued: none, unless output is paused.
fn most_queued(paused: u16) -> usize
    ensures { result ≡ cond (eqb paused 1) queue_room 0 }
{
    if paused == 1 { State::QUEUE_ROOM } else { 0 }
}

// The state of a line, its line feed included, if it is one that a state writes.
pub(crate) fn state(line: &[u8]) -> Option<State>
    ensures { result ≡ load queue_room line.now }
{
    let (numbers, rest) = numbers(line)?;
    if !fields::all_fit(numbers) {
        return None;
    }
    let (keys, tail) = map(rest)?;
    let queue = queue(tail);
    if most_queued(numbers[fields::PAUSED]) < queue.len {
        return None;
    }
    if !is_queue(queue, tail) {
        return None;
    }
    Some(fields::state_from(numbers, keys, queue))
}

// Whether a line is a minus, with its line feed or without.
#[tactic(auto, unfolding(crate::specs::Load::is_minus))]
pub(crate) fn is_minus(line: &[u8]) -> bool
    ensures { result ≡ is_minus line.now }
{
    matches!(line, [b'-'] | [b'-', b'\n'])
}
