// Plays sessions with buffers of any length. A line `=`, a tab and a number begins a session from power-up in which that many bytes
// are lent with every input; it is printed as it stands. A line `?`, a tab and a word is a door for what no input tells or does. Four
// words ask and change nothing: `queue` for the bytes that wait, `lamp` for how many keys are held, and, into the lent buffer, `look` for
// the report of absolute mode and `save` for the saved line. Two change the state: `clear` empties the latches; and after `load`, a tab
// and bytes in hexadecimal the session goes on from the state that these bytes are the saved line of, or from power-up where they are the
// line of none. For every line its number in the session, the answer and the bytes are printed, as the text program prints them.
#![tactic(auto)]

ghost use Rattle.std.specs.Prelude.{◌≡◌, ◌+◌, ◌≤◌, ◌<◌, ◌^◌, IfSome, length};
ghost use Rattle.controller.specs.State.{IsState, most_due, queue_room};
ghost use Rattle.text.specs.Reading.{first_line};
ghost use Rattle.text.specs.Output.{line_room};

use blocks::{BLOCK, Lines, MOST_BLOCKS, Part};
use controller::State;
use std::io;
use std::io::{Read, Write};

// The most bytes of a line of `load`.
const MOST_LINE: usize = 16_384;

// What no input tells: the bytes that wait, how many keys are held, the report of absolute mode, or the saved line.
#[derive(Clone, Copy, Debug, PartialEq, Eq)]
pub enum Question {
    Queue,
    Lamp,
    Look,
    Save,
}

// Sessions, one after the other: the state, the number of the next line, the buffer, and how many bytes of it are lent with each input.
#[derive(Drop)]
pub struct Sessions {
    pub state: State,
    pub number: u64,
    pub buffer: [u8; State::MOST_DUE],
    pub lent: usize,
}

// The number in a line that begins a session: `=`, a tab and one to five decimal digits.
fn head_in(line: &[u8]) -> Option<usize> {
    let [b'=', b'\t', digits @ ..] = line else {
        return None;
    };
    if digits.is_empty() || 5 < digits.len() {
        return None;
    }
    let mut value = 0;
    for digit in digits {
        if !digit.is_ascii_digit() {
            return None;
        }
        value = 10 * value + usize::from(*digit - b'0');
    }
    Some(value)
}

fn question_in(line: &[u8]) -> Option<Question> {
    match line {
        b"?\tqueue" => Some(Question::Queue),
        b"?\tlamp" => Some(Question::Lamp),
        b"?\tlook" => Some(Question::Look),
        b"?\tsave" => Some(Question::Save),
        _ => None,
    }
}

// Whether these are bytes in hexadecimal, two upper-case digits each, or a minus for none.
fn are_bytes(digits: &[u8]) -> bool {
    match digits {
        [] => false,
        [b'-'] => true,
        _ => digits.len() % 2 == 0 && digits.iter().all(|digit| text::hex_digit(*digit).is_some()),
    }
}

// The bytes in a line that is `?`, a tab, `load`, a tab and bytes.
fn load_in(line: &[u8]) -> Option<&[u8]> {
    if MOST_LINE < line.len() {
        return None;
    }
    let digits = line.strip_prefix(b"?\tload\t")?;
    if are_bytes(digits) {
        Some(digits)
    } else {
        None
    }
}

// The bytes that these digits spell, as many as there is room for: how many.
fn spell(digits: &[u8], out: &mut [u8]) -> usize
    ensures { result ≤ length out.old }
{
    let n = out.len().min(digits.len() / 2);
    for i in 0..n {
        let (Some(high), Some(low)) = (
            text::hex_digit(digits[2 * i]),
            text::hex_digit(digits[2 * i + 1]),
        ) else {
            return i;
        };
        out[i] = 16 * high + low;
    }
    n
}

// The line of output that answers a question.
fn answer_question(
    question: Question,
    state: State,
    number: u64,
    lent: &mut [u8],
    out: &mut [u8],
) -> usize
    requires state { IsState state }
    requires room { (line_room queue_room ≤ length out.old) × (line_room (length lent.old) ≤ length out.old) }
    ensures { result ≤ length out.old }
{
    match question {
        Question::Queue => session::tell_queue(state, number, out),
        Question::Lamp => session::tell_lamp(state, number, out),
        Question::Look => session::tell_look(state, number, lent, out),
        Question::Save => tell_saved(state, number, lent, out),
    }
}

// The saved line, into as much of a buffer as is lent.
fn tell_saved(state: State, number: u64, lent: &mut [u8], out: &mut [u8]) -> usize
    requires state { IsState state }
    requires room { line_room (length lent.old) ≤ length out.old }
    ensures { result ≤ length out.old }
{
    let saved = saved::write(state, lent);
    let n = saved.unwrap_or(0);
    text::write_line(number, saved::save_number(saved), &lent[..n], out)
}

impl Sessions {
    // The first session, before its line.
    #[tactic(auto, using(controller::proofs::States::power_up_is_state))]
    fn new() -> Self
        ensures ready { IsState result.state }
        ensures first { result.number ≡ 1 }
        ensures within { result.lent ≤ 8264 }
    {
        Sessions {
            state: State::power_up(),
            number: 1,
            buffer: [0; State::MOST_DUE],
            lent: State::MOST_DUE,
        }
    }

    // The next session, with so many bytes lent.
    #[tactic(auto, using(controller::proofs::States::power_up_is_state))]
    fn begin(&mut self, lent: usize)
        ensures ready { IsState self.new.state }
        ensures first { self.new.number ≡ 1 }
        ensures within { self.new.lent ≤ 8264 }
    {
        self.state = State::power_up();
        self.number = 1;
        self.lent = lent.min(State::MOST_DUE);
    }

    // The session goes on with empty latches.
    fn clear(&mut self, number: u64, out: &mut [u8]) -> usize
        requires state { IsState self.old.state }
        requires room { line_room 0 ≤ length out.old }
        ensures ready { IsState self.new.state }
        ensures keeps { (self.new.number ≡ self.old.number) × (self.new.lent ≡ self.old.lent) }
        ensures within { result ≤ length out.old }
    {
        self.state = self.state.cleared();
        text::write_line(number, 0, &[], out)
    }

    // The session goes on from the state that these bytes are the saved line of, or from power-up.
    fn load(&mut self, number: u64, digits: &[u8], out: &mut [u8]) -> usize
        requires room { line_room 0 ≤ length out.old }
        ensures ready { IsState self.new.state }
        ensures keeps { (self.new.number ≡ self.old.number) × (self.new.lent ≡ self.old.lent) }
        ensures within { result ≤ length out.old }
    {
        let n = spell(digits, &mut self.buffer);
        let loaded = saved::read(&self.buffer[..n]);
        self.state = loaded.state;
        text::write_line(number, saved::load_number(loaded.answer), &[], out)
    }

    // The line at the front of a text, of `n` bytes and a line feed: how many bytes are printed for it.
    fn print(&mut self, text: &[u8], n: usize, out: &mut [u8]) -> usize
        requires line { (n ≡ length (first_line text.now)) × (n < length text.now) }
        requires ready { (IsState self.old.state) × (self.old.lent ≤ 8264) }
        requires numbered { self.old.number + 1 < 2 ^ 64 }
        requires room { line_room most_due ≤ length out.old }
        ensures ready { (IsState self.new.state) × (self.new.lent ≤ 8264) }
        ensures numbered { self.new.number ≤ self.old.number + 1 }
        ensures within { result ≤ length out.old }
    {
        let line = &text[..n];
        if let Some(lent) = head_in(line)
            && n < out.len()
        {
            output::copy(line, out);
            out[n] = b'\n';
            self.begin(lent);
            return n + 1;
        }
        let number = self.number;
        self.number += 1;
        if matches!(line, b"?\tclear") {
            return self.clear(number, out);
        }
        if let Some(digits) = load_in(line) {
            return self.load(number, digits, out);
        }
        let state = self.state;
        let lent = &mut self.buffer[..self.lent];
        if let Some(question) = question_in(line) {
            return answer_question(question, state, number, lent, out);
        }
        let played = session::play(state, number, text, lent, out);
        self.state = played.state;
        played.count
    }
}

impl Lines for Sessions {
    ghost number = { λ s. s.number };

    ghost is_ready = { λ s room. IsState s.state × (s.lent ≤ 8264) × (line_room most_due ≤ room) };

    ghost answers = { λ _ _ _ _ _. Unit {0} };

    ghost MOST_KEPT = { 16385 };

    // With one byte more than a line of `load` has at most it is bad, whatever follows.
    const MOST_KEPT: usize = MOST_LINE + 1;

    // One line at a time.
    fn answer(&mut self, text: &[u8], out: &mut [u8]) -> Part {
        let n = session::line_end(text, 0);
        if n == text.len() {
            return Part { used: 0, count: 0 };
        }
        let count = self.print(text, n, out);
        Part { used: n + 1, count }
    }
}

// The lines of all sessions, block by block.
fn run<R: Read, W: Write>(
    input: &mut R,
    output: &mut W,
    block: &mut [u8; BLOCK],
    out: &mut [u8; BLOCK],
) -> io::Result<()> {
    let mut sessions = Sessions::new();
    blocks::run(input, output, &mut sessions, block, 0, out, MOST_BLOCKS)
}

fn main(rt: HostRuntime) {
    let mut input = rt.stdin();
    let mut output = rt.stdout();
    let mut block = [0; BLOCK];
    let mut out = [0; BLOCK];
    // A write that fails ends the program: nobody is left to tell, and the exit status is 0.
    let _ = run(&mut input, &mut output, &mut block, &mut out);
}
