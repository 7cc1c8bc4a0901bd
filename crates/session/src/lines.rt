// Lines in blocks of text: a session goes on from block to block.
ghost use Rattle.std.specs.Prelude.{◌≡◌, ◌+◌, ◌≤◌, ◌<◌, ◌^◌, suc, length, take, drop, IfSome};
ghost use Rattle.std.specs.Option.{unwrap_or};
ghost use Rattle.output.specs.Writing.{Wrote};
ghost use Rattle.text.specs.Fronts.{until};
ghost use Rattle.text.specs.Line.{line_feed, longest};
ghost use Rattle.text.specs.Output.{line_room};
ghost use Rattle.session.specs.Session.{cut, finished, at_start, Feeds};

use crate::BAD_LINE;
use controller::State;
use std::marker::Model;

// A session between two lines: the state, and the number of the next line.
#[derive(Clone, Copy, Debug, PartialEq, Eq)]
pub struct Session {
    pub state: State,
    pub number: u64,
}

impl Model for Session {
    ghost use Rattle.controller.specs.State.{IsState};
    ghost use Rattle.session.specs.Between.{Between};

    ghost Value = { Between };

    ghost view = { λ s. record { state = s.state; number = s.number } };

    ghost inverse = { λ s. record { state = s.state; number = s.number } };

    ghost invariant = { λ s. IsState s.state };
}

// What a text came to: how many of its bytes were lines that are answered, and how many bytes were printed.
#[derive(Clone, Copy, Debug, PartialEq, Eq)]
pub struct Fed {
    pub session: Session,
    pub used: usize,
    pub count: usize,
}

// The place of the first line feed.
fn line_feed_in(text: &[u8]) -> Option<usize>
    ensures place { unwrap_or result (length text.now) ≡ length (until line_feed text.now) }
    ensures within { IfSome result (λ end. end < length text.now) }
{
    text.iter().position(|b| *b == b'\n')
}

// Where the line that begins at `from` ends: the place of its line feed, or the end of the text. It counts from the start of the text,
// which whoever goes through a block goes by.
pub fn line_end(text: &[u8], from: usize) -> usize
    requires { from ≤ length text.now }
    ensures { result ≡ from + length (until line_feed (drop from text.now)) }
{
    let rest = &text[from..];
    from + line_feed_in(rest).unwrap_or(rest.len())
}

impl Session {
    #[tactic(auto, using(controller::proofs::States::power_up_is_state))]
    pub fn start() -> Self
        ensures { result ≡ at_start }
    {
        Session {
            state: State::power_up(),
            number: 1,
        }
    }

    // The lines that end in a text, one after the other, until there is no room for the output line of the next. What stands in
    // `lent` afterwards is left free: what is sent is written there, and nobody reads it again.
    //
    // The state is taken apart here: a core, and the queue, which is lent to each input where it stands.
    pub fn feed(self, text: &[u8], lent: &mut [u8], out: &mut [u8]) -> Fed
        requires numbered { self.number + length text.now < 2 ^ 64 }
        requires room { line_room (length lent.old) ≤ length out.old }
        ensures { Feeds self (length lent.old) text.now result out.old out.new }
    {
        let room = text::line_room(lent.len());
        let mut core = self.state.core();
        let mut waiting = self.state.queue.len;
        let mut queue = self.state.queue.bytes;
        let mut number = self.number;
        let mut rest = text;
        let mut at = 0;
        // No `for`: the loop ends where no room is left, or no line, and counts no index.
        while room <= out.len() - at {
            match text::read_line(rest) {
                Some((input, after)) => {
                    let done = core.apply(input, waiting, &mut queue, lent);
                    let answer = controller::number(done.answer);
                    let written = done.answer.unwrap_or(0);
                    core = done.core;
                    waiting = done.waiting;
                    at += text::write_line(number, answer, &lent[..written], &mut out[at..]);
                    number += 1;
                    rest = after;
                }
                None => {
                    let Some(end) = line_feed_in(rest) else {
                        break;
                    };
                    at += text::write_line(number, BAD_LINE, &[], &mut out[at..]);
                    number += 1;
                    rest = &rest[end + 1..];
                }
            }
        }
        Fed {
            session: Session {
                state: core.with_queue(queue, waiting),
                number,
            },
            used: text.len() - rest.len(),
            count: at,
        }
    }
}

// What stands from `from` to `n` goes to the start of the block, where the next bytes follow it, but at most `most` bytes of it. The
// block is lent whole, since they move within it.
pub fn keep_most(block: &mut [u8], from: usize, n: usize, most: usize) -> usize
    requires { (from ≤ n) × (n ≤ length block.old) }
    ensures few { result ≤ most }
    ensures kept { Wrote (take most (drop from (take n block.old))) result block.old block.new }
{
    let kept = (n - from).min(most);
    block.copy_within(from..from + kept, 0);
    kept
}

// The line that has not ended yet, from `from` to `n`. One byte more than the longest good line is enough of it: it is bad then, whatever
// follows.
pub fn keep(block: &mut [u8], from: usize, n: usize) -> usize
    requires { (from ≤ n) × (n ≤ length block.old) }
    ensures few { result ≤ suc longest }
    ensures kept { Wrote (cut (drop from (take n block.old))) result block.old block.new }
{
    keep_most(block, from, n, text::LONGEST_LINE + 1)
}

// The end of the input ends its last line, which may lack its line feed: it gets one, in the room behind the `n` bytes.
#[tactic(auto, using(crate::proofs::Finishing::none_length, crate::proofs::Finishing::none_over, crate::proofs::Finishing::finished_length, crate::proofs::Finishing::finished_over))]
pub fn finish(block: &mut [u8], n: usize) -> usize
    requires { n < length block.old }
    ensures few { result ≤ n + 1 }
    ensures whole { Wrote (finished (take n block.old)) result block.old block.new }
{
    if n == 0 || block[n - 1] == b'\n' {
        return n;
    }
    block[n] = b'\n';
    n + 1
}
