// A session of the text program: one line after the other, in whatever blocks they come.
#![tactic(auto)]

ghost use Rattle.std.specs.Prelude.{◌≡◌, ◌≤◌, ◌<◌, length};
ghost use Rattle.output.specs.Writing.{Wrote};
ghost use Rattle.controller.specs.State.{IsState};
ghost use Rattle.text.specs.Line.{line_of};
ghost use Rattle.text.specs.Reading.{first_line};
ghost use Rattle.text.specs.Output.{line_room};
ghost use Rattle.session.specs.Play.{printed, state_then};

use controller::State;

mod ask;
mod lines;

pub use ask::{tell_lamp, tell_look, tell_queue};
pub use lines::{Fed, Session, finish, keep, keep_most, line_end};

// The answer to a bad line.
pub(crate) const BAD_LINE: u8 = 9;

// What a line came to: the state afterwards, and how many bytes were printed.
#[derive(Clone, Copy, Debug, PartialEq, Eq)]
pub struct Played {
    pub state: State,
    pub count: usize,
}

// The line at the front of a text, which has its line feed: it is read, the step takes it with the lent buffer, and its line of output
// is written. What stands in `lent` afterwards is left free: it is all in the line of output.
pub fn play(state: State, number: u64, text: &[u8], lent: &mut [u8], out: &mut [u8]) -> Played
    requires state { IsState state }
    requires line { length (first_line text.now) < length text.now }
    requires room { line_room (length lent.old) ≤ length out.old }
    ensures printed { Wrote (printed state (length lent.old) number (line_of (first_line text.now))) result.count out.old out.new }
    ensures next { result.state ≡ state_then state (length lent.old) (line_of (first_line text.now)) }
    ensures keeps { IsState result.state }
{
    let Some((input, _)) = text::read_line(text) else {
        let count = text::write_line(number, BAD_LINE, &[], out);
        return Played { state, count };
    };
    let done = state.step(input, lent);
    let answer = controller::number(done.answer);
    let written = done.answer.unwrap_or(0);
    let sent = &lent[..written];
    let count = text::write_line(number, answer, sent, out);
    Played {
        state: done.state,
        count,
    }
}
