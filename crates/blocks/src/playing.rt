// The lines of a session.
ghost use Rattle.std.specs.Prelude.{◌≡◌, ◌≤◌};
ghost use Rattle.controller.specs.State.{most_due};
ghost use Rattle.text.specs.Output.{line_room};
ghost use Rattle.blocks.specs.Playing.{Plays};

use crate::{Lines, Part};
use controller::State;
use session::Session;

// A session, and the buffer that is lent with each of its inputs.
#[derive(Drop)]
pub struct Playing {
    pub session: Session,
    pub lent: [u8; State::MOST_DUE],
}

impl Playing {
    pub fn new(session: Session) -> Self
        ensures { result.session ≡ session }
    {
        Playing {
            session,
            lent: [0; State::MOST_DUE],
        }
    }
}

impl Lines for Playing {
    ghost number = { λ p. p.session.number };

    ghost is_ready = { λ _ room. line_room most_due ≤ room };

    ghost answers = { λ p t used printed n. Plays most_due p.session t used printed n.session };

    ghost MOST_KEPT = { 20 };

    // One byte more than the longest good line is enough: it is bad then, whatever follows.
    const MOST_KEPT: usize = text::LONGEST_LINE + 1;

    fn answer(&mut self, text: &[u8], out: &mut [u8]) -> Part {
        let fed = self.session.feed(text, &mut self.lent, out);
        self.session = fed.session;
        Part {
            used: fed.used,
            count: fed.count,
        }
    }
}
