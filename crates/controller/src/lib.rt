#![tactic(auto)]

mod apply;
mod command;
mod due;
mod event;
mod look;
mod send;
mod step;

// The controller: its state, what goes in and what comes out of a step.
ghost use Rattle.std.specs.Prelude.{◌≡◌};
ghost use Rattle.keys.specs.Keys.{held};
ghost use Rattle.controller.specs.State.{power_up, reset_but, limits, IsState};
ghost use Rattle.controller.specs.Step.{number};
ghost use Rattle.controller.specs.Applying.{core_of, joined};

use clock::Clock;
use keys::Keys;
pub use look::{LookRefusal, look_number};
use mouse::{Mouse, Side};
use output::{Run, Short};
use protocol::{Command, Settings};
use sticks::Sticks;

// How many bytes the queue takes.
const QUEUE_ROOM: usize = 128;

// Bytes kept back while output is paused; those past them are 0.
pub type Queue = Run<QUEUE_ROOM>;

#[derive(Clone, Copy, Debug, PartialEq, Eq)]
pub struct State {
    pub settings: Settings,
    pub command: Command,
    pub paused: bool,
    pub queue: Queue,
    pub mouse: Mouse,
    pub sticks: Sticks,
    pub clock: Clock,
    pub keys: Keys,
}

// A host byte, or an event. Every value has an answer: a number outside its range is answered, not shut out.
#[derive(Clone, Copy, Debug, PartialEq, Eq)]
pub enum Input {
    Byte(u8),
    Key {
        code: u8,
        down: bool,
    },
    Button {
        side: Side,
        down: bool,
    },
    Move {
        dx: i16,
        dy: i16,
    },
    Joystick {
        stick: i16,
        position: i16,
        trigger: i16,
    },
    Sample(i16),
    Tick,
}

// Why an input is refused: nothing is written, and the state stays.
#[derive(Clone, Copy, Debug, PartialEq, Eq)]
pub enum Refusal {
    OutOfRange,
    QueueFull,
    MotionFull,
    BufferShort,
}

// What a step hands back. Of an input that was taken the answer counts the bytes that stand at the start of the lent buffer.
#[derive(Clone, Copy, Debug, PartialEq, Eq)]
pub struct Stepped {
    pub answer: Result<usize, Refusal>,
    pub state: State,
}

// The limits of the protocol, as one value.
#[derive(Clone, Copy, Debug, PartialEq, Eq)]
pub struct Limits {
    pub queue: usize,
    pub held: u16,
    pub buffer: usize,
}

// The state without its queue, whose bytes are lent beside it: nothing that is handed on grows with the queue's room. The order of the
// fields is one of those that cost the session's loop the fewest instructions (docs/DECISIONS.md has what was measured).
#[derive(Clone, Copy, Debug, PartialEq, Eq)]
pub struct Core {
    pub settings: Settings,
    pub keys: Keys,
    pub clock: Clock,
    pub mouse: Mouse,
    pub paused: bool,
    pub command: Command,
    pub sticks: Sticks,
}

// What an input came to: the answer of the step, and how many bytes wait at the start of the lent queue.
#[derive(Clone, Copy, Debug, PartialEq, Eq)]
pub struct Applied {
    pub answer: Result<usize, Refusal>,
    pub waiting: usize,
    pub core: Core,
}

// What an executed command does besides the settings: its own packet, and the parts afterwards.
#[derive(Clone, Copy, Debug, PartialEq, Eq)]
pub struct Acted {
    pub short: Short,
    pub mouse: Mouse,
    pub sticks: Sticks,
    pub clock: Clock,
}

// The number that the protocol gives an answer. Each kind of answer has a function of its own, since each has a definition of its own with
// a line for each case.
pub fn number(answer: Result<usize, Refusal>) -> u8
    ensures { result ≡ number answer }
{
    match answer {
        Ok(_) => 0,
        Err(Refusal::OutOfRange) => 1,
        Err(Refusal::QueueFull) => 2,
        Err(Refusal::MotionFull) => 3,
        Err(Refusal::BufferShort) => 4,
    }
}

impl Core {
    // Everything but the clock and the map of the keys is as at power-up.
    pub(crate) fn reset_but(clock: Clock, keys: Keys) -> Self
        ensures { result ≡ core_of (reset_but clock keys) }
    {
        Core {
            settings: Settings::power_up(),
            command: Command::none(),
            paused: false,
            mouse: Mouse::power_up(),
            sticks: Sticks::power_up(),
            clock,
            keys,
        }
    }

    // The whole state again, with the first `waiting` bytes of a queue waiting.
    pub fn with_queue(self, bytes: [u8; QUEUE_ROOM], waiting: usize) -> State
        ensures { result ≡ joined self bytes waiting }
    {
        let Core {
            settings,
            keys,
            clock,
            mouse,
            paused,
            command,
            sticks,
        } = self;
        let queue = Queue {
            bytes,
            len: waiting,
        };
        State {
            settings,
            command,
            paused,
            queue,
            mouse,
            sticks,
            clock,
            keys,
        }
    }
}

impl State {
    pub const QUEUE_ROOM: usize = QUEUE_ROOM;

    pub const HELD_LIMIT: u16 = Mouse::HELD_LIMIT;
    // The most bytes due at once: a full queue, four for each step of the held motion of both axes, and a reply.
    pub const MOST_DUE: usize = QUEUE_ROOM + 4 * (Mouse::HELD_LIMIT as usize) + 8;

    pub fn limits() -> Limits
        ensures { result ≡ limits }
    {
        Limits {
            queue: State::QUEUE_ROOM,
            held: State::HELD_LIMIT,
            buffer: State::MOST_DUE,
        }
    }

    pub fn power_up() -> Self
        ensures { result ≡ power_up }
    {
        Core::reset_but(Clock::power_up(), Keys::none()).with_queue([0; QUEUE_ROOM], 0)
    }

    // The state without its queue.
    pub fn core(self) -> Core
        ensures { result ≡ core_of self }
    {
        Core {
            settings: self.settings,
            command: self.command,
            paused: self.paused,
            mouse: self.mouse,
            sticks: self.sticks,
            clock: self.clock,
            keys: self.keys,
        }
    }

    // How many keys are held, for the lamp on the board: counted from the map on each call.
    pub fn lamp(self) -> u8
        requires { IsState self }
        ensures { result ≡ held self.keys }
    {
        self.keys.count()
    }
}
