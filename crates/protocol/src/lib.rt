// Commands and settings: what the host can set, and a command of which not all bytes have come.
#![tactic(auto)]

ghost use Rattle.std.specs.Prelude.{◌≡◌};
ghost use Rattle.protocol.specs.Reading.{no_command};
ghost use Rattle.protocol.specs.Settings.{power_up, acts_as, monitors, is_absolute, is_mouse};

use motion::Axes;

mod answer;
mod code;
mod read;
mod set;

pub use code::{meaning_of, parameters_of};

// Maximum and deltas: for each axis, as thresholds and scales are.
#[derive(Clone, Copy, Debug, PartialEq, Eq)]
pub enum MouseMode {
    Relative,
    Absolute { maximum: Axes<u16> },
    Keycode { delta: Axes<u8> },
}

// How an arrow key repeats along an axis, in tenths of a second: every `before` (the protocol's T) up to the
// `breakpoint` (R), and every `after` (V) from then on.
#[derive(Clone, Copy, Debug, PartialEq, Eq)]
pub struct Repeat {
    pub breakpoint: u8,
    pub before: u8,
    pub after: u8,
}

// In keycode mode the stick gives arrow keys. (The mouse has a keycode mode of its own.)
#[derive(Clone, Copy, Debug, PartialEq, Eq)]
pub enum StickMode {
    Event,
    Interrogation,
    Monitoring { rate: u8 },
    Fire,
    StickKeycode { x: Repeat, y: Repeat },
}

// What port 0 is taken for.
#[derive(Clone, Copy, Debug, PartialEq, Eq)]
pub enum Role {
    ForMouse,
    ForJoystick,
}

#[derive(Clone, Copy, Debug, PartialEq, Eq)]
pub struct Settings {
    pub mouse: MouseMode,
    pub action: u8,
    pub threshold: Axes<u8>,
    pub scale: Axes<u8>,
    pub bottom: bool,
    pub mouseon: bool,
    pub stick: StickMode,
    pub stickson: bool,
    pub port0: Role,
}

// What a command code means. 0x07 to 0x10: the mouse's commands, which make port 0 a mouse.
#[derive(Clone, Copy, Debug, PartialEq, Eq)]
pub enum MouseCommand {
    SetAction,
    SetRelative,
    SetAbsolute,
    SetKeycode,
    SetThreshold,
    SetScale,
    ReportPosition,
    LoadPosition,
    OriginBottom,
    OriginTop,
}

// 0x14 to 0x1A: the joysticks' commands, which make port 0 a joystick.
#[derive(Clone, Copy, Debug, PartialEq, Eq)]
pub enum StickCommand {
    SetEvent,
    SetInterrogation,
    ReportSticks,
    SetMonitoring,
    SetFire,
    SetStickKeycode,
    SticksOff,
}

// 0x11, 0x12, 0x1B and 0x1C leave port 0's role.
#[derive(Clone, Copy, Debug, PartialEq, Eq)]
pub enum OtherCommand {
    Resume,
    MouseOff,
    SetClock,
    ReportClock,
}

// The eight inquiries: 87 88 8B 8C 8F 92 of the mouse, 94 9A of the sticks.
#[derive(Clone, Copy, Debug, PartialEq, Eq)]
pub enum Inquiry {
    AskAction,
    AskMouse,
    AskThreshold,
    AskScale,
    AskOrigin,
    AskMouseOff,
    AskStick,
    AskSticksOff,
}

// `Nothing`: a code that does nothing. `Memory`: the three memory commands, read to their end and ignored.
#[derive(Clone, Copy, Debug, PartialEq, Eq)]
pub enum Meaning {
    Nothing,
    Memory,
    Pause,
    Reset,
    OfMouse(MouseCommand),
    OfStick(StickCommand),
    OfOther(OtherCommand),
    Inquire(Inquiry),
}

// A half-received command: its code, how many parameter bytes have come, those bytes, and how many data bytes of a
// memory load (0x20) are still to come. A saved line has these numbers as they are: so it is code 0, and no `Option`, where
// none is half received, and `come` and `params` stand side by side.
#[derive(Clone, Copy, Debug, PartialEq, Eq)]
pub struct Command {
    pub code: u8,
    pub come: u8,
    pub params: [u8; 6],
    pub pending: u8,
}

// A command of which all bytes have come: its code, and the six places for its parameters.
#[derive(Clone, Copy, Debug, PartialEq, Eq)]
pub struct Whole {
    pub code: u8,
    pub params: [u8; 6],
}

// What a host byte came to: the command that it made whole, if it did, and what is half received afterwards.
#[derive(Clone, Copy, Debug, PartialEq, Eq)]
pub struct Received {
    pub command: Command,
    pub whole: Option<Whole>,
}

impl Settings {
    pub fn power_up() -> Self
        ensures { result ≡ power_up }
    {
        Settings {
            mouse: MouseMode::Relative,
            action: 0,
            threshold: Axes { x: 1, y: 1 },
            scale: Axes { x: 1, y: 1 },
            bottom: false,
            mouseon: true,
            stick: StickMode::Event,
            stickson: true,
            port0: Role::ForMouse,
        }
    }
}

impl Command {
    pub fn none() -> Self
        ensures { result ≡ no_command }
    {
        Command {
            code: 0,
            come: 0,
            params: [0; 6],
            pending: 0,
        }
    }
}

// A threshold, scale, delta or rate of 0 acts as 1.
pub fn acts_as(n: u8) -> u8
    ensures { result ≡ acts_as n }
{
    n.max(1)
}

impl StickMode {
    // The monitoring modes are those of 0x17 and 0x18.
    pub fn is_monitoring(self) -> bool
        ensures { result ≡ monitors self }
    {
        matches!(self, StickMode::Monitoring { .. } | StickMode::Fire)
    }
}

impl MouseMode {
    pub fn is_absolute(self) -> bool
        ensures { result ≡ is_absolute self }
    {
        matches!(self, MouseMode::Absolute { .. })
    }
}

impl Role {
    pub fn is_mouse(self) -> bool
        ensures { result ≡ is_mouse self }
    {
        self == Role::ForMouse
    }
}
