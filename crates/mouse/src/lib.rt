// The mouse: coordinates of absolute mode, motion held back, button levels, and the latches that 0x0D reports.
#![tactic(auto)]

ghost use Rattle.std.specs.Prelude.{◌≡◌};
ghost use Rattle.mouse.specs.Mouse.{at_power_up, live, no_latches};

use motion::{Axes, Motions};
use output::Short;
use protocol::Settings;

mod button;
mod command;
mod moving;
mod report;
mod send;

// Which buttons went down or up, live in absolute mode, since the last 0x0D or clearing.
#[derive(Clone, Copy, Debug, PartialEq, Eq)]
pub struct Latches {
    pub rightdown: bool,
    pub rightup: bool,
    pub leftdown: bool,
    pub leftup: bool,
}

#[derive(Clone, Copy, Debug, PartialEq, Eq)]
pub struct Mouse {
    pub place: Axes<u16>,
    pub held: Motions,
    pub left: bool,
    pub right: bool,
    pub latches: Latches,
}

// The two buttons of the mouse.
#[derive(Clone, Copy, Debug, PartialEq, Eq)]
pub enum Side {
    Left,
    Right,
}

// What is sent of held motion: `packets` packets of `held` with these button levels, and arrow keys, of which there are none where
// there are packets. Whoever writes it asks its length first. No enum of the two: `packets_sent` gives the packets and the arrows of any
// value, one after the other.
#[derive(Clone, Copy, Debug, PartialEq, Eq)]
pub struct Sending {
    pub packets: u16,
    pub left: bool,
    pub right: bool,
    pub held: Motions,
    pub arrows: Motions,
}

// What motion, or a resume, comes to.
#[derive(Clone, Copy, Debug, PartialEq, Eq)]
pub struct Moved {
    pub sending: Sending,
    pub mouse: Mouse,
}

// What a button comes to: held motion is sent, or a short packet, or nothing.
#[derive(Clone, Copy, Debug, PartialEq, Eq)]
pub struct Pressed {
    pub sending: Sending,
    pub short: Short,
    pub mouse: Mouse,
}

// What a command of the mouse comes to.
#[derive(Clone, Copy, Debug, PartialEq, Eq)]
pub struct Commanded {
    pub short: Short,
    pub mouse: Mouse,
}

impl Mouse {
    // The most motion that is held along an axis, either way, while paused.
    pub const HELD_LIMIT: u16 = 2032;

    pub fn power_up() -> Self
        ensures { result ≡ at_power_up }
    {
        Mouse {
            place: Axes { x: 0, y: 0 },
            held: Motions::at_rest(),
            left: false,
            right: false,
            latches: Latches::none(),
        }
    }
}

impl Latches {
    pub(crate) fn none() -> Self
        ensures { result ≡ no_latches }
    {
        Latches {
            rightdown: false,
            rightup: false,
            leftdown: false,
            leftup: false,
        }
    }
}

// Live: on, port 0 a mouse, and not monitoring.
#[tactic(auto, unfolding(crate::specs::Mouse::live))]
pub fn live(settings: Settings) -> bool
    ensures { result ≡ live settings }
{
    settings.mouseon && settings.port0.is_mouse() && !settings.stick.is_monitoring()
}
