// The joysticks: where both stand, the repeat counts of keycode mode, and what the two monitoring modes have gathered.
#![tactic(auto)]

mod axis;
mod command;
mod event;
mod keycode;
mod tick;

ghost use Rattle.std.specs.Prelude.{◌≡◌, ◌≤◌};
ghost use Rattle.sticks.specs.Sticks.{below_trigger, no_count, at_power_up, quiet, told_of, byte};

use output::Short;

// Bits 0 to 3 of the position are up, down, left, right.
#[derive(Clone, Copy, Debug, PartialEq, Eq)]
pub struct Stick {
    pub position: u8,
    pub trigger: bool,
}

// The two sticks.
#[derive(Clone, Copy, Debug, PartialEq, Eq)]
pub enum Which {
    Zero,
    One,
}

// How long an axis has had its direction, and how long it has been since its last arrow key, in ticks.
#[derive(Clone, Copy, Debug, PartialEq, Eq)]
pub struct Count {
    pub age: u16,
    pub wait: u16,
}

// `ticks` since the last monitoring report; `samples` of the fire button so far, as the low bits of `bits`, the last in bit 0.
#[derive(Clone, Copy, Debug, PartialEq, Eq)]
pub struct Sticks {
    pub zero: Stick,
    pub one: Stick,
    pub x: Count,
    pub y: Count,
    pub ticks: u8,
    pub samples: u8,
    pub bits: u8,
}

// What something that happens to the sticks comes to: the bytes due, and the sticks afterwards.
#[derive(Clone, Copy, Debug, PartialEq, Eq)]
pub struct SticksTold {
    pub short: Short,
    pub sticks: Sticks,
}

// The same for one axis of stick 0 in keycode mode: the make code of the arrow key that is due, and the counts afterwards.
#[derive(Clone, Copy, Debug, PartialEq, Eq)]
pub(crate) struct AxisTold {
    arrow: Option<u8>,
    count: Count,
}

impl Stick {
    // As a report tells it. A position leaves bit 7 to the trigger.
    pub(crate) fn byte(self) -> u8
        requires { self.position ≤ below_trigger }
        ensures { result ≡ byte self }
    {
        0x80 * u8::from(self.trigger) + self.position
    }
}

impl Count {
    // That of an axis which has just turned, and where nothing is counted.
    pub(crate) fn none() -> Self
        ensures { result ≡ no_count }
    {
        Count { age: 0, wait: 0 }
    }
}

impl Sticks {
    pub fn power_up() -> Self
        ensures { result ≡ at_power_up }
    {
        Sticks {
            zero: Stick {
                position: 0,
                trigger: false,
            },
            one: Stick {
                position: 0,
                trigger: false,
            },
            x: Count::none(),
            y: Count::none(),
            ticks: 0,
            samples: 0,
            bits: 0,
        }
    }

    // Nothing is due.
    pub(crate) fn quiet(self) -> SticksTold
        ensures { result ≡ told_of (quiet self) }
    {
        SticksTold {
            short: Short::of([]),
            sticks: self,
        }
    }
}
