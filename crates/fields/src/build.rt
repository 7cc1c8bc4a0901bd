// The state that numbers, a map of the keys and a queue make. A field that fits a byte is cast to one.
ghost use Rattle.std.specs.Prelude.{◌≡◌, true, ◌≤◌, ◌<◌, ◌-◌};
ghost use Rattle.fields.specs.Ranges.{all_fit};
ghost use Rattle.fields.specs.States.{mouse_from, stick_from, role_from, settings_from, held_from, latches_from, pointer_from, stick_of, sticks_from, clock_from, command_from, state_from};

use crate::COUNT;
use crate::place::{
    ACTION, AFTER_X, AFTER_Y, AGE_X, AGE_Y, BEFORE_X, BEFORE_Y, BITS, BOTTOM, BREAKPOINT_X,
    BREAKPOINT_Y, CODE, COME, DAY, DELTA_X, DELTA_Y, HELD_X, HELD_Y, HOUR, HUNDREDTH, LATCHES,
    LEFT, MAXIMUM_X, MAXIMUM_Y, MINUTE, MONTH, MOUSE_MODE, MOUSE_ON, PARAMETER_1, PARAMETER_2,
    PARAMETER_3, PARAMETER_4, PARAMETER_5, PARAMETER_6, PAUSED, PENDING, PLACE_X, PLACE_Y, PORT0,
    RATE, RIGHT, SAMPLES, SCALE_X, SCALE_Y, SECOND, STICK_0, STICK_1, STICK_MODE, STICKS_ON,
    THRESHOLD_X, THRESHOLD_Y, TICKS, WAIT_X, WAIT_Y, YEAR,
};
use crate::range::TRIGGER;
use clock::Clock;
use controller::{Queue, State};
use keys::Keys;
use motion::{Axes, Motion};
use mouse::{Latches, Mouse};
use protocol::{Command, MouseMode, Repeat, Role, Settings, StickMode};
use sticks::{Count, Stick, Sticks};

// Every number has a mode: one that is no other's means the first. So it is no TryFrom.
fn mouse_from(place: u16, x: u16, y: u16, dx: u8, dy: u8) -> MouseMode
    ensures { result ≡ mouse_from place x y dx dy }
{
    match place {
        1 => MouseMode::Absolute {
            maximum: Axes { x, y },
        },
        2 => MouseMode::Keycode {
            delta: Axes { x: dx, y: dy },
        },
        _ => MouseMode::Relative,
    }
}

// Every number has a mode, as above.
fn stick_from(place: u16, rate: u8, rx: u8, ry: u8, tx: u8, ty: u8, vx: u8, vy: u8) -> StickMode
    ensures { result ≡ stick_from place rate rx ry tx ty vx vy }
{
    match place {
        1 => StickMode::Interrogation,
        2 => StickMode::Monitoring { rate },
        3 => StickMode::Fire,
        4 => StickMode::StickKeycode {
            x: Repeat {
                breakpoint: rx,
                before: tx,
                after: vx,
            },
            y: Repeat {
                breakpoint: ry,
                before: ty,
                after: vy,
            },
        },
        _ => StickMode::Event,
    }
}

// Every number has a role, as above.
fn role_from(place: u16) -> Role
    ensures { result ≡ role_from place }
{
    if place == 1 {
        Role::ForJoystick
    } else {
        Role::ForMouse
    }
}

#[tactic(auto, using(crate::proofs::Bounding::bytes), unfolding(crate::specs::States::settings_from))]
fn settings_from(a: [u16; COUNT]) -> Settings
    requires { all_fit a ≡ true }
    ensures { result ≡ settings_from a }
{
    Settings {
        mouse: mouse_from(
            a[MOUSE_MODE],
            a[MAXIMUM_X],
            a[MAXIMUM_Y],
            a[DELTA_X] as u8,
            a[DELTA_Y] as u8,
        ),
        action: a[ACTION] as u8,
        threshold: Axes {
            x: a[THRESHOLD_X] as u8,
            y: a[THRESHOLD_Y] as u8,
        },
        scale: Axes {
            x: a[SCALE_X] as u8,
            y: a[SCALE_Y] as u8,
        },
        bottom: a[BOTTOM] == 1,
        mouseon: a[MOUSE_ON] == 1,
        stick: stick_from(
            a[STICK_MODE],
            a[RATE] as u8,
            a[BREAKPOINT_X] as u8,
            a[BREAKPOINT_Y] as u8,
            a[BEFORE_X] as u8,
            a[BEFORE_Y] as u8,
            a[AFTER_X] as u8,
            a[AFTER_Y] as u8,
        ),
        stickson: a[STICKS_ON] == 1,
        port0: role_from(a[PORT0]),
    }
}

fn held_from(x: u16) -> Motion
    ensures { result ≡ held_from x }
{
    Motion {
        plus: x.saturating_sub(State::HELD_LIMIT),
        minus: State::HELD_LIMIT.saturating_sub(x),
    }
}

fn latches_from(x: u16) -> Latches
    ensures { result ≡ latches_from x }
{
    Latches {
        rightdown: x % 2 == 1,
        rightup: x / 2 % 2 == 1,
        leftdown: x / 4 % 2 == 1,
        leftup: x / 8 % 2 == 1,
    }
}

#[tactic(auto, unfolding(crate::specs::States::pointer_from))]
fn pointer_from(a: [u16; COUNT]) -> Mouse
    ensures { result ≡ pointer_from a }
{
    Mouse {
        place: Axes {
            x: a[PLACE_X],
            y: a[PLACE_Y],
        },
        held: Axes {
            x: held_from(a[HELD_X]),
            y: held_from(a[HELD_Y]),
        },
        left: a[LEFT] == 1,
        right: a[RIGHT] == 1,
        latches: latches_from(a[LATCHES]),
    }
}

fn stick_of(x: u16) -> Stick
    ensures { result ≡ stick_of x }
{
    Stick {
        position: (x % TRIGGER) as u8,
        trigger: TRIGGER <= x,
    }
}

#[tactic(auto, using(crate::proofs::Bounding::bytes), unfolding(crate::specs::States::sticks_from))]
fn sticks_from(a: [u16; COUNT]) -> Sticks
    requires { all_fit a ≡ true }
    ensures { result ≡ sticks_from a }
{
    Sticks {
        zero: stick_of(a[STICK_0]),
        one: stick_of(a[STICK_1]),
        x: Count {
            age: a[AGE_X],
            wait: a[WAIT_X],
        },
        y: Count {
            age: a[AGE_Y],
            wait: a[WAIT_Y],
        },
        ticks: a[TICKS] as u8,
        samples: a[SAMPLES] as u8,
        bits: a[BITS] as u8,
    }
}

#[tactic(auto, using(crate::proofs::Bounding::bytes), unfolding(crate::specs::States::clock_from))]
fn clock_from(a: [u16; COUNT]) -> Clock
    requires { all_fit a ≡ true }
    ensures { result ≡ clock_from a }
{
    Clock {
        year: a[YEAR] as u8,
        month: a[MONTH] as u8,
        day: a[DAY] as u8,
        hour: a[HOUR] as u8,
        minute: a[MINUTE] as u8,
        second: a[SECOND] as u8,
        hundredth: a[HUNDREDTH] as u8,
    }
}

#[tactic(auto, using(crate::proofs::Bounding::bytes), unfolding(crate::specs::States::command_from))]
fn command_from(a: [u16; COUNT]) -> Command
    requires { all_fit a ≡ true }
    ensures { result ≡ command_from a }
{
    Command {
        code: a[CODE] as u8,
        come: a[COME] as u8,
        params: [
            a[PARAMETER_1] as u8,
            a[PARAMETER_2] as u8,
            a[PARAMETER_3] as u8,
            a[PARAMETER_4] as u8,
            a[PARAMETER_5] as u8,
            a[PARAMETER_6] as u8,
        ],
        pending: a[PENDING] as u8,
    }
}

#[tactic(auto, unfolding(crate::specs::States::state_from))]
pub fn state_from(a: [u16; COUNT], keys: Keys, queue: Queue) -> State
    requires { all_fit a ≡ true }
    ensures { result ≡ state_from a keys queue }
{
    State {
        settings: settings_from(a),
        command: command_from(a),
        paused: a[PAUSED] == 1,
        queue,
        mouse: pointer_from(a),
        sticks: sticks_from(a),
        clock: clock_from(a),
        keys,
    }
}
