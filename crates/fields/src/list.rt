// A state as its numbers, in the order of docs/SAVED.md.
ghost use Rattle.std.specs.Prelude.{◌≡◌, ◌≤◌};
ghost use Rattle.motion.specs.Motion.{size};
ghost use Rattle.mouse.specs.Mouse.{WithinLimit, held_limit};
ghost use Rattle.sticks.specs.Sticks.{byte};
ghost use Rattle.controller.specs.State.{IsState};
ghost use Rattle.fields.specs.Numbers.{mouse_numbers, stick_numbers, role_number, settings_numbers, held_number, pointer_numbers, sticks_numbers, clock_numbers, command_numbers, numbers};

use crate::COUNT;
use crate::range::TRIGGER;
use clock::Clock;
use controller::State;
use motion::Motion;
use mouse::Mouse;
use protocol::{Command, MouseMode, Role, Settings, StickMode};
use sticks::{Stick, Sticks};

// Fields 1 to 5.
fn mouse_numbers(m: MouseMode) -> [u16; 5]
    ensures { result ≡ mouse_numbers m }
{
    match m {
        MouseMode::Relative => [0, 0, 0, 0, 0],
        MouseMode::Absolute { maximum } => [1, maximum.x, maximum.y, 0, 0],
        MouseMode::Keycode { delta } => [2, 0, 0, delta.x as u16, delta.y as u16],
    }
}

// Fields 13 to 20.
fn stick_numbers(m: StickMode) -> [u16; 8]
    ensures { result ≡ stick_numbers m }
{
    match m {
        StickMode::Event => [0, 0, 0, 0, 0, 0, 0, 0],
        StickMode::Interrogation => [1, 0, 0, 0, 0, 0, 0, 0],
        StickMode::Monitoring { rate } => [2, rate as u16, 0, 0, 0, 0, 0, 0],
        StickMode::Fire => [3, 0, 0, 0, 0, 0, 0, 0],
        StickMode::StickKeycode { x, y } => [
            4,
            0,
            x.breakpoint as u16,
            y.breakpoint as u16,
            x.before as u16,
            y.before as u16,
            x.after as u16,
            y.after as u16,
        ],
    }
}

// The number is the saved line's and not the role's own, so it is no From.
fn role_number(r: Role) -> u16
    ensures { result ≡ role_number r }
{
    match r {
        Role::ForMouse => 0,
        Role::ForJoystick => 1,
    }
}

// Fields 1 to 22.
#[tactic(auto, using(crate::proofs::Bounding::bool_bit), unfolding(crate::specs::Numbers::settings_numbers))]
fn settings_numbers(s: Settings) -> [u16; 22]
    ensures { result ≡ settings_numbers s }
{
    let m = mouse_numbers(s.mouse);
    let k = stick_numbers(s.stick);
    [
        m[0],
        m[1],
        m[2],
        m[3],
        m[4],
        s.action as u16,
        s.threshold.x as u16,
        s.threshold.y as u16,
        s.scale.x as u16,
        s.scale.y as u16,
        u16::from(s.bottom),
        u16::from(s.mouseon),
        k[0],
        k[1],
        k[2],
        k[3],
        k[4],
        k[5],
        k[6],
        k[7],
        u16::from(s.stickson),
        role_number(s.port0),
    ]
}

// Held motion, with the limit added, so that it is at least 0.
fn held_number(m: Motion) -> u16
    requires { size m ≤ held_limit }
    ensures { result ≡ held_number m }
{
    State::HELD_LIMIT + m.plus - m.minus
}

// Fields 23 to 30.
#[tactic(auto, unfolding(crate::specs::Numbers::pointer_numbers))]
fn pointer_numbers(paused: bool, m: Mouse) -> [u16; 8]
    requires { WithinLimit m }
    ensures { result ≡ pointer_numbers paused m }
{
    [
        u16::from(paused),
        m.place.x,
        m.place.y,
        held_number(m.held.x),
        held_number(m.held.y),
        u16::from(m.left),
        u16::from(m.right),
        u16::from(m.latches.byte()),
    ]
}

// A stick as a report tells it. This is said of every position, and `Stick::byte` only of one that leaves the trigger its bit.
fn stick_byte(k: Stick) -> u16
    ensures { result ≡ byte k }
{
    TRIGGER * u16::from(k.trigger) + k.position as u16
}

// Fields 31 to 39.
#[tactic(auto, unfolding(crate::specs::Numbers::sticks_numbers))]
fn sticks_numbers(s: Sticks) -> [u16; 9]
    ensures { result ≡ sticks_numbers s }
{
    [
        stick_byte(s.zero),
        stick_byte(s.one),
        s.x.age,
        s.x.wait,
        s.y.age,
        s.y.wait,
        s.ticks as u16,
        s.samples as u16,
        s.bits as u16,
    ]
}

// Fields 40 to 46.
#[tactic(auto, unfolding(crate::specs::Numbers::clock_numbers))]
fn clock_numbers(c: Clock) -> [u16; 7]
    ensures { result ≡ clock_numbers c }
{
    [
        c.year as u16,
        c.month as u16,
        c.day as u16,
        c.hour as u16,
        c.minute as u16,
        c.second as u16,
        c.hundredth as u16,
    ]
}

// Fields 47 to 55.
#[tactic(auto, unfolding(crate::specs::Numbers::command_numbers))]
fn command_numbers(c: Command) -> [u16; 9]
    ensures { result ≡ command_numbers c }
{
    [
        c.code as u16,
        c.come as u16,
        c.params[0] as u16,
        c.params[1] as u16,
        c.params[2] as u16,
        c.params[3] as u16,
        c.params[4] as u16,
        c.params[5] as u16,
        c.pending as u16,
    ]
}

// All of them.
pub fn numbers(s: State) -> [u16; COUNT]
    requires { IsState s }
    ensures { result ≡ numbers s }
{
    let a = settings_numbers(s.settings);
    let b = pointer_numbers(s.paused, s.mouse);
    let c = sticks_numbers(s.sticks);
    let d = clock_numbers(s.clock);
    let e = command_numbers(s.command);
    // Listed one by one: tried with copy_from_slice, the proof did not close.
    [
        a[0], a[1], a[2], a[3], a[4], a[5], a[6], a[7], a[8], a[9], a[10], a[11], a[12], a[13],
        a[14], a[15], a[16], a[17], a[18], a[19], a[20], a[21], b[0], b[1], b[2], b[3], b[4], b[5],
        b[6], b[7], c[0], c[1], c[2], c[3], c[4], c[5], c[6], c[7], c[8], d[0], d[1], d[2], d[3],
        d[4], d[5], d[6], e[0], e[1], e[2], e[3], e[4], e[5], e[6], e[7], e[8],
    ]
}
