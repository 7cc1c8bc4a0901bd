// The range of each field, given the fields before it.
ghost use Rattle.std.specs.Prelude.{◌≡◌, cond, ◌&&◌, ◌≤◌, ◌<◌, ◌-◌, leb, eqb};
ghost use Rattle.clock.specs.Clock.{month_length};
ghost use Rattle.protocol.specs.Settings.{acts_as};
ghost use Rattle.mouse.specs.Mouse.{held_limit};
ghost use Rattle.fields.specs.Ranges.{gathers, held_most, loading, most_come, most_bits, highs, lows, gap_free, all_fit};
ghost use Rattle.protocol.specs.Codes.{parameters_of};

use crate::COUNT;
use crate::place::{
    CODE, COME, MAXIMUM_X, MAXIMUM_Y, MONTH, MOUSE_MODE, MOUSE_ON, PARAMETER_3, PAUSED, PORT0,
    RATE, SAMPLES, STICK_0, STICK_1, STICK_MODE, YEAR,
};
use controller::State;

// The most held motion, either way, unless it gathers.
const HELD_USUAL: u16 = 254;

// A stick's byte has the trigger's bit above its position.
pub(crate) const TRIGGER: u16 = 128;

const MOST_POSITION: u16 = 15;

const MOST_STICK: u16 = TRIGGER + MOST_POSITION;

// The most of an axis' age and wait.
const MOST_COUNT: u16 = 2551;

// The most fire samples that wait.
const MOST_SAMPLES: u16 = 7;

const MEMORY_LOAD: u16 = 0x20;

// The most of a field that is used in some modes: 0 in the others.
fn only(used: bool, most: u16) -> u16
    ensures { result ≡ cond used most 0 }
{
    if used { most } else { 0 }
}

// Whether motion may be held to its limit: paused, with the mouse live in relative or keycode mode.
#[tactic(auto, unfolding(crate::specs::Ranges::gathers))]
fn gathers(a: [u16; COUNT]) -> bool
    ensures { result ≡ gathers a }
{
    a[PAUSED] == 1
        && a[MOUSE_ON] == 1
        && a[PORT0] == 0
        && !matches!(a[STICK_MODE], 2 | 3)
        && a[MOUSE_MODE] != 1
}

// How far motion may be held, either way.
#[tactic(auto, unfolding(crate::specs::Ranges::held_most))]
fn held_most(a: [u16; COUNT]) -> u16
    ensures { (result ≡ held_most a) × (result ≤ held_limit) }
{
    if gathers(a) {
        State::HELD_LIMIT
    } else {
        HELD_USUAL
    }
}

// Whether all three parameters of a memory load have come, and its data are coming.
#[tactic(auto, unfolding(crate::specs::Ranges::loading))]
fn loading(a: [u16; COUNT]) -> bool
    ensures { result ≡ loading a }
{
    a[CODE] == MEMORY_LOAD && a[COME] == 3
}

// How many parameters the command of this code has. What is no byte is no code, and has none.
#[tactic(auto, using(crate::proofs::Bounding::no_parameters))]
fn parameters_of(code: u16) -> u16
    ensures { result ≡ parameters_of code }
{
    match u8::try_from(code) {
        Ok(code) => u16::from(protocol::parameters_of(code)),
        Err(_) => 0,
    }
}

// The most parameters that have come of a command that still lacks a byte.
#[tactic(auto, unfolding(crate::specs::Ranges::most_come))]
fn most_come(code: u16) -> u16
    ensures { result ≡ most_come code }
{
    if code == MEMORY_LOAD {
        3
    } else {
        parameters_of(code).saturating_sub(1)
    }
}

// The most that so many samples are as one number.
#[tactic(auto, unfolding(crate::specs::Ranges::most_bits))]
fn most_bits(samples: u16) -> u16
    ensures { result ≡ most_bits samples }
{
    (1 << samples.min(MOST_SAMPLES)) - 1
}

// The last day of a month. What is no month has 31, as the calendar's definition says.
#[tactic(auto, using(crate::proofs::Bounding::by_four, crate::proofs::Bounding::late_month))]
fn most_day(year: u16, month: u16) -> u16
    ensures { result ≡ month_length year month }
{
    match u8::try_from(month) {
        Ok(month) => u16::from(clock::month_length((year % 4) as u8, month)),
        Err(_) => 31,
    }
}

// Ticks stay below the rate as it acts: a rate of 0 acts as 1.
fn most_ticks(rate: u16) -> u16
    ensures { result ≡ acts_as rate - 1 }
{
    rate.max(1) - 1
}

// The most of each field, in the order of the list of ranges.
#[tactic(auto, unfolding(crate::specs::Ranges::ranges, crate::specs::Ranges::third, crate::specs::Ranges::pending))]
fn highs(a: [u16; COUNT]) -> [u16; COUNT]
    ensures { result ≡ highs a }
{
    let maximum = only(a[MOUSE_MODE] == 1, 65535);
    let delta = only(a[MOUSE_MODE] == 2, 255);
    let rate = only(a[STICK_MODE] == 2, 255);
    let cursor = only(a[STICK_MODE] == 4, 255);
    let x = a[MAXIMUM_X];
    let y = a[MAXIMUM_Y];
    let held = State::HELD_LIMIT + held_most(a);
    let ticks = most_ticks(a[RATE]);
    let samples = only(a[STICK_MODE] == 3, MOST_SAMPLES);
    let bits = most_bits(a[SAMPLES]);
    let day = most_day(a[YEAR], a[MONTH]);
    let come = most_come(a[CODE]);
    let n = a[COME];
    let p0 = only(0 < n, 255);
    let p1 = only(1 < n, 255);
    let p2 = only(2 < n, 255);
    let p3 = only(3 < n, 255);
    let p4 = only(4 < n, 255);
    let p5 = only(5 < n, 255);
    let pending = only(loading(a), a[PARAMETER_3]);
    [
        // Fields 1 to 5. Mouse mode; maximum X, Y; deltas X, Y.
        2, maximum, maximum, delta, delta,
        // Fields 6 to 12. Button action; thresholds; scales; origin; mouse on.
        4, 255, 255, 255, 255, 1, 1,
        // Fields 13 to 23. Joystick mode; rate; RX RY TX TY VX VY; joysticks on; port 0; paused.
        4, rate, cursor, cursor, cursor, cursor, cursor, cursor, 1, 1, 1,
        // Fields 24 to 30. Coordinates; held motion; left and right; latches.
        x, y, held, held, 1, 1, 15,
        // Fields 31 to 39. Sticks; age and wait of X and of Y; ticks; samples; their bits.
        MOST_STICK, MOST_STICK, MOST_COUNT, MOST_COUNT, MOST_COUNT, MOST_COUNT, ticks, samples,
        bits,
        // Fields 40 to 46. Year to hundredth.
        99, 12, day, 23, 59, 59, 99,
        // Fields 47 to 55. Code; parameters come; those six; data to come.
        255, come, p0, p1, p2, p3, p4, p5, pending,
    ]
}

// The least of each field.
#[tactic(auto, unfolding(crate::specs::Ranges::ranges, crate::specs::Ranges::third, crate::specs::Ranges::pending))]
fn lows(a: [u16; COUNT]) -> [u16; COUNT]
    ensures { result ≡ lows a }
{
    let held = State::HELD_LIMIT - held_most(a);
    let load = only(loading(a), 1);
    [
        // Fields 1 to 5. Mouse mode; maximum X, Y; deltas X, Y.
        0, 0, 0, 0, 0,
        // Fields 6 to 12. Button action; thresholds; scales; origin; mouse on.
        0, 0, 0, 0, 0, 0, 0,
        // Fields 13 to 23. Joystick mode; rate; RX RY TX TY VX VY; joysticks on; port 0; paused.
        0, 0, 0, 0, 0, 0, 0, 0, 0, 0, 0,
        // Fields 24 to 30. Coordinates; held motion; left and right; latches.
        0, 0, held, held, 0, 0, 0,
        // Fields 31 to 39. Sticks; age and wait of X and of Y; ticks; samples; their bits.
        0, 0, 0, 0, 0, 0, 0, 0, 0,
        // Fields 40 to 46. Year to hundredth.
        0, 1, 1, 0, 0, 0, 0,
        // Fields 47 to 55. Code; parameters come; those six; data to come.
        0, 0, 0, 0, load, 0, 0, 0, load,
    ]
}

// Whether field i + 1 is not in a gap of its range: the bytes of sticks and the codes of commands have gaps.
#[tactic(auto, unfolding(crate::specs::Ranges::gap_free))]
fn gap_free(i: usize, x: u16) -> bool
    ensures { result ≡ gap_free i x }
{
    match i {
        STICK_0 | STICK_1 => x % TRIGGER <= MOST_POSITION,
        CODE => x == 0 || 0 < parameters_of(x),
        _ => true,
    }
}

// Whether field i + 1 is from `least` to `most`, and in no gap.
fn within(i: usize, least: u16, most: u16, x: u16) -> bool
    ensures { result ≡ (leb least x && (leb x most && gap_free i x)) }
{
    (least..=most).contains(&x) && gap_free(i, x)
}

// Whether every field is in its range.
pub fn all_fit(a: [u16; COUNT]) -> bool
    ensures { result ≡ all_fit a }
{
    let least = lows(a);
    let most = highs(a);
    (0..COUNT).all(|i| within(i, least[i], most[i], a[i]))
}
