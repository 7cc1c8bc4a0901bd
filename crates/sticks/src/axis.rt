// One axis of stick 0 in keycode mode: its direction, as the make code of its arrow key, and its repeats.
ghost use Rattle.std.specs.Prelude.{◌≡◌, ◌+◌, ◌≤◌, min};
ghost use Rattle.sticks.specs.Sticks.{most_count, direction, horizontal, vertical};
ghost use Rattle.sticks.specs.Events.{axis_turned};
ghost use Rattle.sticks.specs.Ticks.{interval, axis_aged};
ghost use Rattle.sticks.specs.Keycode.{due_of, code_of, IsArrow};

use crate::{AxisTold, Count};
use output::ScanCode;
use protocol::Repeat;

// Where a repeat no longer depends on age and wait, they stop.
const MOST_COUNT: u16 = 2551;

#[tactic(auto, unfolding(crate::specs::Sticks::horizontal))]
pub(crate) fn horizontal(position: u8) -> Option<u8>
    ensures did { code_of result ≡ horizontal position }
    ensures make { IsArrow result }
{
    direction(
        position / 4 % 2 == 1,
        ScanCode::ARROW_LEFT,
        position / 8 % 2 == 1,
        ScanCode::ARROW_RIGHT,
    )
}

#[tactic(auto, unfolding(crate::specs::Sticks::vertical))]
pub(crate) fn vertical(position: u8) -> Option<u8>
    ensures did { code_of result ≡ vertical position }
    ensures make { IsArrow result }
{
    direction(
        position % 2 == 1,
        ScanCode::ARROW_UP,
        position / 2 % 2 == 1,
        ScanCode::ARROW_DOWN,
    )
}

// Of two opposite switches, each with its arrow: both closed are none.
fn direction(a: bool, first: u8, b: bool, second: u8) -> Option<u8>
    ensures did { code_of result ≡ direction a first b second }
    ensures make { ((1 ≤ first) × (first ≤ 0x7F) × (1 ≤ second) × (second ≤ 0x7F)) → IsArrow result }
{
    match (a, b) {
        (true, false) => Some(first),
        (false, true) => Some(second),
        _ => None,
    }
}

// The direction may have changed.
#[tactic(auto, unfolding(crate::specs::Events::axis_turned))]
pub(crate) fn axis_turned(old: Option<u8>, new: Option<u8>, count: Count) -> AxisTold
    requires { IsArrow old × IsArrow new }
    ensures due { due_of result ≡ axis_turned (code_of old) (code_of new) count }
    ensures make { IsArrow result.arrow }
{
    if old == new {
        return AxisTold { arrow: None, count };
    }
    AxisTold {
        arrow: new,
        count: Count::none(),
    }
}

// A tick.
#[tactic(auto, unfolding(crate::specs::Ticks::axis_aged, crate::specs::Ticks::repeated))]
pub(crate) fn axis_aged(repeat: Repeat, arrow: Option<u8>, count: Count) -> AxisTold
    requires { IsArrow arrow }
    ensures due { due_of result ≡ axis_aged repeat (code_of arrow) count }
    ensures make { IsArrow result.arrow }
{
    if arrow.is_none() {
        return AxisTold { arrow: None, count };
    }
    let age = one_more(count.age);
    let wait = one_more(count.wait);
    let every = interval(repeat, age);
    if every == 0 || wait < every {
        AxisTold {
            arrow: None,
            count: Count { age, wait },
        }
    } else {
        AxisTold {
            arrow,
            count: Count { age, wait: 0 },
        }
    }
}

// A tick more.
fn one_more(n: u16) -> u16
    ensures { result ≡ min (n + 1) most_count }
{
    n.saturating_add(1).min(MOST_COUNT)
}

// How many ticks lie between two arrow keys, at this age; 0 for no repeat, as the definition `interval` has it. A breakpoint of 0 lies before every age.
#[tactic(auto, unfolding(crate::specs::Ticks::interval))]
fn interval(repeat: Repeat, age: u16) -> u16
    requires { 1 ≤ age }
    ensures { result ≡ interval repeat age }
{
    if age <= 10 * u16::from(repeat.breakpoint) {
        10 * u16::from(repeat.before)
    } else {
        10 * u16::from(repeat.after)
    }
}
