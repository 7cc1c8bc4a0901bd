// Events: their ranges, and what each comes to. Nothing here holds the queue.
ghost use Rattle.std.specs.Prelude.{◌≡◌, true, ◌≤◌, eqb, nat_abs, cond, Some, None};
ghost use Rattle.output.specs.ScanCodes.{last_key};
ghost use Rattle.output.specs.Packets.{bytes};
ghost use Rattle.output.specs.Short.{short_of};
ghost use Rattle.sticks.specs.Sticks.{IsSticks, OneSticks, told_of, is_one};
ghost use Rattle.sticks.specs.Events.{stick_moved};
ghost use Rattle.sticks.specs.Ticks.{sampled};
ghost use Rattle.controller.specs.Events.{key_packets, stick_of, which_of, fired};
ghost use Rattle.controller.specs.Step.{in_range, up_to};

use crate::Input;
use motion::Motion;
use output::{ScanCode, Short};
use protocol::Settings;
use sticks::{Stick, Sticks, SticksTold, Which};

// The most motion that one event brings along an axis.
const MOST_MOVE: u16 = 64;

const MOST_POSITION: u8 = 15;

// A number from 0 to `most`.
fn up_to(most: u8, z: i16) -> Option<u8>
    ensures { result ≡ cond (up_to most z) (Some (nat_abs z)) None }
{
    u8::try_from(z).ok().filter(|&n| n <= most)
}

// A stick event's three numbers, where they are in range.
#[tactic(auto, unfolding(crate::specs::Step::in_range))]
pub(crate) fn stick_read(stick: i16, position: i16, trigger: i16) -> Option<(Which, Stick)>
    ensures { result ≡ cond (in_range (Input.Joystick stick position trigger)) (Some (which_of stick, stick_of position trigger)) None }
{
    let stick = up_to(1, stick)?;
    let position = up_to(MOST_POSITION, position)?;
    let trigger = up_to(1, trigger)?;
    let which = if stick == 1 { Which::One } else { Which::Zero };
    let new = Stick {
        position,
        trigger: trigger == 1,
    };
    Some((which, new))
}

// A sample, where it is in range.
#[tactic(auto, unfolding(crate::specs::Step::in_range))]
pub(crate) fn sample_read(b: i16) -> Option<u8>
    ensures { result ≡ cond (in_range (Input.Sample b)) (Some (nat_abs b)) None }
{
    up_to(1, b)
}

#[tactic(auto, unfolding(crate::specs::Step::in_range))]
pub(crate) fn key_in_range(code: u8) -> bool
    ensures { result ≡ in_range (Input.Key code true) }
{
    (ScanCode::FIRST_KEY..=ScanCode::LAST_KEY).contains(&code)
}

#[tactic(auto, unfolding(crate::specs::Step::in_range))]
pub(crate) fn move_in_range(dx: i16, dy: i16) -> bool
    ensures { result ≡ in_range (Input.Move dx dy) }
{
    dx.unsigned_abs() <= MOST_MOVE && dy.unsigned_abs() <= MOST_MOVE
}

// A key sends its scan code, but in the monitoring modes.
pub(crate) fn key_bytes(settings: Settings, code: u8, down: bool) -> Short
    requires { code ≤ last_key }
    ensures { result ≡ short_of (bytes (key_packets settings code down)) }
{
    if settings.stick.is_monitoring() {
        return Short::of([]);
    }
    Short::of([output::code_sent(code, down)])
}

// The right button as the trigger of stick 1, which stays where it stands.
pub(crate) fn fire_told(settings: Settings, sticks: Sticks, down: bool) -> SticksTold
    requires { IsSticks settings.stick sticks }
    ensures { result ≡ told_of (fired settings down sticks) }
{
    let new = Stick {
        trigger: down,
        ..sticks.one
    };
    sticks.stick_moved(settings, Which::One, new)
}
