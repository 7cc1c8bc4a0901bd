// A stick event.
ghost use Rattle.std.specs.Prelude.{◌≡◌, cond, not, ◌≤◌};
ghost use Rattle.output.specs.Packets.{bytes};
ghost use Rattle.output.specs.Short.{short_of};
ghost use Rattle.sticks.specs.Sticks.{below_trigger, told_of, is_one, stick_at};
ghost use Rattle.sticks.specs.Events.{stored, heard, stick_reported, trigger_keys, stick_moved};
ghost use Rattle.sticks.specs.Keycode.{scan_of, stick_turned};

use crate::axis::{axis_turned, horizontal, vertical};
use crate::keycode::keys;
use crate::{Stick, Sticks, SticksTold, Which};
use output::{ScanCode, Short};
use protocol::{Role, Settings, StickMode};

impl Sticks {
    // A stick now stands so.
    #[tactic(auto, unfolding(crate::specs::Events::stick_moved, crate::specs::Events::stick_moved_in, crate::specs::Events::stick_keyed, crate::specs::Events::axis_moved, crate::specs::Events::trigger_keys, crate::specs::Keycode::stick_turned))]
    pub fn stick_moved(self, settings: Settings, which: Which, new: Stick) -> SticksTold
        requires { ((stick_at (is_one which) self).position ≤ below_trigger) × (new.position ≤ below_trigger) }
        ensures { result ≡ told_of (stick_moved settings (is_one which) new self) }
    {
        let old = self.stick_at(which);
        let next = self.stored(which, new);
        let on = is_heard(settings, which);
        match settings.stick {
            StickMode::Event => SticksTold {
                short: stick_reported(on, which, old, new),
                sticks: next,
            },
            StickMode::StickKeycode { .. } => {
                let code = trigger_code(on, which, old.trigger, new.trigger);
                match which {
                    Which::One => SticksTold {
                        short: keys(None, None, code),
                        sticks: next,
                    },
                    Which::Zero if on => next.stick_turned(old.position, code),
                    Which::Zero => next.quiet(),
                }
            }
            _ => next.quiet(),
        }
    }

    fn stick_at(self, which: Which) -> Stick
        ensures { result ≡ stick_at (is_one which) self }
    {
        match which {
            Which::Zero => self.zero,
            Which::One => self.one,
        }
    }

    fn stored(mut self, which: Which, new: Stick) -> Self
        ensures { result ≡ stored (is_one which) new self }
    {
        match which {
            Which::Zero => self.zero = new,
            Which::One => self.one = new,
        }
        self
    }

    // Stick 0 has come from the position `old` to where it stands, in keycode mode; `code` is its trigger's.
    #[tactic(auto, unfolding(crate::specs::Keycode::stick_turned))]
    fn stick_turned(self, old: u8, code: Option<u8>) -> SticksTold
        ensures { result ≡ told_of (stick_turned old code self) }
    {
        let new = self.zero.position;
        let x = axis_turned(horizontal(old), horizontal(new), self.x);
        let y = axis_turned(vertical(old), vertical(new), self.y);
        self.keys_sent(x, y, code)
    }
}

// With joysticks on, stick 1 always counts, and stick 0 where port 0 is a joystick.
#[tactic(auto, unfolding(crate::specs::Events::heard))]
pub(crate) fn is_heard(settings: Settings, which: Which) -> bool
    ensures { result ≡ heard settings (is_one which) }
{
    settings.stickson && (which == Which::One || settings.port0 == Role::ForJoystick)
}

// Event mode: a changed byte is sent.
#[tactic(auto, unfolding(crate::specs::Events::stick_reported))]
fn stick_reported(on: bool, which: Which, old: Stick, new: Stick) -> Short
    requires { (old.position ≤ below_trigger) × (new.position ≤ below_trigger) }
    ensures { result ≡ short_of (bytes (stick_reported on (is_one which) old new)) }
{
    let b = new.byte();
    if !on || old.byte() == b {
        return Short::of([]);
    }
    match which {
        Which::Zero => Short::of([0xFE, b]),
        Which::One => Short::of([0xFF, b]),
    }
}

// Keycode mode: the code of a changed trigger.
#[tactic(auto, unfolding(crate::specs::Events::trigger_keys))]
fn trigger_code(on: bool, which: Which, old: bool, new: bool) -> Option<u8>
    ensures { scan_of result ≡ trigger_keys on (is_one which) old new }
{
    if !on || old == new {
        return None;
    }
    Some(match which {
        Which::Zero => output::code_sent(ScanCode::KEY_LEFT, new),
        Which::One => output::code_sent(ScanCode::KEY_RIGHT, new),
    })
}
