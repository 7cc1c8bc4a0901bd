// The keys of keycode mode as bytes.
ghost use Rattle.std.specs.Prelude.{◌≡◌, ◌++◌, ◌+◌, ◌≤◌, ◌<◌};
ghost use Rattle.output.specs.Packets.{bytes};
ghost use Rattle.output.specs.Short.{short_room, short_of};
ghost use Rattle.sticks.specs.Sticks.{told_of};
ghost use Rattle.sticks.specs.Events.{keys_sent};
ghost use Rattle.sticks.specs.Keycode.{pair_of, scan_of, with_pair, with_code, due_of, IsArrow};

use crate::{AxisTold, Sticks, SticksTold};
use output::Short;

impl Sticks {
    // Both axes of stick 0, and a code.
    pub(crate) fn keys_sent(mut self, x: AxisTold, y: AxisTold, code: Option<u8>) -> SticksTold
        requires { IsArrow x.arrow × IsArrow y.arrow }
        ensures { result ≡ told_of (keys_sent (due_of x) (due_of y) (scan_of code) self) }
    {
        self.x = x.count;
        self.y = y.count;
        SticksTold {
            short: keys(x.arrow, y.arrow, code),
            sticks: self,
        }
    }
}

// The arrow of the horizontal axis, that of the vertical, and a code.
pub(crate) fn keys(x: Option<u8>, y: Option<u8>, code: Option<u8>) -> Short
    requires { IsArrow x × IsArrow y }
    ensures { result ≡ short_of (bytes (pair_of x ++ (pair_of y ++ scan_of code))) }
{
    with_code(with_pair(with_pair(Short::of([]), x), y), code)
}

fn with_pair(short: Short, arrow: Option<u8>) -> Short
    requires { (short.len + 2 ≤ short_room) × IsArrow arrow }
    ensures { result ≡ with_pair arrow short }
{
    match arrow {
        None => short,
        Some(make) => short.add_pair(make),
    }
}

fn with_code(short: Short, code: Option<u8>) -> Short
    requires { short.len < short_room }
    ensures { result ≡ with_code code short }
{
    match code {
        None => short,
        Some(code) => short.add(code),
    }
}
