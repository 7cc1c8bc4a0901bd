// What is sent of held motion: its length, and its bytes.
ghost use Rattle.std.specs.Prelude.{◌≡◌, ◌+◌, ◌*◌, ◌≤◌, ◌++◌, length};
ghost use Rattle.output.specs.Packets.{bytes, pairs};
ghost use Rattle.output.specs.Writing.{Wrote};
ghost use Rattle.motion.specs.Motion.{size};
ghost use Rattle.mouse.specs.Sending.{buttons, split, arrows, packets_sent, nothing_sent};

use crate::Sending;
use motion::{Motion, Motions};
use output::ScanCode;

impl Sending {
    pub fn none() -> Self
        ensures { result ≡ nothing_sent }
    {
        Sending {
            packets: 0,
            left: false,
            right: false,
            held: Motions::at_rest(),
            arrows: Motions::at_rest(),
        }
    }

    #[tactic(auto, using(crate::proofs::Lengths::sent_length))]
    pub fn len(self) -> usize
        ensures { result ≡ length (bytes (packets_sent self)) }
    {
        let d = self.arrows;
        let steps = d.x.plus as usize + d.x.minus as usize + d.y.plus as usize + d.y.minus as usize;
        3 * self.packets as usize + 2 * steps
    }

    #[tactic(auto, using(output::proofs::Writing::kept, crate::proofs::Lengths::split_length, crate::proofs::Lengths::arrows_length, crate::proofs::Lengths::sent_length))]
    pub fn write(self, out: &mut [u8]) -> usize
        requires { length (bytes (packets_sent self)) ≤ length out.old }
        ensures { Wrote (bytes (packets_sent self)) result out.old out.new }
    {
        let n = write_packets(self.packets, self.left, self.right, self.held, out);
        n + write_arrows(self.arrows, &mut out[n..])
    }
}

// 0xF8, and 2 and 1 for the left and the right button that is down.
fn header(left: bool, right: bool) -> u8
    ensures { result ≡ 0xF8 + buttons left right }
{
    0xF8 + (2 * left as u8 + right as u8)
}

// Each packet carries its part of the motion along either axis.
fn write_packets(n: u16, left: bool, right: bool, held: Motions, out: &mut [u8]) -> usize
    requires { 3 * n ≤ length out.old }
    ensures { Wrote (bytes (split n (buttons left right) held)) result out.old out.new }
{
    if n == 0 {
        return 0;
    }
    let first = header(left, right);
    let mut x = held.x.spread(n);
    let mut y = held.y.spread(n);
    let mut at = 0;
    for _ in 0..n {
        at += output::put3(first, x.byte(), y.byte(), &mut out[at..]);
        x = x.next();
        y = y.next();
    }
    at
}

// All X first: right, left, down, up.
#[tactic(auto, using(output::proofs::Writing::kept, crate::proofs::Sends::axis_length))]
fn write_arrows(d: Motions, out: &mut [u8]) -> usize
    requires { 2 * (size d.x + size d.y) ≤ length out.old }
    ensures { Wrote (bytes (arrows d)) result out.old out.new }
{
    let n = write_axis(d.x, ScanCode::ARROW_RIGHT, ScanCode::ARROW_LEFT, out);
    n + write_axis(d.y, ScanCode::ARROW_DOWN, ScanCode::ARROW_UP, &mut out[n..])
}

// One side of the axis is 0.
#[tactic(auto, using(output::proofs::Writing::kept, output::proofs::Packets::pairs_length))]
fn write_axis(d: Motion, forth: u8, back: u8, out: &mut [u8]) -> usize
    requires { (2 * size d ≤ length out.old) × (forth ≤ 0x7F) × (back ≤ 0x7F) }
    ensures { Wrote (bytes (pairs d.plus forth ++ pairs d.minus back)) result out.old out.new }
{
    let n = output::write_pairs(d.plus, forth, out);
    n + output::write_pairs(d.minus, back, &mut out[n..])
}
