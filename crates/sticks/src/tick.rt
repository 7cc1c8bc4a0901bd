// Ticks and fire samples.
ghost use Rattle.std.specs.Prelude.{◌≡◌, ◌+◌, ◌*◌, ◌≤◌};
ghost use Rattle.output.specs.Packets.{bit};
ghost use Rattle.sticks.specs.Sticks.{told_of};
ghost use Rattle.sticks.specs.Ticks.{monitored, axes_aged, ticked, sample_taken, sampled};

use crate::axis::{axis_aged, horizontal, vertical};
use crate::event::is_heard;
use crate::{Sticks, SticksTold, Which};
use output::Short;
use protocol::{Repeat, Settings, StickMode};

impl Sticks {
    // Paused, a tick moves only the clock.
    #[tactic(auto, unfolding(crate::specs::Ticks::ticked, crate::specs::Ticks::ticked_in))]
    pub fn ticked(self, paused: bool, settings: Settings) -> SticksTold
        requires { 16 * self.zero.position + self.one.position ≤ 255 }
        ensures { result ≡ told_of (ticked paused settings self) }
    {
        if paused {
            return self.quiet();
        }
        match settings.stick {
            StickMode::Monitoring { rate } => self.monitored(rate),
            StickMode::StickKeycode { x, y } if is_heard(settings, Which::Zero) => self.axes_aged(
                x, y,
            ),
            _ => self.quiet(),
        }
    }

    // `b` is a sample of the fire button; paused, it is dropped.
    #[tactic(auto, unfolding(crate::specs::Ticks::sampled, crate::specs::Ticks::sampled_in))]
    pub fn sampled(self, paused: bool, settings: Settings, b: u8) -> SticksTold
        requires { 2 * self.bits + b ≤ 255 }
        ensures { result ≡ told_of (sampled paused settings b self) }
    {
        match settings.stick {
            StickMode::Fire if !paused => self.sample_taken(b),
            _ => self.quiet(),
        }
    }

    // Both sticks every `rate` ticks.
    #[tactic(auto, unfolding(crate::specs::Ticks::monitored, crate::specs::Ticks::both))]
    fn monitored(mut self, rate: u8) -> SticksTold
        requires { 16 * self.zero.position + self.one.position ≤ 255 }
        ensures { result ≡ told_of (monitored rate self) }
    {
        if self.ticks < protocol::acts_as(rate) - 1 {
            self.ticks += 1;
            return self.quiet();
        }
        self.ticks = 0;
        SticksTold {
            short: Short::of([
                2 * u8::from(self.zero.trigger) + u8::from(self.one.trigger),
                16 * self.zero.position + self.one.position,
            ]),
            sticks: self,
        }
    }

    // Keycode mode: both axes of stick 0.
    #[tactic(auto, unfolding(crate::specs::Ticks::axes_aged))]
    fn axes_aged(self, kx: Repeat, ky: Repeat) -> SticksTold
        ensures { result ≡ told_of (axes_aged kx ky self) }
    {
        let position = self.zero.position;
        let x = axis_aged(kx, horizontal(position), self.x);
        let y = axis_aged(ky, vertical(position), self.y);
        self.keys_sent(x, y, None)
    }

    // Fire monitoring: the eighth sample sends the byte.
    #[tactic(auto, unfolding(crate::specs::Ticks::sample_taken))]
    fn sample_taken(mut self, b: u8) -> SticksTold
        requires { 2 * self.bits + b ≤ 255 }
        ensures { result ≡ told_of (sample_taken b self) }
    {
        let bits = 2 * self.bits + b;
        if self.samples < 7 {
            self.samples += 1;
            self.bits = bits;
            return self.quiet();
        }
        self.samples = 0;
        self.bits = 0;
        SticksTold {
            short: Short::of([bits]),
            sticks: self,
        }
    }
}
