// Executed commands.
ghost use Rattle.std.specs.Prelude.{◌≡◌, ◌≤◌};
ghost use Rattle.sticks.specs.Sticks.{below_trigger, told_of};
ghost use Rattle.sticks.specs.Commands.{cleared, monitoring_left, commanded, mouse_commanded};

use crate::{Count, Sticks, SticksTold};
use output::Short;
use protocol::{MouseCommand, StickCommand, StickMode};

impl Sticks {
    // A command of the joysticks, in the mode `mode`.
    #[tactic(auto, unfolding(crate::specs::Commands::commanded))]
    pub fn commanded(self, c: StickCommand, mode: StickMode) -> SticksTold
        requires { (self.zero.position ≤ below_trigger) × (self.one.position ≤ below_trigger) }
        ensures { result ≡ told_of (commanded c mode self) }
    {
        match c {
            StickCommand::ReportSticks => SticksTold {
                short: Short::of([0xFD, self.zero.byte(), self.one.byte()]),
                sticks: self,
            },
            StickCommand::SticksOff => self.monitoring_left(mode).quiet(),
            _ => self.cleared().quiet(),
        }
    }

    // A command of the mouse: the three that set its mode leave a monitoring mode.
    #[tactic(auto, unfolding(crate::specs::Commands::mouse_commanded))]
    pub fn mouse_commanded(self, c: MouseCommand, mode: StickMode) -> Sticks
        ensures { result ≡ mouse_commanded c mode self }
    {
        match c {
            MouseCommand::SetRelative | MouseCommand::SetAbsolute | MouseCommand::SetKeycode =>
                self.monitoring_left(mode),
            _ => self,
        }
    }

    fn cleared(self) -> Self
        ensures { result ≡ cleared self }
    {
        Sticks {
            x: Count::none(),
            y: Count::none(),
            ticks: 0,
            samples: 0,
            bits: 0,
            ..self
        }
    }

    // A monitoring mode that is left takes what it has gathered with it.
    #[tactic(auto, unfolding(crate::specs::Commands::monitoring_left))]
    fn monitoring_left(mut self, mode: StickMode) -> Self
        ensures { result ≡ monitoring_left mode self }
    {
        if mode.is_monitoring() {
            self.ticks = 0;
            self.samples = 0;
            self.bits = 0;
        }
        self
    }
}
