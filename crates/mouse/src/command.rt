// The mouse's commands.
ghost use Rattle.std.specs.Prelude.{◌≡◌};
ghost use Rattle.mouse.specs.Mouse.{maximum_of, without_motion};
ghost use Rattle.mouse.specs.Reports.{quiet};
ghost use Rattle.mouse.specs.Commands.{started_anew, loaded, commanded, switched_off};
ghost use Rattle.mouse.specs.Handing.{commanded_of};

use crate::{Commanded, Mouse};
use motion::{Axes, Motions};
use output::Short;
use protocol::{MouseCommand, MouseMode};

impl Mouse {
    #[tactic(auto, unfolding(crate::specs::Commands::commanded, crate::specs::Reports::report))]
    pub fn commanded(self, c: MouseCommand, params: [u8; 6], mode: MouseMode) -> Commanded
        ensures { result ≡ commanded_of (commanded c params mode self) }
    {
        match c {
            MouseCommand::SetRelative | MouseCommand::SetAbsolute | MouseCommand::SetKeycode => {
                self.started_anew().silent()
            }
            MouseCommand::ReportPosition => Commanded {
                short: self.report(),
                mouse: self.cleared(),
            },
            MouseCommand::LoadPosition => self.loaded(maximum_of(mode), params).silent(),
            MouseCommand::SetAction
            | MouseCommand::SetThreshold
            | MouseCommand::SetScale
            | MouseCommand::OriginBottom
            | MouseCommand::OriginTop => self.silent(),
        }
    }

    // 0x12 drops what is held.
    pub fn switched_off(self) -> Self
        ensures { result ≡ switched_off self }
    {
        self.without_motion()
    }

    // Nothing is held any more.
    pub(crate) fn without_motion(mut self) -> Self
        ensures { result ≡ without_motion self }
    {
        self.held = Motions::at_rest();
        self
    }

    fn silent(self) -> Commanded
        ensures { result ≡ commanded_of (quiet self) }
    {
        Commanded {
            short: Short::of([]),
            mouse: self,
        }
    }

    // A mode command: nothing held, and the coordinates 0.
    fn started_anew(mut self) -> Self
        ensures { result ≡ started_anew self }
    {
        self.place = Axes { x: 0, y: 0 };
        self.without_motion()
    }

    // 0x0E, held to the maximum; its first parameter is a filler.
    fn loaded(mut self, maximum: Axes<u16>, params: [u8; 6]) -> Self
        ensures { result ≡ loaded maximum params self }
    {
        self.place = Axes {
            x: maximum.x.min(u16::from_be_bytes([params[1], params[2]])),
            y: maximum.y.min(u16::from_be_bytes([params[3], params[4]])),
        };
        self
    }
}

// The most that the coordinates are: 0 outside absolute mode.
fn maximum_of(mode: MouseMode) -> Axes<u16>
    ensures { result ≡ maximum_of mode }
{
    match mode {
        MouseMode::Absolute { maximum } => maximum,
        MouseMode::Relative | MouseMode::Keycode { .. } => Axes { x: 0, y: 0 },
    }
}
