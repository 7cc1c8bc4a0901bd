// Which commands are executed, and what they do to the settings.
ghost use Rattle.std.specs.Prelude.{◌≡◌, ◌+◌, ◌*◌};
ghost use Rattle.protocol.specs.Commands.{mouse_executed, stick_executed, executed, answers_interrogation, leave_monitoring, point_at, axes_at, stick_keycode_of, with_mouse, with_stick, mouse_sets, stick_sets, sets};

use crate::{
    Meaning, MouseCommand, MouseMode, OtherCommand, Repeat, Role, Settings, StickCommand, StickMode,
};
use motion::Axes;

// The button actions are 0 to 4.
const MOST_ACTION: u8 = 4;

impl StickMode {
    // 0x16 is executed in these modes.
    fn answers_interrogation(self) -> bool
        ensures { result ≡ answers_interrogation self }
    {
        matches!(self, StickMode::Event | StickMode::Interrogation)
    }

    fn leave_monitoring(self) -> StickMode
        ensures { result ≡ leave_monitoring self }
    {
        if self.is_monitoring() {
            StickMode::Event
        } else {
            self
        }
    }
}

// Four parameter bytes: X and then Y, each high byte first.
fn point(params: [u8; 6]) -> Axes<u16>
    ensures { result ≡ point_at 0 params }
{
    let [xh, xl, yh, yl, ..] = params;
    Axes {
        x: u16::from_be_bytes([xh, xl]),
        y: u16::from_be_bytes([yh, yl]),
    }
}

fn axes(params: [u8; 6]) -> Axes<u8>
    ensures { result ≡ axes_at 0 params }
{
    let [x, y, ..] = params;
    Axes { x, y }
}

// The numbers of 0x19 come as RX RY TX TY VX VY.
fn stick_keycode(params: [u8; 6]) -> StickMode
    ensures { result ≡ stick_keycode_of params }
{
    let [rx, ry, tx, ty, vx, vy] = params;
    StickMode::StickKeycode {
        x: Repeat {
            breakpoint: rx,
            before: tx,
            after: vx,
        },
        y: Repeat {
            breakpoint: ry,
            before: ty,
            after: vy,
        },
    }
}

impl Settings {
    #[tactic(auto, unfolding(crate::specs::Commands::executed))]
    pub fn executes(self, m: Meaning, params: [u8; 6]) -> bool
        ensures { result ≡ executed m params self }
    {
        match m {
            Meaning::Nothing | Meaning::Memory => false,
            Meaning::Pause | Meaning::OfOther(_) => true,
            Meaning::Reset => params[0] == 1,
            Meaning::OfMouse(k) => self.executes_mouse(k, params),
            Meaning::OfStick(k) => self.executes_stick(k),
            Meaning::Inquire(_) => !self.stick.is_monitoring(),
        }
    }

    #[tactic(auto, unfolding(crate::specs::Commands::mouse_executed))]
    fn executes_mouse(self, m: MouseCommand, params: [u8; 6]) -> bool
        ensures { result ≡ mouse_executed m params self }
    {
        match m {
            MouseCommand::SetAction => params[0] <= MOST_ACTION,
            MouseCommand::ReportPosition | MouseCommand::LoadPosition => self.mouse.is_absolute(),
            _ => true,
        }
    }

    #[tactic(auto, unfolding(crate::specs::Commands::stick_executed))]
    fn executes_stick(self, k: StickCommand) -> bool
        ensures { result ≡ stick_executed k self }
    {
        match k {
            StickCommand::ReportSticks => self.stick.answers_interrogation() && self.stickson,
            _ => true,
        }
    }

    // The settings after an executed command: 0x07 to 0x10 make port 0 a mouse, 0x14 to 0x1A a joystick.
    #[tactic(auto, unfolding(crate::specs::Commands::sets, crate::specs::Commands::other_sets))]
    pub fn after(self, m: Meaning, params: [u8; 6]) -> Settings
        ensures { result ≡ sets m params self }
    {
        match m {
            Meaning::OfMouse(k) => Settings {
                port0: Role::ForMouse,
                ..self.mouse_sets(k, params)
            },
            Meaning::OfStick(k) => Settings {
                port0: Role::ForJoystick,
                ..self.stick_sets(k, params)
            },
            Meaning::OfOther(OtherCommand::MouseOff) => Settings {
                mouseon: false,
                ..self
            },
            Meaning::Reset => Settings::power_up(),
            Meaning::Nothing
            | Meaning::Memory
            | Meaning::Pause
            | Meaning::OfOther(_)
            | Meaning::Inquire(_) => self,
        }
    }

    #[tactic(auto, unfolding(crate::specs::Commands::mouse_sets))]
    fn mouse_sets(self, m: MouseCommand, params: [u8; 6]) -> Settings
        ensures { result ≡ mouse_sets m params self }
    {
        match m {
            MouseCommand::SetAction => Settings {
                action: params[0],
                ..self
            },
            MouseCommand::SetRelative => self.with_mouse(MouseMode::Relative),
            MouseCommand::SetAbsolute => self.with_mouse(MouseMode::Absolute {
                maximum: point(params),
            }),
            MouseCommand::SetKeycode => self.with_mouse(MouseMode::Keycode {
                delta: axes(params),
            }),
            MouseCommand::SetThreshold => Settings {
                threshold: axes(params),
                ..self
            },
            MouseCommand::SetScale => Settings {
                scale: axes(params),
                ..self
            },
            MouseCommand::OriginBottom => Settings {
                bottom: true,
                ..self
            },
            MouseCommand::OriginTop => Settings {
                bottom: false,
                ..self
            },
            MouseCommand::ReportPosition | MouseCommand::LoadPosition => self,
        }
    }

    #[tactic(auto, unfolding(crate::specs::Commands::stick_sets))]
    fn stick_sets(self, k: StickCommand, params: [u8; 6]) -> Settings
        ensures { result ≡ stick_sets k params self }
    {
        match k {
            StickCommand::SetEvent => self.with_stick(StickMode::Event),
            StickCommand::SetInterrogation => self.with_stick(StickMode::Interrogation),
            StickCommand::SetMonitoring => self.with_stick(StickMode::Monitoring {
                rate: params[0],
            }),
            StickCommand::SetFire => self.with_stick(StickMode::Fire),
            StickCommand::SetStickKeycode => self.with_stick(stick_keycode(params)),
            StickCommand::SticksOff => Settings {
                stick: self.stick.leave_monitoring(),
                stickson: false,
                ..self
            },
            StickCommand::ReportSticks => self,
        }
    }

    // A mouse mode turns the mouse on and leaves monitoring.
    fn with_mouse(self, mouse: MouseMode) -> Settings
        ensures { result ≡ with_mouse mouse self }
    {
        Settings {
            mouse,
            mouseon: true,
            stick: self.stick.leave_monitoring(),
            ..self
        }
    }

    // A joystick mode turns the joysticks on.
    fn with_stick(self, stick: StickMode) -> Settings
        ensures { result ≡ with_stick stick self }
    {
        Settings {
            stick,
            stickson: true,
            ..self
        }
    }
}
