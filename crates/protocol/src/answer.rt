// The replies to the status inquiries: 0xF6 and the command that would set what was asked, filled with zeros.
ghost use Rattle.std.specs.Prelude.{◌≡◌, ◌∷◌};
ghost use Rattle.output.specs.Packets.{bytes_of};
ghost use Rattle.output.specs.Short.{short_of};
ghost use Rattle.protocol.specs.Replies.{mouse_reply, stick_reply, reply};

use crate::{Inquiry, MouseMode, Settings, StickMode};
use output::Short;

// A code and its parameter bytes, zeros where the command has fewer than six.
fn status(code: u8, params: [u8; 6]) -> Short
    ensures { result ≡ short_of (0xF6 ∷ code ∷ params) }
{
    let [a, b, c, d, e, f] = params;
    Short::of([0xF6, code, a, b, c, d, e, f])
}

fn mouse_reply(mode: MouseMode) -> Short
    ensures { result ≡ short_of (bytes_of (mouse_reply mode)) }
{
    match mode {
        MouseMode::Relative => status(0x08, [0; 6]),
        MouseMode::Absolute { maximum } => {
            let [xh, xl] = maximum.x.to_be_bytes();
            let [yh, yl] = maximum.y.to_be_bytes();
            status(0x09, [xh, xl, yh, yl, 0, 0])
        }
        MouseMode::Keycode { delta } => status(0x0A, [delta.x, delta.y, 0, 0, 0, 0]),
    }
}

fn stick_reply(mode: StickMode) -> Short
    ensures { result ≡ short_of (bytes_of (stick_reply mode)) }
{
    match mode {
        StickMode::Event => status(0x14, [0; 6]),
        StickMode::Interrogation => status(0x15, [0; 6]),
        StickMode::Monitoring { rate } => status(0x17, [rate, 0, 0, 0, 0, 0]),
        StickMode::Fire => status(0x18, [0; 6]),
        StickMode::StickKeycode { x, y } => status(
            0x19,
            [
                x.breakpoint,
                y.breakpoint,
                x.before,
                y.before,
                x.after,
                y.after,
            ],
        ),
    }
}

impl Settings {
    #[tactic(auto, unfolding(crate::specs::Replies::reply))]
    pub fn reply(self, q: Inquiry) -> Short
        ensures { result ≡ short_of (bytes_of (reply q self)) }
    {
        match q {
            Inquiry::AskAction => status(0x07, [self.action, 0, 0, 0, 0, 0]),
            Inquiry::AskMouse => mouse_reply(self.mouse),
            Inquiry::AskThreshold => status(0x0B, [self.threshold.x, self.threshold.y, 0, 0, 0, 0]),
            Inquiry::AskScale => status(0x0C, [self.scale.x, self.scale.y, 0, 0, 0, 0]),
            Inquiry::AskOrigin => status(if self.bottom { 0x0F } else { 0x10 }, [0; 6]),
            Inquiry::AskMouseOff => status(if self.mouseon { 0x00 } else { 0x12 }, [0; 6]),
            Inquiry::AskStick => stick_reply(self.stick),
            Inquiry::AskSticksOff => status(if self.stickson { 0x00 } else { 0x1A }, [0; 6]),
        }
    }
}
