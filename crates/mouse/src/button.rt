// The buttons in the three modes of the mouse.
ghost use Rattle.std.specs.Prelude.{◌≡◌};
ghost use Rattle.protocol.specs.declared.MouseMode.TheVariants.{Relative, Absolute};
ghost use Rattle.mouse.specs.Mouse.{origin};
ghost use Rattle.mouse.specs.Buttons.{level, with_level, unchanged, key_of, latched, with_latch, action_reports, button_as_key, live_button, presses, gives_fire};
ghost use Rattle.mouse.specs.Handing.{pressed_of, only_short};

use crate::{Latches, Mouse, Moved, Pressed, Sending, Side};
use output::{ScanCode, Short};
use protocol::{MouseMode, Settings};

impl Mouse {
    #[tactic(auto, unfolding(crate::specs::Buttons::presses))]
    pub fn presses(self, settings: Settings, side: Side, down: bool) -> Pressed
        ensures { result ≡ pressed_of (presses settings side down self) }
    {
        if self.unchanged(side, down) {
            return self.only_short(Short::of([]));
        }
        let next = self.with_level(side, down);
        if !crate::live(settings) {
            return next.only_short(Short::of([]));
        }
        next.live_button(settings.mouse, settings.action, side, down)
    }

    // With the mouse off the right button is the fire button of stick 1, where port 0 is a mouse and no monitoring mode is on. Does this
    // event give fire, or let go of it?
    #[tactic(auto, unfolding(crate::specs::Buttons::gives_fire))]
    pub fn gives_fire(self, settings: Settings, side: Side, down: bool) -> bool
        ensures { result ≡ gives_fire settings side down self }
    {
        match side {
            Side::Left => false,
            Side::Right => {
                !settings.mouseon
                    && settings.port0.is_mouse()
                    && !settings.stick.is_monitoring()
                    && !self.unchanged(side, down)
            }
        }
    }

    // A live button whose level has changed, in each mode.
    #[tactic(auto, unfolding(crate::specs::Buttons::live_button))]
    fn live_button(self, mode: MouseMode, action: u8, side: Side, down: bool) -> Pressed
        ensures { result ≡ pressed_of (live_button mode action side down self) }
    {
        match mode {
            MouseMode::Relative => self.relative_button(action, side, down),
            MouseMode::Absolute { .. } => self.absolute_button(action, side, down),
            MouseMode::Keycode { .. } => self.button_as_key(side, down),
        }
    }

    // All held motion is sent with the new levels; action 4 makes the buttons keys.
    #[tactic(auto, unfolding(crate::specs::Buttons::live_button, crate::specs::Reports::send_all))]
    fn relative_button(self, action: u8, side: Side, down: bool) -> Pressed
        ensures { result ≡ pressed_of (live_button Relative action side down self) }
    {
        if action == 4 {
            return self.button_as_key(side, down);
        }
        let Moved { sending, mouse } = self.send_all(1);
        Pressed {
            sending,
            short: Short::of([]),
            mouse,
        }
    }

    // The latch is set whatever the action, which says whether a report goes out. The maximum plays no part.
    #[tactic(auto, unfolding(crate::specs::Buttons::live_button, crate::specs::Reports::report))]
    fn absolute_button(self, action: u8, side: Side, down: bool) -> Pressed
        ensures { result ≡ pressed_of (live_button (Absolute origin) action side down self) }
    {
        let next = self.with_latch(side, down);
        if action == 4 {
            return next.button_as_key(side, down);
        }
        if action_reports(action, down) {
            next.only_short(next.report())
        } else {
            next.only_short(Short::of([]))
        }
    }

    // A button as a key.
    fn button_as_key(self, side: Side, down: bool) -> Pressed
        ensures { result ≡ pressed_of (button_as_key side down self) }
    {
        self.only_short(Short::of([output::code_sent(key_of(side), down)]))
    }

    // Nothing goes out but a short run of bytes.
    fn only_short(self, short: Short) -> Pressed
        ensures { result ≡ only_short short self }
    {
        Pressed {
            sending: Sending::none(),
            short,
            mouse: self,
        }
    }

    // Is the button at this level already?
    fn unchanged(self, side: Side, down: bool) -> bool
        ensures { result ≡ unchanged side down self }
    {
        self.level(side) == down
    }

    fn level(self, side: Side) -> bool
        ensures { result ≡ level side self }
    {
        match side {
            Side::Left => self.left,
            Side::Right => self.right,
        }
    }

    pub fn with_level(mut self, side: Side, down: bool) -> Mouse
        ensures { result ≡ with_level side down self }
    {
        match side {
            Side::Left => self.left = down,
            Side::Right => self.right = down,
        }
        self
    }

    fn with_latch(mut self, side: Side, down: bool) -> Mouse
        ensures { result ≡ with_latch side down self }
    {
        self.latches = self.latches.latched(side, down);
        self
    }
}

fn key_of(side: Side) -> u8
    ensures { result ≡ key_of side }
{
    match side {
        Side::Left => ScanCode::KEY_LEFT,
        Side::Right => ScanCode::KEY_RIGHT,
    }
}

impl Latches {
    fn latched(mut self, side: Side, down: bool) -> Self
        ensures { result ≡ latched side down self }
    {
        match (side, down) {
            (Side::Left, true) => self.leftdown = true,
            (Side::Left, false) => self.leftup = true,
            (Side::Right, true) => self.rightdown = true,
            (Side::Right, false) => self.rightup = true,
        }
        self
    }
}

// Action bit 0 reports a press, bit 1 a release.
fn action_reports(action: u8, down: bool) -> bool
    ensures { result ≡ action_reports action down }
{
    if down {
        action % 2 == 1
    } else {
        action / 2 % 2 == 1
    }
}
