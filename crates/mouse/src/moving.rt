// Motion in the three modes of the mouse, and what of it is due at a resume.
ghost use Rattle.std.specs.Prelude.{◌≡◌, ◌≤◌};
ghost use Rattle.motion.specs.Motion.{size};
ghost use Rattle.protocol.specs.declared.MouseMode.TheVariants.{Relative};
ghost use Rattle.mouse.specs.Mouse.{WithinLimit, held_limit};
ghost use Rattle.mouse.specs.Reports.{quiet, send_all};
ghost use Rattle.mouse.specs.Moves.{negates_dy, incoming, added_to_held, either_reaches, quotients, remainders, send_deltas, coordinates_moved, motion_due, resumed, live_motion, moves, overflows};
ghost use Rattle.mouse.specs.Handing.{moved_of};

use crate::{Mouse, Moved, Sending};
use motion::{Axes, Motion, Motions};
use protocol::{MouseMode, Settings};

impl Mouse {
    // Would held motion along an axis leave its limit?
    #[tactic(auto, unfolding(crate::specs::Moves::overflows, crate::specs::Mouse::gathers))]
    pub fn overflows(self, settings: Settings, dx: i16, dy: i16) -> bool
        requires { WithinLimit self }
        ensures { result ≡ overflows settings dx dy self }
    {
        if !crate::live(settings) || settings.mouse.is_absolute() {
            return false;
        }
        let held = added_to_held(settings, dx, dy, self.held);
        let most = Mouse::HELD_LIMIT as u32;
        most < held.x.size() || most < held.y.size()
    }

    #[tactic(auto, unfolding(crate::specs::Moves::moves))]
    pub fn moves(mut self, paused: bool, settings: Settings, dx: i16, dy: i16) -> Moved
        requires { WithinLimit self }
        ensures { result ≡ moved_of (moves paused settings dx dy self) }
    {
        if !crate::live(settings) {
            return self.stays();
        }
        self.held = added_to_held(settings, dx, dy, self.held);
        self.live_motion(settings.mouse, paused, settings)
    }

    // Held motion that is due at a resume.
    #[tactic(auto, unfolding(crate::specs::Moves::released))]
    pub fn resumes(self, paused: bool, settings: Settings) -> Moved
        ensures { result ≡ moved_of (resumed paused settings self) }
    {
        if !paused || !crate::live(settings) {
            return self.stays();
        }
        self.motion_due(settings.mouse, settings.threshold)
    }

    // Motion, once it is held, in each mode.
    #[tactic(auto, unfolding(crate::specs::Moves::live_motion))]
    fn live_motion(self, mode: MouseMode, paused: bool, settings: Settings) -> Moved
        ensures { result ≡ moved_of (live_motion mode paused settings self) }
    {
        match mode {
            MouseMode::Absolute { maximum } => self
                .coordinates_moved(maximum, settings.scale)
                .stays(),
            _ if paused => self.stays(),
            _ => self.motion_due(mode, settings.threshold),
        }
    }

    // Held motion that is due, in each mode.
    #[tactic(auto, unfolding(crate::specs::Moves::motion_due))]
    fn motion_due(self, mode: MouseMode, threshold: Axes<u8>) -> Moved
        ensures { result ≡ moved_of (motion_due mode threshold self) }
    {
        match mode {
            MouseMode::Relative => self.reached(threshold),
            MouseMode::Absolute { .. } => self.stays(),
            MouseMode::Keycode { delta } => self.send_deltas(delta),
        }
    }

    // Nothing is sent, and nothing changes.
    fn stays(self) -> Moved
        ensures { result ≡ moved_of (quiet self) }
    {
        Moved {
            sending: Sending::none(),
            mouse: self,
        }
    }

    // Where either axis reaches its threshold, all is sent.
    #[tactic(auto, unfolding(crate::specs::Moves::motion_due))]
    fn reached(self, threshold: Axes<u8>) -> Moved
        ensures { result ≡ moved_of (motion_due Relative threshold self) }
    {
        if either_reaches(threshold, self.held) {
            self.send_all(0)
        } else {
            self.stays()
        }
    }

    // All held motion, in `least` packets at least.
    #[tactic(auto, unfolding(crate::specs::Reports::send_all))]
    pub(crate) fn send_all(self, least: u16) -> Moved
        ensures { result ≡ moved_of (send_all least self) }
    {
        let held = self.held;
        let n = held.x.packets_needed().max(held.y.packets_needed());
        let sending = Sending {
            packets: least.max(n),
            left: self.left,
            right: self.right,
            held,
            arrows: Motions::at_rest(),
        };
        let mouse = self.without_motion();
        Moved { sending, mouse }
    }

    // Whole deltas become arrow keys, and the remainder stays held.
    #[tactic(auto, unfolding(crate::specs::Moves::send_deltas))]
    fn send_deltas(mut self, delta: Axes<u8>) -> Moved
        ensures { result ≡ moved_of (send_deltas delta self) }
    {
        let sending = Sending {
            packets: 0,
            left: false,
            right: false,
            held: Motions::at_rest(),
            arrows: quotients(delta, self.held),
        };
        self.held = remainders(delta, self.held);
        Moved {
            sending,
            mouse: self,
        }
    }

    // Held motion moves the coordinates, by its scale; the remainder stays held. Three values meet along each axis, so `zip_with` would be
    // no plainer for them.
    #[tactic(auto, unfolding(crate::specs::Moves::coordinates_moved))]
    fn coordinates_moved(mut self, maximum: Axes<u16>, scale: Axes<u8>) -> Mouse
        ensures { result ≡ coordinates_moved maximum scale self }
    {
        let steps = quotients(scale, self.held);
        self.place = Axes {
            x: steps.x.coordinate_after(maximum.x, self.place.x),
            y: steps.y.coordinate_after(maximum.y, self.place.y),
        };
        self.held = remainders(scale, self.held);
        self
    }
}

// Held motion with what an event brings.
#[tactic(auto, unfolding(crate::specs::Moves::added_to_held))]
fn added_to_held(settings: Settings, dx: i16, dy: i16, held: Motions) -> Motions
    requires { (size held.x ≤ held_limit) × (size held.y ≤ held_limit) }
    ensures { result ≡ added_to_held settings dx dy held }
{
    held.zip_with(incoming(settings, dx, dy), |m, d| m.add(d))
}

// What an event brings: origin bottom negates dy, except in keycode mode.
#[tactic(auto, unfolding(crate::specs::Moves::incoming))]
fn incoming(settings: Settings, dx: i16, dy: i16) -> Motions
    ensures did { result ≡ incoming settings dx dy }
    ensures far { (size result.x ≤ 32768) × (size result.y ≤ 32768) }
{
    let x = Motion::of_signed(dx);
    let y = Motion::of_signed(dy);
    if negates_dy(settings.mouse, settings.bottom) {
        Axes { x, y: y.opposite() }
    } else {
        Axes { x, y }
    }
}

fn negates_dy(mode: MouseMode, bottom: bool) -> bool
    ensures { result ≡ negates_dy mode bottom }
{
    bottom && !matches!(mode, MouseMode::Keycode { .. })
}

#[tactic(auto, unfolding(crate::specs::Moves::either_reaches))]
fn either_reaches(threshold: Axes<u8>, d: Motions) -> bool
    ensures { result ≡ either_reaches threshold d }
{
    d.x.reaches(protocol::acts_as(threshold.x)) || d.y.reaches(protocol::acts_as(threshold.y))
}

fn quotients(scale: Axes<u8>, d: Motions) -> Motions
    ensures { result ≡ quotients scale d }
{
    d.zip_with(scale, |m, s| m.quotient(protocol::acts_as(s)))
}

fn remainders(scale: Axes<u8>, d: Motions) -> Motions
    ensures { result ≡ remainders scale d }
{
    d.zip_with(scale, |m, s| m.remainder(protocol::acts_as(s)))
}
