// One input, one answer: the place where every input is decided.
ghost use Rattle.std.specs.Prelude.{◌≡◌};
ghost use Rattle.controller.specs.State.{IsState};
ghost use Rattle.controller.specs.Applying.{joined, AppliedAs};

use crate::due::Then;
use crate::{Applied, Core, Input, Refusal, event, send};
use mouse::Side;
use output::Short;
use protocol::Meaning;

// What the controller says of itself at a reset.
const VERSION: u8 = 0xF0;

impl Core {
    // One input, with a lent buffer of any length; `waiting` bytes wait at the start of the lent queue. What falls due is written at the
    // buffer's start or, for an event while output is paused, behind what waits. A command acts on its last byte; while output is paused
    // it first resumes: what waits is written, then held motion that is due, and only then its own packet.
    //
    // Each arm has the promise of `apply`, of its own input. It asks a part for what the input comes to, hands the bytes to a writer of `send`, and stores the part as it then is.
    pub fn apply(self, input: Input, waiting: usize, queue: &mut [u8], out: &mut [u8]) -> Applied
        requires { IsState (joined self queue.old waiting) }
        ensures { AppliedAs self input waiting queue.old out.old result queue.new out.new }
    {
        match input {
            Input::Byte(b) => self.byte(b, waiting, queue, out),
            Input::Key { code, down } => self.key(code, down, waiting, queue, out),
            Input::Button { side, down } => self.button(side, down, waiting, queue, out),
            Input::Move { dx, dy } => self.motion(dx, dy, waiting, queue, out),
            Input::Joystick {
                stick,
                position,
                trigger,
            } => self.joystick(stick, position, trigger, waiting, queue, out),
            Input::Sample(b) => self.sample(b, waiting, queue, out),
            Input::Tick => self.tick(waiting, queue, out),
        }
    }

    #[inline(always)]
    fn key(
        mut self,
        code: u8,
        down: bool,
        mut waiting: usize,
        queue: &mut [u8],
        out: &mut [u8],
    ) -> Applied
        requires { IsState (joined self queue.old waiting) }
        ensures { AppliedAs self (Input.Key code down) waiting queue.old out.old result queue.new out.new }
    {
        if !event::key_in_range(code) {
            return self.answers(Err(Refusal::OutOfRange), waiting);
        }
        let short = event::key_bytes(self.settings, code, down);
        let answer = send::send(self.paused, &short, &mut waiting, queue, out);
        if answer.is_ok() {
            self.keys = self.keys.struck(code, down);
        }
        Applied {
            answer,
            waiting,
            core: self,
        }
    }

    #[inline(always)]
    fn button(
        mut self,
        side: Side,
        down: bool,
        mut waiting: usize,
        queue: &mut [u8],
        out: &mut [u8],
    ) -> Applied
        requires { IsState (joined self queue.old waiting) }
        ensures { AppliedAs self (Input.Button side down) waiting queue.old out.old result queue.new out.new }
    {
        // With the mouse off the right button may be the trigger of stick 1.
        if self.mouse.gives_fire(self.settings, side, down) {
            let told = event::fire_told(self.settings, self.sticks, down);
            let answer = send::send(self.paused, &told.short, &mut waiting, queue, out);
            if answer.is_ok() {
                self.mouse = self.mouse.with_level(side, down);
                self.sticks = told.sticks;
            }
            return Applied {
                answer,
                waiting,
                core: self,
            };
        }
        let told = self.mouse.presses(self.settings, side, down);
        let due = Then(told.sending, told.short);
        let answer = send::send(self.paused, &due, &mut waiting, queue, out);
        if answer.is_ok() {
            self.mouse = told.mouse;
        }
        Applied {
            answer,
            waiting,
            core: self,
        }
    }

    #[inline(always)]
    fn motion(
        mut self,
        dx: i16,
        dy: i16,
        mut waiting: usize,
        queue: &mut [u8],
        out: &mut [u8],
    ) -> Applied
        requires { IsState (joined self queue.old waiting) }
        ensures { AppliedAs self (Input.Move dx dy) waiting queue.old out.old result queue.new out.new }
    {
        if !event::move_in_range(dx, dy) {
            return self.answers(Err(Refusal::OutOfRange), waiting);
        }
        if self.paused && self.mouse.overflows(self.settings, dx, dy) {
            return self.answers(Err(Refusal::MotionFull), waiting);
        }
        let told = self.mouse.moves(self.paused, self.settings, dx, dy);
        let answer = send::send(self.paused, &told.sending, &mut waiting, queue, out);
        if answer.is_ok() {
            self.mouse = told.mouse;
        }
        Applied {
            answer,
            waiting,
            core: self,
        }
    }

    #[inline(always)]
    fn joystick(
        mut self,
        stick: i16,
        position: i16,
        trigger: i16,
        mut waiting: usize,
        queue: &mut [u8],
        out: &mut [u8],
    ) -> Applied
        requires { IsState (joined self queue.old waiting) }
        ensures { AppliedAs self (Input.Joystick stick position trigger) waiting queue.old out.old result queue.new out.new }
    {
        let Some((which, new)) = event::stick_read(stick, position, trigger) else {
            return self.answers(Err(Refusal::OutOfRange), waiting);
        };
        let told = self.sticks.stick_moved(self.settings, which, new);
        let answer = send::send(self.paused, &told.short, &mut waiting, queue, out);
        if answer.is_ok() {
            self.sticks = told.sticks;
        }
        Applied {
            answer,
            waiting,
            core: self,
        }
    }

    #[inline(always)]
    fn sample(mut self, b: i16, mut waiting: usize, queue: &mut [u8], out: &mut [u8]) -> Applied
        requires { IsState (joined self queue.old waiting) }
        ensures { AppliedAs self (Input.Sample b) waiting queue.old out.old result queue.new out.new }
    {
        let Some(sample) = event::sample_read(b) else {
            return self.answers(Err(Refusal::OutOfRange), waiting);
        };
        let told = self.sticks.sampled(self.paused, self.settings, sample);
        let answer = send::send(self.paused, &told.short, &mut waiting, queue, out);
        if answer.is_ok() {
            self.sticks = told.sticks;
        }
        Applied {
            answer,
            waiting,
            core: self,
        }
    }

    #[inline(always)]
    fn tick(mut self, mut waiting: usize, queue: &mut [u8], out: &mut [u8]) -> Applied
        requires { IsState (joined self queue.old waiting) }
        ensures { AppliedAs self Input.Tick waiting queue.old out.old result queue.new out.new }
    {
        let told = self.sticks.ticked(self.paused, self.settings);
        let answer = send::send(self.paused, &told.short, &mut waiting, queue, out);
        if answer.is_ok() {
            self.sticks = told.sticks;
            self.clock = self.clock.tick();
        }
        Applied {
            answer,
            waiting,
            core: self,
        }
    }

    #[inline(always)]
    fn byte(mut self, b: u8, mut waiting: usize, queue: &mut [u8], out: &mut [u8]) -> Applied
        requires { IsState (joined self queue.old waiting) }
        ensures { AppliedAs self (Input.Byte b) waiting queue.old out.old result queue.new out.new }
    {
        let got = self.command.feed(b);
        let Some(whole) = got.whole else {
            self.command = got.command;
            return self.answers(Ok(0), waiting);
        };
        let params = whole.params;
        let meaning = protocol::meaning_of(whole.code);
        if !self.settings.executes(meaning, params) {
            self.command = got.command;
            return self.answers(Ok(0), waiting);
        }
        match meaning {
            Meaning::Pause => {
                self.command = got.command;
                self.paused = true;
                self.answers(Ok(0), waiting)
            }
            Meaning::Reset => {
                let due = Then(Short::of([VERSION]), self.keys);
                let answer = send::replace(&due, &mut waiting, queue, out);
                if answer.is_ok() {
                    self = Core::reset_but(self.clock, self.keys);
                }
                Applied {
                    answer,
                    waiting,
                    core: self,
                }
            }
            _ => {
                let moved = self.mouse.resumes(self.paused, self.settings);
                let resumed = Core {
                    mouse: moved.mouse,
                    ..self
                };
                let acted = resumed.acts(meaning, params);
                let due = Then(moved.sending, acted.short);
                let answer = send::flush(&due, &mut waiting, queue, out);
                if answer.is_ok() {
                    self.command = got.command;
                    self.settings = self.settings.after(meaning, params);
                    self.paused = false;
                    self.mouse = acted.mouse;
                    self.sticks = acted.sticks;
                    self.clock = acted.clock;
                }
                Applied {
                    answer,
                    waiting,
                    core: self,
                }
            }
        }
    }

    // This answer, with so many bytes waiting.
    #[inline(always)]
    fn answers(self, answer: Result<usize, Refusal>, waiting: usize) -> Applied
        ensures { result ≡ record { answer = answer; waiting = waiting; core = self } }
    {
        Applied {
            answer,
            waiting,
            core: self,
        }
    }
}
