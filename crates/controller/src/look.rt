// What 0x0D reports, for a panel on the bench: a look, which clears nothing, and the clearing, which shows nothing.
ghost use Rattle.std.specs.Prelude.{◌≡◌};
ghost use Rattle.controller.specs.State.{IsState};
ghost use Rattle.controller.specs.Look.{look_number, LookedAs, cleared};

use crate::State;

// Why a look shows nothing.
#[derive(Clone, Copy, Debug, PartialEq, Eq)]
pub enum LookRefusal {
    NotAbsolute,
    BufferShort,
}

// The number that the protocol gives what a look comes to.
pub fn look_number(answer: Result<usize, LookRefusal>) -> u8
    ensures { result ≡ look_number answer }
{
    match answer {
        Ok(_) => 0,
        Err(LookRefusal::NotAbsolute) => 7,
        Err(LookRefusal::BufferShort) => 4,
    }
}

impl State {
    // Latches and coordinates as 0x0D would report them, into a lent buffer of any length; the answer counts the report's bytes at its
    // start. Any state may be looked at, paused, with the mouse off or port 0 a joystick too; none is handed back, since none changes.
    pub fn look(self, out: &mut [u8]) -> Result<usize, LookRefusal>
        ensures { LookedAs self out.old result out.new }
    {
        if !self.settings.mouse.is_absolute() {
            return Err(LookRefusal::NotAbsolute);
        }
        let report = self.mouse.report();
        if out.len() < report.len {
            return Err(LookRefusal::BufferShort);
        }
        Ok(report.write(out))
    }

    // The latches are empty, in every mode, and nothing else changes.
    pub fn cleared(mut self) -> Self
        ensures only { result ≡ cleared self }
        ensures keeps { IsState self → IsState result }
    {
        self.mouse = self.mouse.cleared();
        self
    }
}
