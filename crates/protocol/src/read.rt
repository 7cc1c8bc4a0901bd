// How bytes become commands: a command acts on its last byte.
ghost use Rattle.std.specs.Prelude.{◌≡◌, ◌<◌};
ghost use Rattle.protocol.specs.Reading.{most_parameters, half, whole, begin, take_parameter, take_data, feed, received_of, IsCommand};

use crate::code::parameters_of;
use crate::{Command, Received, Whole};

// The one command with data: its third parameter says how many bytes follow.
const MEMORY_LOAD: u8 = 0x20;

impl Command {
    #[tactic(auto, using(crate::proofs::Reading::next_placed), unfolding(crate::specs::Reading::feed))]
    pub fn feed(self, b: u8) -> Received
        requires { IsCommand self }
        ensures { result ≡ received_of (feed self b) }
    {
        if self.code == 0 {
            Command::begin(b)
        } else if 0 < self.pending {
            self.take_data()
        } else {
            self.take_parameter(b)
        }
    }

    #[tactic(auto, unfolding(crate::specs::Reading::begin))]
    fn begin(code: u8) -> Received
        ensures { result ≡ received_of (begin code) }
    {
        let command = Command {
            code,
            ..Command::none()
        };
        if parameters_of(code) == 0 {
            command.whole()
        } else {
            command.half()
        }
    }

    #[tactic(auto, unfolding(crate::specs::Reading::take_parameter))]
    fn take_parameter(mut self, b: u8) -> Received
        requires { self.come < most_parameters }
        ensures { result ≡ received_of (take_parameter self b) }
    {
        self.params[self.come as usize] = b;
        self.come += 1;
        self.pending = 0;
        if self.come < parameters_of(self.code) {
            return self.half();
        }
        if self.code == MEMORY_LOAD && 0 < b {
            self.pending = b;
            return self.half();
        }
        self.whole()
    }

    // Data is not kept.
    #[tactic(auto, unfolding(crate::specs::Reading::take_data))]
    fn take_data(mut self) -> Received
        requires { 0 < self.pending }
        ensures { result ≡ received_of (take_data self) }
    {
        if self.pending == 1 {
            return self.whole();
        }
        self.pending -= 1;
        self.half()
    }

    // Bytes are still to come.
    fn half(self) -> Received
        ensures { result ≡ received_of (half self) }
    {
        Received {
            command: self,
            whole: None,
        }
    }

    // All bytes have come.
    fn whole(self) -> Received
        ensures { result ≡ received_of (whole self.code self.params) }
    {
        let Command { code, params, .. } = self;
        Received {
            command: Command::none(),
            whole: Some(Whole { code, params }),
        }
    }
}
