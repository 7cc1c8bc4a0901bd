// The step: one input, one answer.
ghost use Rattle.controller.specs.State.{IsState};
ghost use Rattle.controller.specs.Step.{Did};

use crate::{Input, State, Stepped};

impl State {
    // One input, with a lent buffer of any length. The state is taken apart, `Core::apply` decides, and it is put together again.
    pub fn step(self, input: Input, out: &mut [u8]) -> Stepped
        requires { IsState self }
        ensures did { Did self input out.old result out.new }
        ensures keeps { IsState result.state }
    {
        let waiting = self.queue.len;
        let mut queue = self.queue.bytes;
        let done = self.core().apply(input, waiting, &mut queue, out);
        Stepped {
            answer: done.answer,
            state: done.core.with_queue(queue, done.waiting),
        }
    }
}
