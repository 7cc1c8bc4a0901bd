// Questions of the stored tests, which the grammar of the text program cannot spell: each tells something of a state and changes none.
ghost use Rattle.std.specs.Prelude.{◌∷◌, [], ◌≤◌, length};
ghost use Rattle.output.specs.Writing.{Wrote};
ghost use Rattle.keys.specs.Keys.{held};
ghost use Rattle.controller.specs.State.{IsState, contents};
ghost use Rattle.controller.specs.Look.{look};
ghost use Rattle.text.specs.Output.{line_room, output_line};

use controller::State;

// The line of output that tells the bytes which wait in the queue.
#[tactic(auto, using(text::proofs::Shown::line_fits, controller::proofs::Lengths::queue_small))]
pub fn tell_queue(state: State, number: u64, out: &mut [u8]) -> usize
    requires state { IsState state }
    requires room { line_room state.queue.len ≤ length out.old }
    ensures { Wrote (output_line number 0 (contents state.queue)) result out.old out.new }
{
    text::write_line(number, 0, &state.queue.bytes[..state.queue.len], out)
}

// The line of output that tells what the lamp shows: how many keys are held, as one byte.
pub fn tell_lamp(state: State, number: u64, out: &mut [u8]) -> usize
    requires state { IsState state }
    requires room { line_room 1 ≤ length out.old }
    ensures { Wrote (output_line number 0 (held state.keys ∷ [])) result out.old out.new }
{
    let shown = [state.lamp()];
    text::write_line(number, 0, &shown, out)
}

// The line of output that tells what a look comes to, into as much of a buffer as is lent.
pub fn tell_look(state: State, number: u64, lent: &mut [u8], out: &mut [u8]) -> usize
    requires { line_room (length lent.old) ≤ length out.old }
    ensures { let v = look state (length lent.old) in Wrote (output_line number v.answer v.written) result out.old out.new }
{
    let seen = state.look(lent);
    let answer = controller::look_number(seen);
    let count = seen.unwrap_or(0);
    text::write_line(number, answer, &lent[..count], out)
}
