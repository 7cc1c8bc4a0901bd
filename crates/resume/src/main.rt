// Goes on from a saved state. The first line of the input is a saved line, or `-` for power-up; the rest is a session, as the text program
// reads it. Printed are the header; the number 0, the answer of the reading and `-`; what the text program prints for the session; and the
// saved line of the state at its end.
#![tactic(auto)]

ghost use Rattle.std.specs.Prelude.{◌≡◌, ◌≤◌, IfOk, length};
ghost use Rattle.controller.specs.State.{IsState};
ghost use Rattle.text.specs.Output.{line_room};

use blocks::{BLOCK, Playing};
use controller::State;
use saved::{Loaded, NoState};
use session::Session;
use std::io;
use std::io::{Read, Write};

// How many blocks are read at most, of the first line and again of the session behind it: one less than of a session alone, since a block was
// read with the first line.
const MOST_BLOCKS: u64 = blocks::MOST_BLOCKS - 1;

// What the first line came to: the state, and how many of the block's `filled` bytes it took.
#[derive(Drop)]
pub struct First {
    pub loaded: Loaded,
    pub used: usize,
    pub filled: usize,
}

// The first line of the input, up to its line feed or, where it has none, to the end of the input. Of a line that is longer than every
// saved line, enough is kept to show that it is none.
fn first_line<R: Read>(input: &mut R, block: &mut [u8; BLOCK]) -> First
    ensures state { IsState result.loaded.state }
    ensures within { (result.used ≤ result.filled) × (result.filled ≤ 65536) }
{
    let mut kept = 0;
    for _block in 0..MOST_BLOCKS {
        let n = blocks::read_on(input, kept, block);
        let end = session::line_end(&block[..n], kept);
        if end < n {
            return First {
                loaded: saved::begun(&block[..end + 1]),
                used: end + 1,
                filled: n,
            };
        }
        if n == kept {
            return First {
                loaded: saved::begun(&block[..n]),
                used: n,
                filled: n,
            };
        }
        kept = session::keep_most(block, 0, n, saved::LINE_ROOM + 1);
    }
    First {
        loaded: saved::begun(&[]),
        used: 0,
        filled: 0,
    }
}

// The answer of the reading.
fn tell<W: Write>(output: &mut W, answer: Result<(), NoState>, out: &mut [u8]) -> io::Result<()>
    requires { line_room 0 ≤ length out.old }
{
    let n = text::write_line(0, saved::load_number(answer), &[], out);
    output.write_all(&out[..n])
}

// The lines of the session, block by block: those that are in the block, from `used` to `filled`, and then those that follow. The state at
// the end.
fn play<R: Read, W: Write>(
    input: &mut R,
    output: &mut W,
    state: State,
    used: usize,
    filled: usize,
    block: &mut [u8; BLOCK],
    out: &mut [u8; BLOCK],
) -> io::Result<State>
    requires state { IsState state }
    requires within { (used ≤ filled) × (filled ≤ 65536) }
    ensures { IfOk result (λ last. IsState last) }
{
    let mut playing = Playing::new(Session { state, number: 1 });
    let answered = blocks::answer(&mut playing, &block[used..filled], out, output)?;
    let kept = session::keep(block, used + answered, filled);
    blocks::run(input, output, &mut playing, block, kept, out, MOST_BLOCKS)?;
    Ok(playing.session.state)
}

fn run<R: Read, W: Write>(
    input: &mut R,
    output: &mut W,
    block: &mut [u8; BLOCK],
    out: &mut [u8; BLOCK],
) -> io::Result<()> {
    let n = text::write_header(out);
    output.write_all(&out[..n])?;
    let first = first_line(input, block);
    tell(output, first.loaded.answer, out)?;
    let last = play(
        input,
        output,
        first.loaded.state,
        first.used,
        first.filled,
        block,
        out,
    )?;
    // Without room for the line nothing is printed; it has room here.
    let n = saved::write(last, out).unwrap_or(0);
    output.write_all(&out[..n])
}

fn main(rt: HostRuntime) {
    let mut input = rt.stdin();
    let mut output = rt.stdout();
    let mut block = [0; BLOCK];
    let mut out = [0; BLOCK];
    // A write that fails ends the program: nobody is left to tell, and the exit status is 0.
    let _ = run(&mut input, &mut output, &mut block, &mut out);
}
