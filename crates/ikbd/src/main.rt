// The text program: a session from standard input, and its answers on standard output. What a line means and what is printed for
// it stands in `text`, how blocks go in and out in `blocks`.
#![tactic(auto)]

ghost use Rattle.std.specs.Prelude.{◌≡◌, List, ℕ, ◌<◌, ◌^◌, length, OnOk};
ghost use Rattle.std.specs.Io.KnownBytes.{Appends, Consumes};
ghost use Rattle.session.specs.Session.{whole_output};

use blocks::{BLOCK, MOST_BLOCKS, Playing};
use session::Session;
use std::io;
use std::io::{Read, Write};

// The header, and then the lines of the session, block by block. What is printed for the bytes that are read is the output of that
// input, if it has fewer bytes than there may be blocks.
fn run<R: Read, W: Write>(
    input: &mut R,
    output: &mut W,
    block: &mut [u8; BLOCK],
    out: &mut [u8; BLOCK],
) -> io::Result<()>
    ensures { OnOk result ((given : List ℕ) × (printed : List ℕ)
        × Consumes (R.remaining input.old) (R.remaining input.new) given
        × Appends (W.contents output.old) (W.contents output.new) printed
        × (length given < 2 ^ 47 → printed ≡ whole_output given)) }
{
    let n = text::write_header(out);
    output.write_all(&out[..n])?;
    let mut playing = Playing::new(Session::start());
    blocks::run(input, output, &mut playing, block, 0, out, MOST_BLOCKS)
}

fn main(rt: HostRuntime) {
    let mut input = rt.stdin();
    let mut output = rt.stdout();
    let mut block = [0; BLOCK];
    let mut out = [0; BLOCK];
    // A write that fails ends the program: nobody is left to tell, and the exit status is 0.
    let _ = run(&mut input, &mut output, &mut block, &mut out);
}
