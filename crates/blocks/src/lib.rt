// Input in blocks, for programs that answer lines: a block is read, the lines that end in it are answered, what is printed for them is
// written, and what has begun of a line is kept for the next block. What lines mean is the program's own `Lines`.
#![tactic(auto)]

ghost use Rattle.std.specs.Prelude.{◌≡◌, ℕ, List, ◌+◌, ◌*◌, ◌≤◌, ◌<◌, ◌^◌, length, take, drop, IfOk, OnOk};
ghost use Rattle.std.specs.Io.KnownBytes.{Appends, Consumes};
ghost use Rattle.blocks.specs.Blocks.{Answered, Ran};

use std::io;
use std::io::{Read, Write};

mod playing;

pub use playing::Playing;

// How many bytes a block has.
pub const BLOCK: usize = 65_536;

// How many blocks are read at most: more than any input has, and few enough that a line's number has 64 bits.
pub const MOST_BLOCKS: u64 = 140_737_488_355_328;

// What a text came to: how many of its bytes were lines that are answered, and how many bytes are to be printed for them.
#[derive(Clone, Copy, Debug, PartialEq, Eq)]
pub struct Part {
    pub used: usize,
    pub count: usize,
}

// What a program does with lines.
pub trait Lines {
    // A number that grows by one for each line at most.
    ghost number: { Self → ℕ };

    // What holds between two lines, with a buffer of this many bytes for what is printed.
    ghost is_ready: { Self → ℕ → Type 0 };

    // What is printed for a text, and what follows: before, the text, how many of its bytes are lines that are answered, what is printed
    // for them, and afterwards.
    ghost answers: { Self → List ℕ → ℕ → List ℕ → Self → Type 0 };

    ghost MOST_KEPT: { ℕ };

    // How much is kept at most of a line that lies across two blocks.
    const MOST_KEPT: usize;

    // The first lines that end in a text, and what is printed for them at the start of `out`: one at least where one ends there, and as
    // many more as the program likes. None is taken where no line ends in the text.
    fn answer(&mut self, text: &[u8], out: &mut [u8]) -> Part
        requires ready { is_ready self.old (length out.old) }
        requires numbered { number self.old + length text.now < 2 ^ 64 }
        ensures within { (result.used ≤ length text.now) × (result.count ≤ length out.old) }
        ensures ready { is_ready self.new (length out.old) }
        ensures numbered { number self.new ≤ number self.old + result.used }
        ensures answers { answers self.old text.now result.used (take result.count out.new) self.new };
}

// More input, behind what was kept of a block: how many bytes the block has then. A read that fails ends the input.
pub fn read_on<R: Read>(input: &mut R, kept: usize, block: &mut [u8; BLOCK]) -> usize
    requires { kept ≤ 65536 }
    ensures within { (kept ≤ result) × (result ≤ 65536) }
    ensures keeps { take kept block.new ≡ take kept block.old }
    ensures bytes { Consumes (R.remaining input.old) (R.remaining input.new) (drop kept (take result block.new)) }
{
    match input.read(&mut block[kept..]) {
        Ok(got) => kept + got,
        Err(_) => kept,
    }
}

// The lines that end in a block: how many of its bytes they are. What is printed is written part by part, and a write that fails is the
// end of it.
pub fn answer<W: Write, L: Lines>(
    lines: &mut L,
    block: &[u8],
    out: &mut [u8],
    output: &mut W,
) -> io::Result<usize>
    requires ready { L.is_ready lines.old (length out.old) }
    requires numbered { L.number lines.old + length block.now < 2 ^ 64 }
    ensures within { IfOk result (λ used. used ≤ length block.now) }
    ensures ready { L.is_ready lines.new (length out.old) }
    ensures numbered { IfOk result (λ used. L.number lines.new ≤ L.number lines.old + used) }
    ensures numbered_on { L.number lines.new ≤ L.number lines.old + length block.now }
    ensures answered { IfOk result (λ used. (printed : List ℕ) × Answered L.answers lines.old block.now used printed lines.new
        × Appends (W.contents output.old) (W.contents output.new) printed) }
{
    let mut from = 0;
    // No `for`: each part says where the next begins.
    while from < block.len() {
        let part = lines.answer(&block[from..], out);
        if part.used == 0 {
            return Ok(from);
        }
        output.write_all(&out[..part.count])?;
        from += part.used;
    }
    Ok(from)
}

// The lines of an input, block by block. The first `kept` bytes of the block stand before the input; at most so many blocks are read.
pub fn run<R: Read, W: Write, L: Lines>(
    input: &mut R,
    output: &mut W,
    lines: &mut L,
    block: &mut [u8; BLOCK],
    kept: usize,
    out: &mut [u8],
    most_blocks: u64,
) -> io::Result<()>
    requires ready { L.is_ready lines.old (length out.old) }
    requires numbered { L.number lines.old + most_blocks * 65536 < 2 ^ 64 }
    requires room { (kept ≤ L.MOST_KEPT) × (L.MOST_KEPT < 65536) }
    ensures ready { L.is_ready lines.new (length out.old) }
    ensures ran { OnOk result ((given : List ℕ) × (printed : List ℕ)
        × Ran L.answers L.MOST_KEPT most_blocks lines.old (take kept block.old) given printed lines.new
        × Consumes (R.remaining input.old) (R.remaining input.new) given
        × Appends (W.contents output.old) (W.contents output.new) printed) }
{
    let mut kept = kept;
    for _block in 0..most_blocks {
        let n = read_on(input, kept, block);
        if n == kept {
            let end = session::finish(block, kept);
            answer(lines, &block[..end], out, output)?;
            return Ok(());
        }
        let used = answer(lines, &block[..n], out, output)?;
        kept = session::keep_most(block, used, n, L::MOST_KEPT);
    }
    Ok(())
}
