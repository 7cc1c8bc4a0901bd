// Lists the packets in what the controller sends: bytes in hexadecimal from standard input, a row for each packet on standard output. What
// a line gives and what is printed for it stands in `listing`, how blocks go in and out in `blocks`.
#![tactic(auto)]

ghost use Rattle.std.specs.Prelude.{◌≡◌, ◌+◌, ◌≤◌, length, take};
ghost use Rattle.receiver.specs.declared.Cut.TheVariants.{TooFew};
ghost use Rattle.receiver.specs.Cut.{cut};
ghost use Rattle.listing.specs.Listing.{most_bytes, listing_room};
ghost use Rattle.packets.specs.Lines.{ListsLines};

use blocks::{BLOCK, Lines, MOST_BLOCKS, Part};
use std::io;
use std::io::{Read, Write};

// Room for the rows of the longest line, and some more.
const ROWS: usize = 393_216;

// Between two lines: the number of the next, and how many bytes wait for more, at the start of `bytes`.
#[derive(Drop)]
pub struct Waiting {
    pub number: u64,
    pub waiting: usize,
    pub bytes: [u8; listing::MOST_BYTES],
}

impl Lines for Waiting {
    ghost number = { λ w. w.number };

    // what waits is too few for a packet, and there is room for the rows of any line
    ghost is_ready = { λ w room. (w.waiting ≤ most_bytes) × (cut (take w.waiting w.bytes) ≡ TooFew) × (listing_room most_bytes ≤ room) };

    ghost answers = { ListsLines };

    ghost MOST_KEPT = { 32768 };

    // With one byte more than the longest good line it is bad, whatever follows.
    const MOST_KEPT: usize = listing::LONGEST + 1;

    fn answer(&mut self, text: &[u8], out: &mut [u8]) -> Part {
        let mut part = Part { used: 0, count: 0 };
        // No `for`: it ends when no room is left, and counts no index.
        while listing::LISTING_ROOM <= out.len() - part.count {
            let end = session::line_end(text, part.used);
            if end == text.len() {
                return part;
            }
            let line = &text[part.used..end];
            let room = &mut out[part.count..];
            let done = listing::list_line(self.number, line, self.waiting, &mut self.bytes, room);
            self.number += 1;
            self.waiting = done.waiting;
            part.used = end + 1;
            part.count += done.count;
        }
        part
    }
}

// The header, the rows of all lines, and the row of the bytes that are left.
fn run<R: Read, W: Write>(
    input: &mut R,
    output: &mut W,
    block: &mut [u8; BLOCK],
    out: &mut [u8; ROWS],
) -> io::Result<()> {
    let n = listing::write_header(out);
    output.write_all(&out[..n])?;
    let mut left = Waiting {
        number: 1,
        waiting: 0,
        bytes: [0; listing::MOST_BYTES],
    };
    blocks::run(input, output, &mut left, block, 0, out, MOST_BLOCKS)?;
    let n = listing::write_left(&left.bytes[..left.waiting], out);
    output.write_all(&out[..n])
}

fn main(rt: HostRuntime) {
    let mut input = rt.stdin();
    let mut output = rt.stdout();
    let mut block = [0; BLOCK];
    let mut out = [0; ROWS];
    // A write that fails ends the program: nobody is left to tell, and the exit status is 0.
    let _ = run(&mut input, &mut output, &mut block, &mut out);
}
