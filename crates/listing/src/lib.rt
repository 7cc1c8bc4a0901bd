// The lines of `packets`, the program for whoever reads what the controller sends: bytes in hexadecimal in, packets out.
#![tactic(auto)]

ghost use Rattle.std.specs.Prelude.{◌≡◌, ◌≤◌, length, take};
ghost use Rattle.receiver.specs.declared.Cut.TheVariants.{TooFew};
ghost use Rattle.receiver.specs.Cut.{cut};
ghost use Rattle.listing.specs.Input.{line_of};
ghost use Rattle.listing.specs.Listing.{most_bytes, listing_room, ListsLine};

mod input;
mod rows;

pub use input::LONGEST;
pub use rows::{write_header, write_left};

// The most bytes that can wait: one less than the longest packet has.
pub const MOST_LEFT: usize = 7;

// Room for the bytes of the longest line, and those that wait before it.
pub const MOST_BYTES: usize = MOST_LEFT + input::LONGEST / 2 + 1;

// Room for their rows: the longest that a byte can have, if it is a packet by itself.
pub const LISTING_ROOM: usize = 23 * MOST_BYTES + rows::ROW_ROOM;

// What a line came to: how many bytes wait for more, at the start of `bytes`, and how many were printed.
#[derive(Clone, Copy, Debug, PartialEq, Eq)]
pub struct Listed {
    pub waiting: usize,
    pub count: usize,
}

// One line of input, without its line feed: its bytes come behind those that wait, and each packet that is then whole is printed.
// No struct for `waiting` and `bytes`: any buffer that is long enough may be lent.
pub fn list_line(
    number: u64,
    line: &[u8],
    waiting: usize,
    bytes: &mut [u8],
    out: &mut [u8],
) -> Listed
    requires few { (waiting ≤ length bytes.old) × (cut (take waiting bytes.old) ≡ TooFew) }
    requires room { (most_bytes ≤ length bytes.old) × (listing_room (length bytes.old) ≤ length out.old) }
    ensures lists_line { ListsLine number (line_of line.now) (take waiting bytes.old) result bytes.new out.old out.new }
    ensures fits { result.count ≤ length out.old }
    ensures same { length bytes.new ≡ length bytes.old }
{
    let Some(n) = input::read_bytes(line, &mut bytes[waiting..]) else {
        return Listed {
            waiting,
            count: rows::write_bad(number, out),
        };
    };
    let all = waiting + n;
    let done = rows::list(&bytes[..all], out);
    Listed {
        waiting: session::keep_most(bytes, done.used, all, MOST_LEFT),
        count: done.count,
    }
}
