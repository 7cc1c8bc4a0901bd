// Lines of output: a row for each packet.
ghost use Rattle.std.specs.Prelude.{◌≡◌, ◌+◌, ◌*◌, ◌≤◌, ◌<◌, length, take};
ghost use Rattle.output.specs.Writing.{Wrote};
ghost use Rattle.listing.specs.Rows.{header, behind_name, row, name_of, packet_row, bad_row, left_row, row_room, left_room};
ghost use Rattle.listing.specs.Listing.{Lists, ListsFirst};

use receiver::{Cut, Kind};

// What bytes came to: how many of them are in the rows, and how many bytes the rows have.
#[derive(Clone, Copy, Debug, PartialEq, Eq)]
pub struct Rows {
    pub used: usize,
    pub count: usize,
}

// The most bytes of a row for a packet.
pub(crate) const ROW_ROOM: usize = 40;

// The first line of the output. `text` has a header of its own: one call each, with another constant.
pub fn write_header(out: &mut [u8]) -> usize
    requires { length header ≤ length out.old }
    ensures { Wrote header result out.old out.new }
{
    output::copy(b"packet\tbytes\n", out)
}

// What the rows of a kind are called, in 19 letters at most. Each name is copied by a call of its own: a copy whose bytes are known is a
// store or two, and a list of short packets is mostly names.
fn write_name(kind: Kind, out: &mut [u8]) -> usize
    requires { 19 ≤ length out.old }
    ensures { Wrote (name_of kind) result out.old out.new }
{
    match kind {
        Kind::Make => output::copy(b"make", out),
        Kind::Break => output::copy(b"break", out),
        Kind::VersionOrBreak => output::copy(b"version or break 70", out),
        Kind::Status => output::copy(b"status", out),
        Kind::MousePosition => output::copy(b"mouse position", out),
        Kind::MouseMotion => output::copy(b"mouse motion", out),
        Kind::Time => output::copy(b"time", out),
        Kind::BothSticks => output::copy(b"both sticks", out),
        Kind::StickEvent => output::copy(b"stick event", out),
    }
}

// What stands behind the name in a row: a tab, the bytes, and the line feed.
fn write_bytes(bytes: &[u8], out: &mut [u8]) -> usize
    requires { 2 * length bytes.now + 3 ≤ length out.old }
    ensures { Wrote (behind_name bytes.now) result out.old out.new }
{
    out[0] = b'\t';
    let at = 1 + text::write_shown(bytes, &mut out[1..]);
    out[at] = b'\n';
    at + 1
}

// A row: a name, and what stands behind it.
fn write_row(name: &[u8], bytes: &[u8], out: &mut [u8]) -> usize
    requires { length name.now + 2 * length bytes.now + 3 ≤ length out.old }
    ensures { Wrote (row name.now bytes.now) result out.old out.new }
{
    let n = output::copy(name, out);
    n + write_bytes(bytes, &mut out[n..])
}

// The row of a packet.
fn write_packet(kind: Kind, bytes: &[u8], out: &mut [u8]) -> usize
    requires { (length bytes.now ≤ 8) × (row_room ≤ length out.old) }
    ensures { Wrote (packet_row kind bytes.now) result out.old out.new }
{
    let n = write_name(kind, out);
    n + write_bytes(bytes, &mut out[n..])
}

// The row of the first packet, or of a byte that starts none; no row where there are too few bytes.
fn write_first(bytes: &[u8], out: &mut [u8]) -> Rows
    requires { row_room ≤ length out.old }
    ensures { ListsFirst bytes.now result out.old out.new }
{
    match receiver::first_packet(bytes) {
        Cut::Whole { kind, length } => {
            let n = write_packet(kind, &bytes[..length], out);
            Rows {
                used: length,
                count: n,
            }
        }
        Cut::TooFew => Rows { used: 0, count: 0 },
        Cut::NoPacket => {
            let n = write_row(b"no packet", &bytes[..1], out);
            Rows { used: 1, count: n }
        }
    }
}

// The rows of bytes, one after the other, until they are too few for a packet or there is no room for a row. No `for`: no index is
// counted, and each packet says how far the next is.
pub(crate) fn list(bytes: &[u8], out: &mut [u8]) -> Rows
    ensures { Lists bytes.now result out.old out.new }
{
    let mut from = 0;
    let mut at = 0;
    while ROW_ROOM <= out.len() - at {
        let first = write_first(&bytes[from..], &mut out[at..]);
        if first.used == 0 {
            return Rows {
                used: from,
                count: at,
            };
        }
        from += first.used;
        at += first.count;
    }
    Rows {
        used: from,
        count: at,
    }
}

// The row of a bad line.
#[tactic(auto, using(output::proofs::Writing::both, output::proofs::Writing::kept, text::proofs::Counting::decimal_most))]
pub(crate) fn write_bad(number: u64, out: &mut [u8]) -> usize
    requires { row_room ≤ length out.old }
    ensures { Wrote (bad_row number) result out.old out.new }
{
    let mut at = output::copy(b"bad line ", out);
    at += text::write_decimal(number, &mut out[at..]);
    at += output::put3(b'\t', b'-', b'\n', &mut out[at..]);
    at
}

// At the end of the input: the row of the bytes that are left, if there are any.
pub fn write_left(bytes: &[u8], out: &mut [u8]) -> usize
    requires { left_room (length bytes.now) ≤ length out.old }
    ensures { Wrote (left_row bytes.now) result out.old out.new }
{
    if bytes.is_empty() {
        return 0;
    }
    write_row(b"too few", bytes, out)
}
