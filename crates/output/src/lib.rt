// What goes out: short runs of bytes, and writing into a lent buffer. Packets and their bytes are defined in specs/.
#![tactic(auto)]

ghost use Rattle.std.specs.Prelude.{◌≡◌, ◌∷◌, [], ◌+◌, ◌*◌, ◌≤◌, ◌<◌, length};
ghost use Rattle.output.specs.ScanCodes.{break_of, code_sent};
ghost use Rattle.output.specs.Packets.{bytes, pairs};
ghost use Rattle.output.specs.Short.{run_of, run_bytes, added};
ghost use Rattle.output.specs.Writing.{Wrote};

// Make codes by name, as specs/ScanCodes.antt has them: the first and the last key of the keyboard, the arrows that stand for motion, and
// the mouse's buttons and the sticks' triggers as keys.
#[derive(Clone, Copy, Debug, PartialEq, Eq)]
pub struct ScanCode;

impl ScanCode {
    pub const FIRST_KEY: u8 = 1;

    pub const LAST_KEY: u8 = 0x72;

    pub const ARROW_RIGHT: u8 = 0x4D;

    pub const ARROW_LEFT: u8 = 0x4B;

    pub const ARROW_UP: u8 = 0x48;

    pub const ARROW_DOWN: u8 = 0x50;

    pub const KEY_LEFT: u8 = 0x74;

    pub const KEY_RIGHT: u8 = 0x75;
}

// Bytes with room for `N`: the first `len` of `bytes`. What stands past them is not sent.
#[derive(Clone, Copy, Debug, PartialEq, Eq)]
pub struct Run<const N: usize> {
    pub bytes: [u8; N],
    pub len: usize,
}

// Up to eight bytes that go out together: every packet but those of held motion is one.
pub type Short = Run<8>;

impl<const N: usize> Run<N> {
    // These bytes, and zeros past them.
    pub fn of<const M: usize>(some: [u8; M]) -> Self
        requires { M ≤ N }
        ensures { result ≡ run_of N some.entry }
    {
        let mut bytes = [0; N];
        for (i, b) in some.iter().enumerate() {
            bytes[i] = *b;
        }
        Run { bytes, len: M }
    }

    // One byte more at the end.
    pub fn add(mut self, b: u8) -> Self
        requires { self.len < N }
        ensures { result ≡ added b self.entry }
    {
        self.bytes[self.len] = b;
        self.len += 1;
        self
    }

    // The make and the break code of a key more.
    pub fn add_pair(self, make: u8) -> Self
        requires { (self.len + 2 ≤ N) × (make ≤ 0x7F) }
        ensures { result ≡ added (break_of make) (added make self.entry) }
    {
        self.add(make).add(make + 0x80)
    }

    // A key's run has one byte, which is stored by itself: to call `copy` for it cost each key some thirty instructions more.
    pub fn write(self, out: &mut [u8]) -> usize
        requires { (self.len ≤ N) × (self.len ≤ length out.old) }
        ensures { Wrote (run_bytes self.entry) result out.old out.new }
    {
        if self.len == 1 {
            out[0] = self.bytes[0];
            return 1;
        }
        copy(&self.bytes[..self.len], out)
    }
}

// All of these bytes.
pub fn copy(bytes: &[u8], out: &mut [u8]) -> usize
    requires { length bytes.now ≤ length out.old }
    ensures { Wrote bytes.now result out.old out.new }
{
    for (i, b) in bytes.iter().enumerate() {
        out[i] = *b;
    }
    bytes.len()
}

// Three bytes, as a packet of mouse motion has.
pub fn put3(a: u8, b: u8, c: u8, out: &mut [u8]) -> usize
    requires { 3 ≤ length out.old }
    ensures { Wrote (a ∷ b ∷ c ∷ []) result out.old out.new }
{
    out[0] = a;
    out[1] = b;
    out[2] = c;
    3
}

// `n` times the make and the break code of a key.
pub fn write_pairs(n: u16, make: u8, out: &mut [u8]) -> usize
    requires { (2 * n ≤ length out.old) × (make ≤ 0x7F) }
    ensures { Wrote (bytes (pairs n make)) result out.old out.new }
{
    let stop = make + 0x80;
    let mut at = 0;
    for _ in 0..n {
        out[at] = make;
        out[at + 1] = stop;
        at += 2;
    }
    at
}

// What a key sends: its make code when down, its break code when up.
pub fn code_sent(make: u8, down: bool) -> u8
    requires { make ≤ 0x7F }
    ensures { result ≡ code_sent make down }
{
    if down { make } else { make + 0x80 }
}
