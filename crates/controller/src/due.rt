// What falls due, before it is written: so what does not fit can be refused with nothing written.
ghost use Rattle.std.specs.Prelude.{ℕ, List, ◌≡◌, ◌++◌, ◌≤◌, ◌<◌, ◌^◌, length};
ghost use Rattle.output.specs.Packets.{bytes};
ghost use Rattle.output.specs.Short.{short_bytes, IsShort};
ghost use Rattle.output.specs.Writing.{Wrote};
ghost use Rattle.mouse.specs.Sending.{packets_sent};
ghost use Rattle.keys.specs.Keys.{IsKeys, break_packets};

use keys::Keys;
use mouse::Sending;
use output::Short;

// Bytes whose number is known before they are written.
pub(crate) trait Due {
    ghost bytes_due: { Self → List ℕ };

    ghost is_due: { Self → Type 0 };

    fn count(&self) -> usize
        requires due { is_due self.now }
        requires counted { length (bytes_due self.now) < 2 ^ 64 }
        ensures { result ≡ length (bytes_due self.now) };

    fn put(&self, out: &mut [u8]) -> usize
        requires due { is_due self.now }
        requires room { length (bytes_due self.now) ≤ length out.old }
        ensures { Wrote (bytes_due self.now) result out.old out.new };
}

impl Due for Short {
    ghost bytes_due = { λ r. short_bytes r };

    ghost is_due = { λ r. IsShort r };

    fn count(&self) -> usize {
        self.len
    }

    fn put(&self, out: &mut [u8]) -> usize {
        self.write(out)
    }
}

// Held motion that is sent.
impl Due for Sending {
    ghost bytes_due = { λ d. bytes (packets_sent d) };

    ghost is_due = { λ d. Unit {0} };

    fn count(&self) -> usize {
        self.len()
    }

    fn put(&self, out: &mut [u8]) -> usize {
        self.write(out)
    }
}

// The break code of each key that is down.
impl Due for Keys {
    ghost bytes_due = { λ m. bytes (break_packets m) };

    ghost is_due = { λ m. IsKeys m };

    fn count(&self) -> usize {
        Keys::count(*self) as usize
    }

    fn put(&self, out: &mut [u8]) -> usize {
        self.write_breaks(out)
    }
}

// One after the other: the second goes into the rest of the buffer.
#[derive(Clone, Copy)]
pub(crate) struct Then<A, B>(pub(crate) A, pub(crate) B);

impl<A: Due, B: Due> Due for Then<A, B> {
    ghost bytes_due = { λ p. A.bytes_due p.0 ++ B.bytes_due p.1 };

    ghost is_due = { λ p. A.is_due p.0 × B.is_due p.1 };

    fn count(&self) -> usize {
        self.0.count() + self.1.count()
    }

    fn put(&self, out: &mut [u8]) -> usize {
        let n = self.0.put(out);
        n + self.1.put(&mut out[n..])
    }
}
