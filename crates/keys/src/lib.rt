// Which keys are down: a bit for each of the keys 1 to 0x72, in two words.
#![tactic(auto)]

ghost use Rattle.std.specs.Prelude.{◌≡◌, ◌+◌, ◌-◌, ◌≤◌, ◌<◌, ◌^◌, length};
ghost use Rattle.output.specs.ScanCodes.{first_key, last_key};
ghost use Rattle.output.specs.Packets.{bytes};
ghost use Rattle.output.specs.Writing.{Wrote};
ghost use Rattle.keys.specs.Words.{put, keys_in};
ghost use Rattle.keys.specs.Keys.{no_keys, struck, held, breaks, break_packets, IsKeys};

use output::ScanCode;

// The lowest bit of `low` is key 1, the lowest of `high` the key after the last of `low`.
#[derive(Clone, Copy, Debug, PartialEq, Eq)]
pub struct Keys {
    pub low: u64,
    pub high: u64,
}

// How many keys have their bit in the low word.
const LOW_KEYS: u8 = 64;

// A word with one of its bits set or cleared.
#[tactic(auto, using(crate::proofs::Words::power_is, crate::proofs::Words::or_put))]
fn put(word: u64, bit: u32, on: bool) -> u64
    requires { bit < 64 }
    ensures { result ≡ put bit on word }
{
    let mask = 1 << bit;
    if on { word | mask } else { word & !mask }
}

// The break codes of the keys in a word, lowest first; its lowest bit is the key `first`.
fn write_word(word: u64, first: u8, out: &mut [u8]) -> usize
    requires first_le_last_key { (first ≤ last_key) × (word < 2 ^ (last_key + 1 - first)) }
    requires word_in_bounds { length (keys_in 64 first word) ≤ length out.old }
    ensures { Wrote (bytes (breaks (keys_in 64 first word))) result out.old out.new }
{
    let mut rest = word;
    let mut at = 0;
    // No `for`: the trailing zeros say where the next key is.
    while rest != 0 {
        let lowest = rest.trailing_zeros();
        out[at] = output::code_sent(first + lowest as u8, false);
        rest = put(rest, lowest, false);
        at += 1;
    }
    at
}

impl Keys {
    pub fn none() -> Self
        ensures { result ≡ no_keys }
    {
        Keys { low: 0, high: 0 }
    }

    // After a press or a release of a key.
    #[tactic(auto, unfolding(crate::specs::Keys::struck))]
    pub fn struck(self, code: u8, down: bool) -> Self
        requires { (first_key ≤ code) × (code ≤ last_key) }
        ensures { result ≡ struck code down self }
    {
        if code <= LOW_KEYS {
            return Keys {
                low: put(self.low, (code - 1) as u32, down),
                ..self
            };
        }
        Keys {
            high: put(self.high, (code - LOW_KEYS - 1) as u32, down),
            ..self
        }
    }

    // How many keys are down: the ones in both words.
    #[tactic(auto, using(crate::proofs::Maps::held_is))]
    pub fn count(self) -> u8
        requires { IsKeys self }
        ensures { result ≡ held self }
    {
        (self.low.count_ones() + self.high.count_ones()) as u8
    }

    // The break code of each key that is down, lowest first.
    #[tactic(auto, using(crate::proofs::Writing::low_room, crate::proofs::Writing::rest_room))]
    pub fn write_breaks(self, out: &mut [u8]) -> usize
        requires keys { IsKeys self }
        requires self_in_bounds { held self ≤ length out.old }
        ensures { Wrote (bytes (break_packets self)) result out.old out.new }
    {
        let low = write_word(self.low, ScanCode::FIRST_KEY, out);
        let high = write_word(self.high, LOW_KEYS + 1, &mut out[low..]);
        low + high
    }
}
