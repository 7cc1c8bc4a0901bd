// Mouse motion along an axis, as two sides of which one is 0: its value is `plus` less `minus`.
#![tactic(auto)]

ghost use Rattle.std.specs.Prelude.{◌≡◌, ◌+◌, ◌-◌, ◌≤◌};
ghost use Rattle.motion.specs.Motion.{at_rest, of_signed, sum, opposite, size, reaches, quotient, remainder, packets_needed, coordinate_after};

mod evenly;

#[derive(Clone, Copy, Debug, PartialEq, Eq)]
pub struct Motion {
    pub plus: u16,
    pub minus: u16,
}

// Something for each axis of the mouse: x to the right, y toward the user, or away from the user where an origin at the bottom has negated
// it. A byte each for thresholds, scales and deltas, two bytes for coordinates, and a motion for what is held.
#[derive(Clone, Copy, Debug, PartialEq, Eq)]
pub struct Axes<T> {
    pub x: T,
    pub y: T,
}

pub type Motions = Axes<Motion>;

impl<T> Axes<T> {
    // What `f` makes of each axis, here and in `other`.
    #[inline(always)]
    pub fn zip_with<U, V, F: Fn(T, U) -> V>(self, other: Axes<U>, f: F) -> Axes<V>
        requires x { F.pre f self.x other.x }
        requires y { F.pre f self.y other.y }
        ensures x { F.post f self.x other.x result.x }
        ensures y { F.post f self.y other.y result.y }
    {
        Axes {
            x: f(self.x, other.x),
            y: f(self.y, other.y),
        }
    }
}

// What is kept before each packet: every packet carries `each`, a byte in two's complement, and 1 more whenever the `rest` that the division left has added up to the number of packets; `error` is what has added up.
#[derive(Clone, Copy, Debug, PartialEq, Eq)]
pub struct Spread {
    pub packets: u16,
    pub each: u8,
    pub rest: u16,
    pub error: u16,
}

impl Motion {
    // The one place where a signed number comes in.
    pub fn of_signed(z: i16) -> Self
        ensures did { result ≡ of_signed z }
        ensures far { size result ≤ 32768 }
    {
        if z < 0 {
            return Motion {
                plus: 0,
                minus: z.unsigned_abs(),
            };
        }
        Motion {
            plus: z as u16,
            minus: 0,
        }
    }

    pub fn add(self, d: Motion) -> Self
        requires { (self.plus + d.plus ≤ 65535) × (self.minus + d.minus ≤ 65535) }
        ensures { result ≡ sum self d }
    {
        let p = self.plus + d.plus;
        let m = self.minus + d.minus;
        Motion {
            plus: p.saturating_sub(m),
            minus: m.saturating_sub(p),
        }
    }

    pub fn opposite(self) -> Self
        ensures { result ≡ opposite self }
    {
        Motion {
            plus: self.minus,
            minus: self.plus,
        }
    }

    // How far it is, either way.
    pub fn size(self) -> u32
        ensures { result ≡ size self }
    {
        self.plus as u32 + self.minus as u32
    }

    #[tactic(auto, unfolding(crate::specs::Motion::reaches))]
    pub fn reaches(self, threshold: u8) -> bool
        ensures { result ≡ reaches self threshold }
    {
        threshold as u32 <= self.size()
    }

    // Divided toward zero: each side is.
    #[tactic(auto, unfolding(crate::specs::Motion::quotient))]
    pub fn quotient(self, scale: u8) -> Self
        requires { 1 ≤ scale }
        ensures { result ≡ quotient self scale }
    {
        let s = scale as u16;
        Motion {
            plus: self.plus / s,
            minus: self.minus / s,
        }
    }

    #[tactic(auto, unfolding(crate::specs::Motion::remainder))]
    pub fn remainder(self, scale: u8) -> Self
        requires { 1 ≤ scale }
        ensures { result ≡ remainder self scale }
    {
        let s = scale as u16;
        Motion {
            plus: self.plus % s,
            minus: self.minus % s,
        }
    }

    // A packet takes at most 127 forward and 128 back.
    #[tactic(auto, unfolding(crate::specs::Motion::packets_needed))]
    pub fn packets_needed(self) -> u16
        ensures { result ≡ packets_needed self }
    {
        self.plus.div_ceil(127).max(self.minus.div_ceil(128))
    }

    // A coordinate once this motion has moved it, held to 0 and the maximum. The sum may pass 16 bits.
    #[tactic(auto, unfolding(crate::specs::Motion::coordinate_after))]
    pub fn coordinate_after(self, maximum: u16, place: u16) -> u16
        ensures { result ≡ coordinate_after maximum place self }
    {
        let reached = place as u32 + self.plus as u32;
        reached
            .saturating_sub(self.minus as u32)
            .min(maximum as u32) as u16
    }
}

impl Motions {
    pub fn at_rest() -> Self
        ensures { result ≡ at_rest }
    {
        Axes {
            x: Motion { plus: 0, minus: 0 },
            y: Motion { plus: 0, minus: 0 },
        }
    }
}
