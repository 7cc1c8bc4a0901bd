// An axis total spread over packets as evenly as can be, by addition: the only division is at the start.
ghost use Rattle.std.specs.Prelude.{◌≡◌, ◌≤◌};
ghost use Rattle.motion.specs.Spread.{spread_at, IsSpread, next_byte, further};

use crate::{Motion, Spread};

impl Motion {
    // Before the first of n packets. 65,536 for each packet makes the total natural, and no byte sees it.
    pub fn spread(self, n: u16) -> Spread
        requires { 1 ≤ n }
        ensures { result ≡ spread_at n 0 self }
    {
        let total = self.plus as u32 + 65536 * n as u32 - self.minus as u32;
        let each = total / n as u32 % 256;
        let rest = total % n as u32;
        Spread {
            packets: n,
            each: each as u8,
            rest: rest as u16,
            error: 0,
        }
    }
}

// Two methods and no `Iterator`: `SaysPart` and `MovesOn` each speak of one of them, and there is always a next.
impl Spread {
    // X or Y of the next packet.
    pub fn byte(self) -> u8
        ensures { result ≡ next_byte self }
    {
        if (self.error as u32 + self.rest as u32) < (self.packets as u32) {
            return self.each;
        }
        self.each.wrapping_add(1)
    }

    // Before the packet after that.
    pub fn next(self) -> Self
        requires { IsSpread self }
        ensures { result ≡ further self }
    {
        let sum = self.error as u32 + self.rest as u32;
        let most = self.packets as u32;
        if sum < most {
            return Spread {
                error: sum as u16,
                ..self
            };
        }
        Spread {
            error: (sum - most) as u16,
            ..self
        }
    }
}
