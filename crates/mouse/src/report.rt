// The report of absolute mode, in two: the bytes that it shows, and the clearing of the latches.
ghost use Rattle.std.specs.Prelude.{◌≡◌};
ghost use Rattle.output.specs.Packets.{bytes_of};
ghost use Rattle.output.specs.Short.{short_of};
ghost use Rattle.mouse.specs.Reports.{latch_byte, report, cleared};

use crate::{Latches, Mouse};
use output::Short;

impl Mouse {
    // Latches and coordinates, high bytes first. Nothing is cleared by it.
    #[tactic(auto, unfolding(crate::specs::Reports::report))]
    pub fn report(self) -> Short
        ensures { result ≡ short_of (bytes_of (report self)) }
    {
        let [xh, xl] = self.place.x.to_be_bytes();
        let [yh, yl] = self.place.y.to_be_bytes();
        Short::of([0xF7, self.latches.byte(), xh, xl, yh, yl])
    }

    // No latch is set any more, and nothing else changes.
    pub fn cleared(mut self) -> Self
        ensures { result ≡ cleared self }
    {
        self.latches = Latches::none();
        self
    }
}

impl Latches {
    // 1 right down, 2 right up, 4 left down, 8 left up.
    pub fn byte(self) -> u8
        ensures { result ≡ latch_byte self }
    {
        u8::from(self.rightdown)
            + 2 * u8::from(self.rightup)
            + 4 * u8::from(self.leftdown)
            + 8 * u8::from(self.leftup)
    }
}
