// The time-of-day clock: year 0 to 99, and down to hundredths of a second. Its fields are plain numbers, not BCD.
#![tactic(auto)]

ghost use Rattle.std.specs.Prelude.{◌≡◌, ◌≤◌};
ghost use Rattle.output.specs.Packets.{bytes_of};
ghost use Rattle.output.specs.Short.{short_of};
ghost use Rattle.clock.specs.Clock.{first_day, month_length, next_day, tick};
ghost use Rattle.clock.specs.Setting.{TwoDigits, to_bcd, field, set_to, report};

use output::Short;

#[derive(Clone, Copy, Debug, PartialEq, Eq)]
pub struct Clock {
    pub year: u8,
    pub month: u8,
    pub day: u8,
    pub hour: u8,
    pub minute: u8,
    pub second: u8,
    pub hundredth: u8,
}

impl Clock {
    // 00-01-01 00:00:00, as the clock stands at power-up.
    pub fn power_up() -> Self
        ensures { result ≡ first_day }
    {
        Clock {
            year: 0,
            month: 1,
            day: 1,
            hour: 0,
            minute: 0,
            second: 0,
            hundredth: 0,
        }
    }

    // A hundredth of a second more.
    #[tactic(auto, unfolding(crate::specs::Clock::tick, crate::specs::Clock::next_second, crate::specs::Clock::next_minute, crate::specs::Clock::next_hour))]
    pub fn tick(mut self) -> Self
        ensures { result ≡ tick self }
    {
        if self.hundredth < 99 {
            self.hundredth += 1;
            return self;
        }
        self.hundredth = 0;
        if self.second < 59 {
            self.second += 1;
            return self;
        }
        self.second = 0;
        if self.minute < 59 {
            self.minute += 1;
            return self;
        }
        self.minute = 0;
        if self.hour < 23 {
            self.hour += 1;
            return self;
        }
        self.hour = 0;
        self.next_day()
    }

    // The next day, at the same time; the year 99 is followed by 0.
    #[tactic(auto, unfolding(crate::specs::Clock::next_day, crate::specs::Clock::next_month, crate::specs::Clock::next_year))]
    fn next_day(mut self) -> Self
        ensures { result ≡ next_day self }
    {
        if self.day < month_length(self.year, self.month) {
            self.day += 1;
            return self;
        }
        self.day = 1;
        if self.month < 12 {
            self.month += 1;
            return self;
        }
        self.month = 1;
        self.year = if self.year < 99 { self.year + 1 } else { 0 };
        self
    }

    // 0x1B with its six bytes. A field whose byte is no number in its range is left, and so the day may lie past the
    // end of the month that was set: it becomes the last.
    #[tactic(auto, unfolding(crate::specs::Setting::set_to))]
    pub fn set_to(mut self, params: [u8; 6]) -> Self
        ensures { result ≡ set_to params self }
    {
        self.year = field(0, 99, self.year, params[0]);
        self.month = field(1, 12, self.month, params[1]);
        let day = field(1, 31, self.day, params[2]);
        self.day = day.min(month_length(self.year, self.month));
        self.hour = field(0, 23, self.hour, params[3]);
        self.minute = field(0, 59, self.minute, params[4]);
        self.second = field(0, 59, self.second, params[5]);
        self.hundredth = 0;
        self
    }

    // What 0x1C sends.
    #[tactic(auto, unfolding(crate::specs::Setting::report))]
    pub fn report(self) -> Short
        requires { TwoDigits self }
        ensures { result ≡ short_of (bytes_of (report self)) }
    {
        Short::of([
            0xFC,
            to_bcd(self.year),
            to_bcd(self.month),
            to_bcd(self.day),
            to_bcd(self.hour),
            to_bcd(self.minute),
            to_bcd(self.second),
        ])
    }
}

// How many days a month has. But for February the odd months have 31 and the even ones 30, and from August on, where
// `month / 8` is 1, the other way round. What is no month has 31, as the definition says.
#[tactic(auto, using(crate::proofs::Months::by_rule, crate::proofs::Months::before_january, crate::proofs::Months::after_december), unfolding(crate::specs::Clock::month_length))]
pub fn month_length(year: u8, month: u8) -> u8
    ensures { result ≡ month_length year month }
{
    match month {
        2 => if year % 4 == 0 { 29 } else { 28 },
        1..=12 => 30 + (month + month / 8) % 2,
        _ => 31,
    }
}

// A field of the clock after its byte of 0x1B.
#[tactic(auto, unfolding(crate::specs::Setting::field))]
fn field(least: u8, most: u8, old: u8, b: u8) -> u8
    ensures { result ≡ field least most old b }
{
    let tens = b / 16;
    let ones = b % 16;
    let n = 10 * tens + ones;
    if tens <= 9 && ones <= 9 && (least..=most).contains(&n) {
        n
    } else {
        old
    }
}

fn to_bcd(n: u8) -> u8
    requires { n ≤ 99 }
    ensures { result ≡ to_bcd n }
{
    16 * (n / 10) + n % 10
}
