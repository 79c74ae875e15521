// What a five-byte time stands for: its date, its weekday and its time of day.
#![tactic(auto)]

ghost use Rattle.std.specs.Prelude.{◌≡◌, ◌+◌, ◌*◌};
ghost use Rattle.calendar.specs.Moments.{moment_at};

mod months;
mod passed;
mod years;

use months::in_month;
use years::{has_29_february, in_year};

// The hundredths of a second in a day.
const DAY: u64 = 8640000;

// A moment to the hundredth of a second. Months, and the days of a month and of a year, are counted from 1; weekdays from Monday, which
// is 0.
#[derive(Clone, Copy)]
pub struct Moment {
    pub hundredth: u32,
    pub second: u32,
    pub minute: u32,
    pub hour: u32,
    pub weekday: u32,
    pub yearday: u32,
    pub day: u32,
    pub month: u32,
    pub year: u32,
}

// The moment of a time in hundredths of a second since 1900 began: its low four bytes as one number, and its fifth.
pub fn moment_of(low: u32, high: u8) -> Moment
    ensures { result ≡ moment_at (low + 4294967296 * high) }
{
    let time = u64::from(low) + 4294967296 * u64::from(high);
    let day = (time / DAY) as u32;
    let within = (time % DAY) as u32;
    let years = in_year(day);
    let year = 1900 + years.whole;
    let months = in_month(has_29_february(year), years.days);
    Moment {
        hundredth: within % 100,
        second: within / 100 % 60,
        minute: within / 6000 % 60,
        hour: within / 360000,
        weekday: day % 7,
        yearday: years.days + 1,
        day: months.days + 1,
        month: months.whole + 1,
        year,
    }
}
