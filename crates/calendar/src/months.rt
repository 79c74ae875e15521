// The months of a year, and the one that a day falls into.
ghost use Rattle.std.specs.Prelude.{◌≡◌, ◌<◌, true};
ghost use Rattle.calendar.specs.Counting.{year_length, total, months};
ghost use Rattle.calendar.specs.inner.Places.{place_in_month, in_leap_year};

use crate::passed::Passed;

// The number of each month's first day in a year with a 29 February, 1 January being 0; behind them the year's length.
const FIRST_DAYS: [u32; 13] = [0, 31, 60, 91, 121, 152, 182, 213, 244, 274, 305, 335, 366];

// The number that a day has in a year with a 29 February: one more from 1 March on, where the year has none.
fn in_leap_year(leap: bool, day: u32) -> u32
    requires { day < 366 }
    ensures { result ≡ in_leap_year leap day }
{
    if leap || day < 59 { day } else { day + 1 }
}

// The number of a month's first day in a year with a 29 February, the months counted from 0. One function with that of the years could
// promise no more than a table's entry, and each caller would have to show what day that is.
fn first_day(before: u32) -> u32
    requires { before < 13 }
    ensures { result ≡ total (months true) before }
{
    let first_days = &FIRST_DAYS;
    first_days[before as usize]
}

// The months of a year before the one that a day falls into, and the days of that one. A month has 31 days at most, so a division by 32
// names the month or the one before it.
#[tactic(auto, using(crate::proofs::InMonths::number_below, crate::proofs::InMonths::length_below, crate::proofs::InMonths::next_month, crate::proofs::InMonths::this_month))]
pub(crate) fn in_month(leap: bool, day: u32) -> Passed
    requires { day < year_length leap }
    ensures { result ≡ place_in_month leap day }
{
    let number = in_leap_year(leap, day);
    let before = number / 32;
    let next = first_day(before + 1);
    if next <= number {
        return Passed {
            whole: before + 1,
            days: number - next,
        };
    }
    Passed {
        whole: before,
        days: number - first_day(before),
    }
}
