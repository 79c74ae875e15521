// The fields of a format, and what each shows of a moment.
ghost use Rattle.std.specs.Prelude.{◌≡◌, ◌≤◌, ◌-◌};
ghost use Rattle.dates.specs.Fields.{two, three, lettered, month_names, weekday_names, shown};
ghost use Rattle.dates.specs.inner.Steps.{glyphs, number};

use calendar::Moment;
use forms::forms::Base;

#[derive(Clone, Copy)]
pub enum Field {
    Hundredths,
    Seconds,
    Minutes,
    Hours,
    Day,
    Month,
    MonthName,
    Century,
    Year,
    DayOfYear,
    WeekdayName,
}

// What a field shows: two characters, or three.
#[derive(Clone, Copy)]
pub(crate) enum Glyphs {
    Two([u8; 2]),
    Three([u8; 3]),
}

// Of the last two digits as one number, so that only that division is of a large number.
#[tactic(auto, unfolding(forms::specs::Digits::digits))]
fn two_digits(n: u32) -> Glyphs
    ensures { glyphs result ≡ two n }
{
    let last = n % 100;
    Glyphs::Two([Base::Ten.last_glyph(last / 10), Base::Ten.last_glyph(last)])
}

// Not one function with the other: that takes two digits off a large number in one step, which an odd count of them doesn't allow.
#[tactic(auto, unfolding(forms::specs::Digits::digits))]
fn three_digits(n: u32) -> Glyphs
    ensures { glyphs result ≡ three n }
{
    Glyphs::Three([
        Base::Ten.last_glyph(n / 100),
        Base::Ten.last_glyph(n / 10),
        Base::Ten.last_glyph(n),
    ])
}

// The names are arms, each of which is proved by itself; the compiler makes a table of them that is only read, where a string would be written
// onto the stack for each use. Of a table in the code an entry would be a fact about all twelve.
fn month_name(month: u32) -> Glyphs
    requires { 1 ≤ month }
    ensures { glyphs result ≡ lettered month_names (month - 1) }
{
    match month {
        1 => Glyphs::Three(*b"Jan"),
        2 => Glyphs::Three(*b"Feb"),
        3 => Glyphs::Three(*b"Mar"),
        4 => Glyphs::Three(*b"Apr"),
        5 => Glyphs::Three(*b"May"),
        6 => Glyphs::Three(*b"Jun"),
        7 => Glyphs::Three(*b"Jul"),
        8 => Glyphs::Three(*b"Aug"),
        9 => Glyphs::Three(*b"Sep"),
        10 => Glyphs::Three(*b"Oct"),
        11 => Glyphs::Three(*b"Nov"),
        12 => Glyphs::Three(*b"Dec"),
        _ => Glyphs::Three([0; 3]),
    }
}

fn weekday_name(weekday: u32) -> Glyphs
    ensures { glyphs result ≡ lettered weekday_names weekday }
{
    match weekday {
        0 => Glyphs::Three(*b"Mon"),
        1 => Glyphs::Three(*b"Tue"),
        2 => Glyphs::Three(*b"Wed"),
        3 => Glyphs::Three(*b"Thu"),
        4 => Glyphs::Three(*b"Fri"),
        5 => Glyphs::Three(*b"Sat"),
        6 => Glyphs::Three(*b"Sun"),
        _ => Glyphs::Three([0; 3]),
    }
}

impl Field {
    // The number that it shows, or that its name has among the months or the weekdays.
    #[tactic(auto, unfolding(crate::specs::inner::Steps::number))]
    fn number(self, moment: Moment) -> u32
        ensures { result ≡ number self moment }
    {
        match self {
            Field::Hundredths => moment.hundredth,
            Field::Seconds => moment.second,
            Field::Minutes => moment.minute,
            Field::Hours => moment.hour,
            Field::Day => moment.day,
            Field::Month => moment.month,
            Field::MonthName => moment.month,
            Field::Century => moment.year / 100,
            Field::Year => moment.year % 100,
            Field::DayOfYear => moment.yearday,
            Field::WeekdayName => moment.weekday,
        }
    }

    // What it shows of a moment. Its number is chosen before any digit is made: of digits made in the arms, the compiler makes those of
    // every field, each time that a format is gone through.
    #[tactic(auto, unfolding(crate::specs::inner::Steps::number, crate::specs::Fields::shown))]
    pub(crate) fn shown(self, moment: Moment) -> Glyphs
        requires { 1 ≤ moment.month }
        ensures { glyphs result ≡ shown self moment }
    {
        let n = self.number(moment);
        match self {
            Field::MonthName => month_name(n),
            Field::WeekdayName => weekday_name(n),
            Field::DayOfYear => three_digits(n),
            Field::Hundredths
            | Field::Seconds
            | Field::Minutes
            | Field::Hours
            | Field::Day
            | Field::Month
            | Field::Century
            | Field::Year => two_digits(n),
        }
    }
}
