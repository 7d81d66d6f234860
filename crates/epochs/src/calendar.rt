// The proleptic Gregorian calendar of the years 0 to 9999.
ghost use Rattle.std.specs.Prelude.{◌≡◌, true, cond, ◌≤◌, ◌<◌};
ghost use Rattle.epochs.specs.Calendar.{leap, month_days, days_before_month, days_before_year, is_date, days_before, date_of};
ghost use Rattle.epochs.specs.Bounds.{InYear, InMonth, DateFits};

// A date: the year, the month from 1 to 12, the day of the month from 1.
#[derive(Clone, Copy, Debug, PartialEq, Eq)]
pub struct Date {
    pub year: u64,
    pub month: u64,
    pub day: u64,
}

// A year and a day of it, from 0.
#[derive(Clone, Copy, Debug, PartialEq, Eq)]
pub struct YearDay {
    pub year: u64,
    pub day: u64,
}

// A year that 4 divides is a leap year, but of those that 100 divides only one that 400 divides.
fn is_leap(y: u64) -> bool
    ensures { result ≡ leap y }
{
    y % 4 == 0 && (y % 100 != 0 || y % 400 == 0)
}

// The days of the years before y. The quotients are how many of them 4, 400 and 100 divide, year 0 among them.
fn before_year(y: u64) -> u64
    requires { y ≤ 10000 }
    ensures { result ≡ days_before_year y }
{
    365 * y + (y + 3) / 4 + (y + 399) / 400 - (y + 99) / 100
}

// The year of a day of the 3,652,425 of the years 0 to 9999, and which day of it: by the mean length of a year it is the one found, or the
// one before.
fn year_of(n: u64) -> YearDay
    requires { n < 3652425 }
    ensures { InYear n result.year result.day }
{
    let found = (400 * n + 400) / 146097;
    let before = before_year(found);
    if n < before {
        let year = found - 1;
        return YearDay {
            year,
            day: n - before_year(year),
        };
    }
    YearDay {
        year: found,
        day: n - before,
    }
}

// The days by which February is shorter than 30. By a choice: 2 - u64::from(l) would not say which year has which.
fn short(l: bool) -> u64
    ensures { (result ≡ cond l 1 2) × (1 ≤ result) × (result ≤ 2) }
{
    if l { 1 } else { 2 }
}

// The days of a month; a number that is no month has none. With an arm of its own for February the way back from a date takes a fifth longer.
fn month_days(l: bool, m: u64) -> u64
    ensures { result ≡ month_days l m }
{
    match m {
        1..=12 => {
            if m == 2 {
                30 - short(l)
            } else {
                30 + (m + m / 8) % 2
            }
        }
        _ => 0,
    }
}

// The days of the months before a month: as if February had 30 days, less what it is short of them.
fn before_month(l: bool, m: u64) -> u64
    requires { (1 ≤ m) × (m ≤ 12) }
    ensures { result ≡ days_before_month l m }
{
    let b = (367 * m - 362) / 12;
    if m <= 2 { b } else { b - short(l) }
}

// The month of a day of the year, counted from 0. Behind February what it is short of 30 days is put in.
fn month_of(l: bool, d: u64) -> u64
    requires { d < cond l 366 365 }
    ensures { InMonth l d result }
{
    let s = short(l);
    if d < 61 - s {
        (12 * d + 373) / 367
    } else {
        (12 * (d + s) + 373) / 367
    }
}

// The date of a day, day 0 being 1 January of year 0.
pub fn date_of(n: u64) -> Date
    requires { n < 3652425 }
    ensures { (result ≡ date_of n) × DateFits result }
{
    let p = year_of(n);
    let l = is_leap(p.year);
    let m = month_of(l, p.day);
    let b = before_month(l, m);
    Date {
        year: p.year,
        month: m,
        day: p.day - b + 1,
    }
}

// A date exists: its month has that day.
pub fn is_date(d: Date) -> bool
    ensures { result ≡ is_date d }
{
    (1 <= d.day) & (d.day <= month_days(is_leap(d.year), d.month))
}

// The days before a date.
pub fn days_before(d: Date) -> u64
    requires { (d.year ≤ 9999) × (is_date d ≡ true) }
    ensures { (result ≡ days_before d) × (result < 3652425) }
{
    before_year(d.year) + before_month(is_leap(d.year), d.month) + (d.day - 1)
}
