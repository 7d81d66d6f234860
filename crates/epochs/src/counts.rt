// Epochs as counts of milliseconds from the beginning of year 0.
ghost use Rattle.std.specs.Prelude.{◌≡◌};
ghost use Rattle.epochs.specs.Epochs.{count_of, is_epoch, is_moment, count_moment, count_from};

use crate::calendar::{self, Date};
use format::asked;

// The count of a double, a whole number of milliseconds of the years 0 to 9999. That a double is at most the last epoch is false of a NaN.
// Below 1 there is 0 alone, whose bits are all clear. From 2^52 to 2^53 doubles are whole numbers, so a fraction is lost where 2^52 is added.
pub fn count_of(x: f64) -> Option<u64>
    ensures { result ≡ count_of x }
{
    if !(x <= 315569519999999.0) {
        return None;
    }
    if x < 1.0 {
        if f64::to_bits(x) == 0 {
            return Some(0);
        }
        return None;
    }
    if (x + 4503599627370496.0) - 4503599627370496.0 != x {
        return None;
    }
    Some(x as u64)
}

// A double is an epoch.
pub fn is_epoch(x: f64) -> bool
    ensures { result ≡ is_epoch x }
{
    count_of(x).is_some()
}

// A date of the years 0 to 9999 and milliseconds of the day.
fn is_moment(d: Date, t: u64) -> bool
    ensures { result ≡ is_moment d t }
{
    (d.year <= 9999) & (calendar::is_date(d) & (t < 86400000))
}

// The count at a date and a millisecond of the day.
fn count_moment(d: Date, t: u64) -> Option<u64>
    ensures { result ≡ count_moment d t }
{
    if !is_moment(d, t) {
        return None;
    }
    Some(calendar::days_before(d) * 86400000 + t)
}

// The count at a date and a millisecond of the day that a caller gives; none of the numbers may be negative.
pub fn count_from(year: i64, month: i64, day: i64, milliseconds: i64) -> Option<u64>
    ensures { result ≡ count_from year month day milliseconds }
{
    let date = Date {
        year: asked::natural(year)?,
        month: asked::natural(month)?,
        day: asked::natural(day)?,
    };
    count_moment(date, asked::natural(milliseconds)?)
}
