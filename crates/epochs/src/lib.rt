// Epochs as dates of the proleptic Gregorian calendar: the calls that crates/epochs_c gives to C, in C's form, which tlepozaluh.h states: a
// call answers 0 and sets the caller's numbers, or answers 27 and leaves them alone.
#![tactic(auto)]

ghost use Rattle.std.specs.Prelude.{◌≡◌};
ghost use Rattle.epochs.specs.Epochs.{count_of, count_from};
ghost use Rattle.epochs.specs.Shown.{shown_date, date_shown, shown_double, epoch_shown, difference_shown};

pub mod calendar;
pub mod counts;

// The date of an epoch: year, month, day and milliseconds of the day.
pub fn tlz_epoch_date(
    epoch: f64,
    year: &mut i32,
    month: &mut i32,
    day: &mut i32,
    milliseconds: &mut i32,
) -> i32
    ensures { shown_date result year.new month.new day.new milliseconds.new
        ≡ date_shown (count_of epoch) year.old month.old day.old milliseconds.old }
{
    match counts::count_of(epoch) {
        Some(n) => {
            let d = calendar::date_of(n / 86400000);
            *year = d.year as i32;
            *month = d.month as i32;
            *day = d.day as i32;
            *milliseconds = (n % 86400000) as i32;
            0
        }
        None => 27,
    }
}

// The epoch of a date and milliseconds of the day.
pub fn tlz_epoch_from(year: i64, month: i64, day: i64, milliseconds: i64, epoch: &mut f64) -> i32
    ensures { shown_double result epoch.new ≡ epoch_shown (count_from year month day milliseconds) epoch.old }
{
    match counts::count_from(year, month, day, milliseconds) {
        Some(n) => {
            // A signed number is cast without a sum, so 0 does not become -0 where a program has set rounding downward.
            *epoch = n.cast_signed() as f64;
            0
        }
        None => 27,
    }
}

// The milliseconds from the epoch b to the epoch a: one subtraction.
pub fn tlz_epoch_difference(a: f64, b: f64, difference: &mut f64) -> i32
    ensures { shown_double result difference.new ≡ difference_shown a b difference.old }
{
    if !(counts::is_epoch(a) & counts::is_epoch(b)) {
        return 27;
    }
    *difference = a - b;
    0
}
