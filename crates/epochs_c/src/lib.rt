// The calls of epochs for C: each is the call of crates/epochs by that name, with its clauses.
// Each stands twice: a library of Rattle cannot be a static library too.
#![tactic(auto)]

ghost use Rattle.std.specs.Prelude.{◌≡◌};
ghost use Rattle.epochs.specs.Epochs.{count_of, count_from};
ghost use Rattle.epochs.specs.Shown.{shown_date, date_shown, shown_double, epoch_shown, difference_shown};

// The date of an epoch: year, month, day and milliseconds of the day.
#[unsafe(no_mangle)]
pub extern "C" fn tlz_epoch_date(
    epoch: f64,
    year: &mut i32,
    month: &mut i32,
    day: &mut i32,
    milliseconds: &mut i32,
) -> i32
    ensures { shown_date result year.new month.new day.new milliseconds.new
        ≡ date_shown (count_of epoch) year.old month.old day.old milliseconds.old }
{
    epochs::tlz_epoch_date(epoch, year, month, day, milliseconds)
}

// The epoch of a date and milliseconds of the day.
#[unsafe(no_mangle)]
pub extern "C" fn tlz_epoch_from(
    year: i64,
    month: i64,
    day: i64,
    milliseconds: i64,
    epoch: &mut f64,
) -> i32
    ensures { shown_double result epoch.new ≡ epoch_shown (count_from year month day milliseconds) epoch.old }
{
    epochs::tlz_epoch_from(year, month, day, milliseconds, epoch)
}

// The milliseconds from the epoch b to the epoch a: one subtraction.
#[unsafe(no_mangle)]
pub extern "C" fn tlz_epoch_difference(a: f64, b: f64, difference: &mut f64) -> i32
    ensures { shown_double result difference.new ≡ difference_shown a b difference.old }
{
    epochs::tlz_epoch_difference(a, b, difference)
}
