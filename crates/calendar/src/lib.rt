// The TARGET calendar. Day 0 is Tuesday 1 January 2002, and the last day is 146096, Monday 31 December 2401.
// It needs no book, and other desks link it by itself.
#![tactic(auto)]

ghost use Rattle.std.specs.Prelude.{◌≡◌, ◌+◌, ◌≤◌, ◌<◌};
ghost use Rattle.answers.specs.Refusals.{coded};
ghost use Rattle.calendar.specs.Answers.{is_open_answer, next_open_day_answer, age_answer};
ghost use Rattle.calendar.specs.Outcome.{as_number};
ghost use Rattle.calendar.specs.Gregorian.{start_of};
ghost use Rattle.calendar.specs.Easter.{easter};
ghost use Rattle.calendar.specs.Fresh.{FreshDays};
ghost use Rattle.calendar.specs.Target.{easter_holiday, holiday, open_day, next_open_day, age};
ghost use Rattle.calendar.specs.Outcome.{open_day_after};
ghost use Rattle.calendar.specs.YearDay.{year_day};

use answers::Refusal;

mod easter;

pub const LAST_DAY: u64 = 146096;

// The day on which the year 2002 + k begins.
fn start_of(k: u64) -> u64
    requires { k ≤ 400 }
    ensures { result ≡ start_of k }
{
    let y = 2001 + k;
    365 * k + y / 4 + y / 400 - y / 100 - 485
}

// A day by its year, counted from 2002, with the leap days of that year and the day's number in it, from 1.
#[derive(Clone, Copy)]
pub struct YearDay {
    pub year: u64,
    pub leap: u64,
    pub day: u64,
}

// 400 years have 146,097 days, so the quotient is the year or, at most in its first days, the one before.
fn year_day(day: u64) -> YearDay
    requires { day ≤ 146096 }
    ensures { result ≡ year_day day }
{
    let k = 400 * day / 146097;
    let next = start_of(k + 1);
    if next <= day {
        let after = start_of(k + 2);
        YearDay {
            year: k + 1,
            leap: after - next - 365,
            day: day - next + 1,
        }
    } else {
        let start = start_of(k);
        YearDay {
            year: k,
            leap: next - start - 365,
            day: day - start + 1,
        }
    }
}

// Is the day n of the year 2002 + k Good Friday or Easter Monday? Easter Sunday is never before day 81 nor after day 115,
// so that the table is looked at in spring only.
fn is_easter_holiday(n: u64, k: usize) -> bool
    requires { (n ≤ 366) × (k < 400) }
    ensures { result ≡ easter_holiday (easter (2002 + k)) n }
{
    if !(79..=116).contains(&n) {
        return false;
    }
    let e = u64::from(easter::easter_of(k));
    n + 2 == e || n == e + 1
}

// Is the day n of the year 2002 + k, which has so many leap days, a holiday? 1 January, 1 May, 25 and 26 December, then Easter's.
fn is_holiday(n: u64, leap: u64, k: usize) -> bool
    requires { (n ≤ 366) × (leap ≤ 1) × (k < 400) }
    ensures { result ≡ holiday leap (easter (2002 + k)) n }
{
    n == 1 || n == 121 + leap || n == 359 + leap || n == 360 + leap || is_easter_holiday(n, k)
}

// Is a day open? No day after the last one is.
pub fn is_open(day: u64) -> bool
    ensures { result ≡ open_day day }
{
    if LAST_DAY < day || matches!(day % 7, 4 | 5) {
        return false;
    }
    let d = year_day(day);
    !is_holiday(d.day, d.leap, d.year as usize)
}

// The first open day after a day. There may be none.
pub fn open_day_after(day: u64) -> Option<u64>
    requires { day ≤ 146096 }
    ensures { result ≡ open_day_after day }
{
    (day + 1..LAST_DAY + 1).find(|&next| is_open(next))
}

// The first open day after a day, or 146097 where there is none.
pub fn next_open_day(day: u64) -> u64
    requires { day ≤ 146096 }
    ensures { result ≡ next_open_day day }
{
    open_day_after(day).unwrap_or(LAST_DAY + 1)
}

// The age of a price: the open days after its quote day up to and including today, 0 where the quote is after today.
pub fn age_of(quote: u64, today: u64) -> u64
    requires { (quote ≤ 146096) × (today ≤ 146096) }
    ensures { result ≡ age quote today }
{
    (quote + 1..today + 1).filter(|&day| is_open(day)).count() as u64
}

// The first day of a fresh price for each greatest age up to `most`. No price is quoted before `from`, and no day before it is looked at.
pub fn fresh_days(from: u64, today: u64, most: usize) -> [u64; 256]
    requires { most ≤ 255 }
    ensures { FreshDays from today most result }
{
    let mut days = [0u64; 256];
    let mut age: usize = 0;
    // Each day looked at is the one after `before`: a range that begins at `from + 1` could overflow.
    for before in (from..today).rev() {
        if most < age {
            return days;
        }
        if is_open(before + 1) {
            days[age] = before + 1;
            age += 1;
        }
    }
    days
}

// Is a day of the calendar open? Refused above 146096.
pub fn calendar_is_open(day: u64) -> Result<bool, Refusal>
    ensures { coded (as_number result) ≡ is_open_answer day }
{
    if LAST_DAY < day {
        return Err(Refusal::BadDay);
    }
    Ok(is_open(day))
}

// The first open day after an open day. Refused for a day that is not open, and where there is no next one.
pub fn calendar_next_open_day(day: u64) -> Result<u64, Refusal>
    ensures { coded result ≡ next_open_day_answer day }
{
    if !is_open(day) {
        return Err(Refusal::BadDay);
    }
    open_day_after(day).ok_or(Refusal::BadDay)
}

// The age of a price in open days. Refused where a day is not open, or the quote is after today.
pub fn calendar_price_age(quote: u64, today: u64) -> Result<u64, Refusal>
    ensures { coded result ≡ age_answer quote today }
{
    if !is_open(quote) || !is_open(today) || today < quote {
        return Err(Refusal::BadDay);
    }
    Ok(age_of(quote, today))
}
