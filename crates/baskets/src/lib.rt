// Baskets: which securities are eligible for one, and the report of one.
#![tactic(auto)]

ghost use Rattle.std.specs.Prelude.{◌≡◌, ◌<◌, ◌≤◌};
ghost use Rattle.laws.specs.Bits.{has_bit};
ghost use Rattle.laws.specs.Search.{count};
ghost use Rattle.securities.specs.Bounds.{InBounds, AllInBounds};
ghost use Rattle.baskets.specs.Fresh.{qualifies_by, eligible_by, NoneBefore, FreshAges, EligibilityFor};
ghost use Rattle.baskets.specs.Report.{summary, report};
ghost use Rattle.baskets.specs.Outcome.{reported};

use answers::Refusal;
use calendar::LAST_DAY;
use securities::Security;

// A basket: its map of securities (bit n is security n) and how old a price may be, in open days (document 01: the greatest age).
#[derive(Clone, Copy)]
pub struct Basket {
    pub map: u64,
    pub oldest: u64,
}

// Is bit i of a map set?
pub fn has_bit(map: u64, i: u64) -> bool
    requires { i < 64 }
    ensures { result ≡ has_bit map i }
{
    (map >> i) % 2 == 1
}

// Which securities are eligible for a basket on a day: those in its map whose price was quoted on this day or later.
#[derive(Clone, Copy)]
pub struct Eligibility {
    pub map: u64,
    pub since: u64,
}

// Is a security set up, quoted on a day or later, and one lot worth a cent or more?
fn is_qualified(since: u64, s: Security) -> bool
    requires { InBounds s }
    ensures { result ≡ qualifies_by since s }
{
    s.lot != 0 && 1 <= valuation::value_of(s.lot, s.pricing) && since <= s.quote
}

// Is the security i eligible?
pub fn is_eligible(x: Eligibility, columns: &[u64; 256], i: usize) -> bool
    requires { (i < 64) × AllInBounds columns.now }
    ensures { result ≡ eligible_by x columns.now i }
{
    has_bit(x.map, i as u64) && is_qualified(x.since, securities::security_at(columns, i))
}

// The earlier of a day and the quote of a security, where it is set up.
fn earlier_quote(day: u64, s: Security) -> u64
    ensures { (result ≤ day) × (0 < s.lot → result ≤ s.quote) }
{
    if s.lot == 0 { day } else { day.min(s.quote) }
}

// A day before which no security that is set up was quoted.
fn earliest_quote(columns: &[u64; 256]) -> u64
    ensures { NoneBefore result 64 columns.now }
{
    let mut day = LAST_DAY;
    for i in 0..64 {
        day = earlier_quote(day, securities::security_at(columns, i));
    }
    day
}

// The first day of a fresh price for each greatest age up to `most`. Days before the earliest quote are not looked at.
pub fn fresh_days(columns: &[u64; 256], today: u64, most: usize) -> [u64; 256]
    requires { most ≤ 255 }
    ensures { FreshAges columns.now today most result }
{
    let from = earliest_quote(columns);
    calendar::fresh_days(from, today, most)
}

// Which securities are eligible for a basket on a day, by the age of their prices.
pub fn eligibility_on(b: Basket, today: u64, columns: &[u64; 256]) -> Eligibility
    requires { b.oldest ≤ 255 }
    ensures { EligibilityFor b today columns.now result }
{
    let oldest = b.oldest as usize;
    let days = fresh_days(columns, today, oldest);
    Eligibility {
        map: b.map,
        since: days[oldest],
    }
}

// What a basket's map tells: how many securities it holds and the lowest of them.
#[derive(Clone, Copy, Debug, PartialEq, Eq)]
pub struct Summary {
    pub count: u64,
    pub lowest: u64,
}

// What a map tells. A map of 0, which no basket has, holds none, and 64 stands for its lowest.
pub fn summary_of(map: u64) -> Summary
    ensures { result ≡ summary map }
{
    Summary {
        count: u64::from(map.count_ones()),
        lowest: u64::from(map.trailing_zeros()),
    }
}

// The report of a map: refused for a map of 0, which no basket has.
pub fn baskets_report(map: u64) -> Result<Summary, Refusal>
    ensures { reported result ≡ report map }
{
    if map == 0 {
        return Err(Refusal::OutOfRange);
    }
    Ok(summary_of(map))
}

// A report for C: code 0 and what the map tells, or the code of a refusal and zeros.
#[repr(C)]
#[derive(Clone, Copy, Debug, PartialEq, Eq)]
pub struct Report {
    pub code: u64,
    pub count: u64,
    pub lowest: u64,
}

impl From<Result<Summary, Refusal>> for Report {
    ghost from_gives = { λ outcome answer. answer ≡ reported outcome };

    fn from(outcome: Result<Summary, Refusal>) -> Report {
        match outcome {
            Ok(summary) => Report {
                code: 0,
                count: summary.count,
                lowest: summary.lowest,
            },
            Err(refusal) => Report {
                code: u64::from(refusal),
                count: 0,
                lowest: 0,
            },
        }
    }
}
