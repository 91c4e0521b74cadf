// The 64 securities of the desk by their numbers, and what a position in them is worth.
// They come as four columns of 64 numbers: lots, prices, haircuts, quote days. A lot of 0 is a security not set up.
// The columns stay in one array: C lends them so to picking, and the reader of a book fills the same.
#![tactic(auto)]

ghost use Rattle.std.specs.Prelude.{◌≡◌, ◌<◌, true};
ghost use Rattle.calendar.specs.Target.{open_day};
ghost use Rattle.securities.specs.Position.{worth, value_at, nominals_of, legal_nominals};
ghost use Rattle.securities.specs.Security.{security_at, legal_security, legal_quote, legal_securities, legal_quotes};
ghost use Rattle.securities.specs.Bounds.{AllInBounds, Within};

use limits::{GREATEST_LOT, GREATEST_NOMINAL};
use valuation::Pricing;

#[derive(Clone, Copy)]
pub struct Security {
    pub lot: u64,
    pub pricing: Pricing,
    pub quote: u64,
}

// The security i of the columns.
pub fn security_at(columns: &[u64; 256], i: usize) -> Security
    requires { i < 64 }
    ensures { result ≡ security_at columns.now i }
{
    let pricing = Pricing {
        price: columns[64 + i],
        haircut: columns[128 + i],
    };
    Security {
        lot: columns[i],
        pricing,
        quote: columns[192 + i],
    }
}

// The value of one security of a position. Most positions hold few securities, so those not held are passed over.
fn value_at(nominals: &[u64; 64], columns: &[u64; 256], i: usize) -> u64
    requires { (i < 64) × AllInBounds columns.now × Within (nominals_of nominals.now) }
    ensures { result ≡ value_at columns.now (nominals_of nominals.now) i }
{
    let nominal = nominals[i];
    if nominal == 0 {
        return 0;
    }
    let s = security_at(columns, i);
    valuation::value_of(nominal, s.pricing)
}

// The value of a position: the sum over its securities, each at its whole nominal.
pub fn worth_of(nominals: &[u64; 64], columns: &[u64; 256]) -> u64
    requires { AllInBounds columns.now × Within (nominals_of nominals.now) }
    ensures { result ≡ worth columns.now (nominals_of nominals.now) }
{
    (0..64).map(|i| value_at(nominals, columns, i)).sum()
}

// Are a host's numbers of a security in their ranges?
fn is_legal(s: Security) -> bool
    ensures { result ≡ legal_security s }
{
    if s.lot == 0 {
        return s.pricing.price == 0 && s.pricing.haircut == 0 && s.quote == 0;
    }
    s.lot <= GREATEST_LOT && valuation::is_legal(s.pricing)
}

// Is a host's quote day open and not after today, where the security is set up? Today is open.
fn is_quoted(today: u64, s: Security) -> bool
    requires { open_day today ≡ true }
    ensures { result ≡ legal_quote today s }
{
    if s.lot == 0 || s.quote == today {
        return true;
    }
    s.quote < today && calendar::is_open(s.quote)
}

// Are all of a host's securities in their ranges?
pub fn are_legal(columns: &[u64; 256]) -> bool
    ensures { result ≡ legal_securities columns.now }
{
    (0..64).all(|i| is_legal(security_at(columns, i)))
}

// Are all of a host's quote days open and not after today, which is open?
pub fn are_quoted(today: u64, columns: &[u64; 256]) -> bool
    requires { open_day today ≡ true }
    ensures { result ≡ legal_quotes today columns.now }
{
    (0..64).all(|i| is_quoted(today, security_at(columns, i)))
}

// Are all of a host's nominals at most 500,000,000?
pub fn are_nominals(nominals: &[u64; 64]) -> bool
    ensures { result ≡ legal_nominals nominals.now }
{
    nominals.iter().all(|&nominal| nominal <= GREATEST_NOMINAL)
}
