// The value of a nominal at a security's price and haircut. It needs no book, and other desks link it by itself.
#![tactic(auto)]

ghost use Rattle.std.specs.Prelude.{◌≡◌, ◌≤◌};
ghost use Rattle.answers.specs.Refusals.{coded};
ghost use Rattle.limits.specs.Limits.{greatest_nominal};
ghost use Rattle.valuation.specs.Value.{value, legal_pricing, valued};
ghost use Rattle.valuation.specs.Inverse.{Bounded, nominal_within};

use answers::Refusal;
use limits::{GREATEST_HAIRCUT, GREATEST_NOMINAL, GREATEST_PRICE};

// What the value of a nominal depends on: the price (1,000,000 is par) and the haircut in hundredths of a percent.
#[derive(Clone, Copy)]
pub struct Pricing {
    pub price: u64,
    pub haircut: u64,
}

// The value in cents of a nominal in whole euros, rounded down. The product reaches 1.5 × 10^19.
pub fn value_of(nominal: u64, pricing: Pricing) -> u64
    requires { (nominal ≤ greatest_nominal) × Bounded pricing }
    ensures { result ≡ value pricing nominal }
{
    nominal * pricing.price * (10000 - pricing.haircut) / 100000000
}

// The largest nominal of one account that is worth no more than an amount: the inverse of the value, in one division.
pub fn nominal_within(cents: u64, pricing: Pricing) -> u64
    requires { (1 ≤ pricing.price) × Bounded pricing }
    ensures { result ≡ nominal_within pricing cents }
{
    if 150000000000 <= cents {
        return GREATEST_NOMINAL;
    }
    let n = (cents * 100000000 + 99999999) / (pricing.price * (10000 - pricing.haircut));
    n.min(GREATEST_NOMINAL)
}

// Are price and haircut in their ranges?
pub fn is_legal(pricing: Pricing) -> bool
    ensures { result ≡ legal_pricing pricing }
{
    (1..=GREATEST_PRICE).contains(&pricing.price) && pricing.haircut <= GREATEST_HAIRCUT
}

// The value in cents, for any numbers: refused where one is out of its range.
pub fn valuation_value(nominal: u64, price: u64, haircut: u64) -> Result<u64, Refusal>
    ensures { coded result ≡ valued nominal (record { price = price; haircut = haircut }) }
{
    let pricing = Pricing { price, haircut };
    if GREATEST_NOMINAL < nominal || !is_legal(pricing) {
        return Err(Refusal::OutOfRange);
    }
    Ok(value_of(nominal, pricing))
}
