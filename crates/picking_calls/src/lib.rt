// The exported Pick and Free, for any numbers that a host lends: those out of their ranges are refused.
#![tactic(auto)]

ghost use Rattle.std.specs.Prelude.{◌≡◌};
ghost use Rattle.picking_calls.specs.Answers.{picked_for, freed_down, legal_pick, legal_days, legal_free};
ghost use Rattle.picking_calls.specs.Outcome.{pick_answer, free_answer};

use answers::Refusal;
use baskets::Basket;
use limits::GREATEST_EXPOSURE;
use picking::{Freed, Outcome};

// For a host: code 0 with the outcome, or the code of a refusal with zeros.
#[repr(C)]
#[derive(Clone, Copy, Debug, PartialEq, Eq)]
pub struct PickAnswer {
    pub code: u64,
    pub outcome: Outcome,
}

impl From<Result<Outcome, Refusal>> for PickAnswer {
    ghost from_gives = { λ picked answer. answer ≡ pick_answer picked };

    fn from(picked: Result<Outcome, Refusal>) -> PickAnswer {
        match picked {
            Ok(outcome) => PickAnswer { code: 0, outcome },
            Err(refusal) => PickAnswer {
                code: u64::from(refusal),
                outcome: Outcome {
                    nominals: [0; 64],
                    value: 0,
                    count: 0,
                },
            },
        }
    }
}

// The same of a free.
#[repr(C)]
#[derive(Clone, Copy, Debug, PartialEq, Eq)]
pub struct FreeAnswer {
    pub code: u64,
    pub freed: Freed,
}

impl From<Result<Freed, Refusal>> for FreeAnswer {
    ghost from_gives = { λ freed answer. answer ≡ free_answer freed };

    fn from(freed: Result<Freed, Refusal>) -> FreeAnswer {
        match freed {
            Ok(freed) => FreeAnswer { code: 0, freed },
            Err(refusal) => FreeAnswer {
                code: u64::from(refusal),
                freed: Freed {
                    nominals: [0; 64],
                    left: 0,
                    count: 0,
                },
            },
        }
    }
}

// Are the numbers of a pick in their ranges?
fn is_legal_pick(account: &[u64; 64], columns: &[u64; 256], basket: Basket, amount: u64) -> bool
    ensures { result ≡ legal_pick columns.now account.now basket amount }
{
    securities::are_nominals(account)
        && securities::are_legal(columns)
        && basket.map != 0
        && basket.oldest <= 255
        && amount <= GREATEST_EXPOSURE
}

// Are the days of a pick open, and no quote after today?
fn are_legal_days(columns: &[u64; 256], today: u64) -> bool
    ensures { result ≡ legal_days columns.now today }
{
    calendar::is_open(today) && securities::are_quoted(today, columns)
}

// Are the numbers of a free in their ranges?
fn is_legal_free(position: &[u64; 64], columns: &[u64; 256], exposure: u64) -> bool
    ensures { result ≡ legal_free columns.now position.now exposure }
{
    securities::are_nominals(position)
        && securities::are_legal(columns)
        && exposure <= GREATEST_EXPOSURE
}

// Picks an amount from an account for a basket, for any numbers. Refused where one is out of its range, and where today or the
// quote day of a security set up is not open, or a quote is after today.
pub fn picking_pick(
    account: &[u64; 64],
    columns: &[u64; 256],
    map: u64,
    oldest: u64,
    today: u64,
    amount: u64,
) -> Result<Outcome, Refusal>
    ensures { pick_answer result ≡ picked_for columns.now account.now (record { map = map; oldest = oldest }) today amount }
{
    let basket = Basket { map, oldest };
    if !is_legal_pick(account, columns, basket, amount) {
        return Err(Refusal::OutOfRange);
    }
    if !are_legal_days(columns, today) {
        return Err(Refusal::BadDay);
    }
    let x = baskets::eligibility_on(basket, today, columns);
    Ok(picking::pick_for(account, columns, x, amount))
}

// Frees a position down to an exposure, for any numbers. Refused where one is out of its range.
pub fn picking_free(
    position: &[u64; 64],
    columns: &[u64; 256],
    exposure: u64,
) -> Result<Freed, Refusal>
    ensures { free_answer result ≡ freed_down columns.now position.now exposure }
{
    if !is_legal_free(position, columns, exposure) {
        return Err(Refusal::OutOfRange);
    }
    Ok(picking::free(position, columns, exposure))
}
