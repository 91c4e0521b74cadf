// Pick: collateral for an amount out of an account. Free: collateral that a position no longer needs.
// Both work on the numbers of one account or position and of the securities, without the book.
#![tactic(auto)]

ghost use Rattle.std.specs.Prelude.{◌≡◌, ◌<◌, ◌≤◌, get_or};
ghost use Rattle.baskets.specs.Fresh.{eligible_by};
ghost use Rattle.securities.specs.Position.{nominals_of};
ghost use Rattle.securities.specs.Security.{security_at};
ghost use Rattle.securities.specs.Bounds.{AllInBounds, Within};
ghost use Rattle.valuation.specs.Value.{value};
ghost use Rattle.picking.specs.Free.{freed};
ghost use Rattle.picking.specs.FreeSteps.{parcel_back, first_to_free};
ghost use Rattle.picking.specs.Pick.{parcel_from, picked};
ghost use Rattle.picking.specs.Omitted.{but};

use baskets::Eligibility;
use parcels::{NO_PARCEL, Parcel};

// A pick's outcome: the nominal picked of each security, the value found in cents, and how many securities.
#[repr(C)]
#[derive(Clone, Copy, Debug, PartialEq, Eq)]
pub struct Outcome {
    pub nominals: [u64; 64],
    pub value: u64,
    pub count: u64,
}

// What a free leaves: the nominal given back of each security, the value of the position left, and how many securities gave back.
#[repr(C)]
#[derive(Clone, Copy, Debug, PartialEq, Eq)]
pub struct Freed {
    pub nominals: [u64; 64],
    pub left: u64,
    pub count: u64,
}

// Is the security i eligible, and not the one left out?
fn is_allowed(x: Eligibility, omitted: Option<usize>, columns: &[u64; 256], i: usize) -> bool
    requires { (i < 64) × AllInBounds columns.now }
    ensures { result ≡ but omitted (eligible_by x columns.now) i }
{
    omitted != Some(i) && baskets::is_eligible(x, columns, i)
}

// What the pick takes from security i. Whether it is eligible is asked last: it costs most.
fn parcel_from(
    account: &[u64; 64],
    columns: &[u64; 256],
    x: Eligibility,
    omitted: Option<usize>,
    i: usize,
    remains: u64,
) -> Parcel
    requires { (i < 64) × AllInBounds columns.now × Within (nominals_of account.now) }
    ensures { result ≡ parcel_from columns.now account.now (but omitted (eligible_by x columns.now)) i remains }
{
    let p = parcels::parcel_to_pick(securities::security_at(columns, i), account[i], remains);
    if p.nominal != 0 && is_allowed(x, omitted, columns, i) {
        p
    } else {
        NO_PARCEL
    }
}

// Picks an amount from an account out of the securities that are eligible, by rising number; one may be left out.
pub fn pick(
    account: &[u64; 64],
    columns: &[u64; 256],
    x: Eligibility,
    omitted: Option<usize>,
    amount: u64,
) -> Outcome
    requires { AllInBounds columns.now × Within (nominals_of account.now) }
    ensures { result ≡ picked columns.now account.now (but omitted (eligible_by x columns.now)) amount }
{
    let mut nominals = [0u64; 64];
    let mut value: u64 = 0;
    let mut count: u64 = 0;
    for i in 0..64 {
        let p = parcel_from(account, columns, x, omitted, i, amount - value);
        nominals[i] = p.nominal;
        value += p.value;
        count += u64::from(p.nominal != 0);
    }
    Outcome {
        nominals,
        value,
        count,
    }
}

// Picks an amount from an account out of all securities that are eligible.
pub fn pick_for(account: &[u64; 64], columns: &[u64; 256], x: Eligibility, amount: u64) -> Outcome
    requires { AllInBounds columns.now × Within (nominals_of account.now) }
    ensures { result ≡ picked columns.now account.now (eligible_by x columns.now) amount }
{
    pick(account, columns, x, None, amount)
}

// What the free gives back of security i.
fn parcel_back(
    position: &[u64; 64],
    columns: &[u64; 256],
    i: usize,
    worth: u64,
    exposure: u64,
) -> Parcel
    requires { (i < 64) × AllInBounds columns.now × Within (nominals_of position.now) × (value (security_at columns.now i).pricing (get_or position.now i 0) ≤ worth) }
    ensures { result ≡ parcel_back columns.now position.now i worth exposure }
{
    parcels::parcel_to_free(
        securities::security_at(columns, i),
        position[i],
        worth,
        exposure,
    )
}

// Where Free begins: above the highest security, or, since a position below the exposure gives nothing, at its end.
fn first_to_free(worth: u64, exposure: u64) -> usize
    ensures { result ≡ first_to_free worth exposure }
{
    if worth < exposure { 0 } else { 64 }
}

// Frees a position down to an exposure, by falling number.
pub fn free(position: &[u64; 64], columns: &[u64; 256], exposure: u64) -> Freed
    requires { AllInBounds columns.now × Within (nominals_of position.now) }
    ensures { result ≡ freed columns.now position.now exposure }
{
    let mut nominals = [0u64; 64];
    let mut left = securities::worth_of(position, columns);
    let mut count: u64 = 0;
    for i in (0..first_to_free(left, exposure)).rev() {
        let p = parcel_back(position, columns, i, left, exposure);
        nominals[i] = p.nominal;
        left -= p.value;
        count += u64::from(p.nominal != 0);
    }
    Freed {
        nominals,
        left,
        count,
    }
}
