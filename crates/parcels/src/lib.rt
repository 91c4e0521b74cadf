// Whole lots of one security: how many a pick takes, how many a free gives back. One division finds each.
#![tactic(auto)]

ghost use Rattle.std.specs.Prelude.{◌≡◌, ◌<◌, ◌≤◌, ◌-◌, ◌*◌, ◌/◌};
ghost use Rattle.limits.specs.Limits.{greatest_lot, greatest_nominal};
ghost use Rattle.securities.specs.Bounds.{InBounds};
ghost use Rattle.valuation.specs.Value.{value};
ghost use Rattle.valuation.specs.Inverse.{Bounded};
ghost use Rattle.parcels.specs.Lots.{parcel_to_pick};
ghost use Rattle.parcels.specs.Spare.{parcel_to_spare, nominal_to_keep};

use securities::Security;
use valuation::Pricing;

// A nominal of one security and a value in cents.
#[derive(Clone, Copy, Debug, PartialEq, Eq)]
pub struct Parcel {
    pub nominal: u64,
    pub value: u64,
}

// A parcel of nominal 0, not an `Option` of one: Pick adds it like any other.
pub const NO_PARCEL: Parcel = Parcel {
    nominal: 0,
    value: 0,
};

// The whole lots of a nominal; the division is of 32 bits, which is quicker.
fn whole_lots(nominal: u64, lot: u64) -> u64
    requires { (nominal ≤ greatest_nominal) × (0 < lot) × (lot ≤ greatest_lot) }
    ensures { (result ≡ nominal / lot * lot) × (result ≤ nominal) }
{
    let n = nominal as u32;
    let l = lot as u32;
    u64::from(n / l * l)
}

// As many whole lots of the account as are worth no more than what remains.
pub fn parcel_to_pick(s: Security, account: u64, remains: u64) -> Parcel
    requires { (account ≤ greatest_nominal) × InBounds s }
    ensures { result ≡ parcel_to_pick s account remains }
{
    let lot = s.lot;
    let pricing = s.pricing;
    if lot == 0 || account < lot || remains < valuation::value_of(lot, pricing) {
        return NO_PARCEL;
    }
    let all = whole_lots(account, lot);
    let worth = valuation::value_of(all, pricing);
    if worth <= remains {
        return Parcel {
            nominal: all,
            value: worth,
        };
    }
    let most = account.min(valuation::nominal_within(remains, pricing));
    let nominal = whole_lots(most, lot);
    Parcel {
        nominal,
        value: valuation::value_of(nominal, pricing),
    }
}

// The least nominal that, with the others, is worth the exposure.
fn nominal_to_keep(others: u64, exposure: u64, pricing: Pricing) -> u64
    requires { (1 ≤ pricing.price) × Bounded pricing }
    ensures { result ≡ nominal_to_keep others exposure pricing }
{
    if exposure <= others {
        return 0;
    }
    valuation::nominal_within(exposure - others - 1, pricing) + 1
}

// As many lots as can go while a position stays worth the exposure, with what it loses in value.
pub fn parcel_to_free(s: Security, nominal: u64, worth: u64, exposure: u64) -> Parcel
    requires { (nominal ≤ greatest_nominal) × (value s.pricing nominal ≤ worth) × InBounds s }
    ensures { result ≡ parcel_to_spare s nominal (worth - value s.pricing nominal) exposure }
{
    let lot = s.lot;
    let pricing = s.pricing;
    if lot == 0 || nominal < lot {
        return NO_PARCEL;
    }
    let held = valuation::value_of(nominal, pricing);
    let keep = nominal_to_keep(worth - held, exposure, pricing);
    if nominal < keep {
        return NO_PARCEL;
    }
    let given = whole_lots(nominal - keep, lot);
    if given == 0 {
        return NO_PARCEL;
    }
    let left = valuation::value_of(nominal - given, pricing);
    Parcel {
        nominal: given,
        value: held - left,
    }
}
