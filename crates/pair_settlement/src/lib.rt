// One pair: what settles of a return or a FOP, and the book that it leaves.
#![tactic(auto)]

ghost use Rattle.std.specs.Prelude.{◌≡◌, ◌<◌, ◌≤◌};
ghost use Rattle.eligibility.specs.Fresh.{PricesOf};
ghost use Rattle.book.specs.Layout.{settled_amounts, amounts, exposure_amounts};
ghost use Rattle.book.specs.State.{state, put, columns_of};
ghost use Rattle.facts.specs.Good.{Good};
ghost use Rattle.rules.specs.Requests.{rest_of, exposure_of_fop};
ghost use Rattle.rules.specs.Settlement.{both_settled, return_amount};
ghost use Rattle.settlement_laws.specs.Ways.{PairOf, fop_amount, return_way, fop_way, left};
ghost use Rattle.pair_settlement.specs.Pairs.{Settleable, amount_for};

use book::Book;
use book::layout::Table;
use eligibility::Prices;
use exposure_search::ExposureKey;
use limits::GREATEST_EXPOSURE;

// What is left to settle.
fn rest_of(book: &Book, i: usize) -> u64
    requires { (i < 256) × (state book.now settled_amounts i ≤ state book.now amounts i) }
    ensures { result ≡ rest_of (state book.now) i }
{
    book::get(book, Table::Amounts, i) - book::get(book, Table::SettledAmounts, i)
}

// Both rows of a pair have settled so much more, and the exposure has a new amount.
fn note_settled(book: &mut Book, i: usize, x: u64, e: usize, exposure: u64)
    requires { Settleable (state book.old) i x × (e < 64) }
    ensures { state book.new ≡ put (both_settled (state book.old) i x) exposure_amounts e exposure }
{
    let j = partners::partner_of(book, i).unwrap();
    let own = book::get(book, Table::SettledAmounts, i);
    let other = book::get(book, Table::SettledAmounts, j);
    book::set(book, Table::SettledAmounts, i, own + x);
    book::set(book, Table::SettledAmounts, j, other + x);
    book::set(book, Table::ExposureAmounts, e, exposure);
}

// Settles a return: the lesser of its rest and the exposure, which is lowered and freed. The cents settled.
pub fn settle_return(book: &mut Book, columns: &[u64; 256], i: usize) -> u64
    requires { Good (state book.old) × PairOf (state book.old) 7 i × (columns.now ≡ columns_of (state book.old)) }
    ensures { (result ≡ return_amount (state book.old) i) × (state book.new ≡ left return_way (state book.old) i) }
{
    let e = book::get(book, Table::BasketsOrExposures, i) as usize;
    let exposure = book::get(book, Table::ExposureAmounts, e);
    let x = rest_of(book, i).min(exposure);
    if x == 0 {
        return 0;
    }
    note_settled(book, i, x, e, exposure - x);
    bonds::free_down(book, columns, e, exposure - x);
    x
}

// The exposure that a FOP pair belongs to.
fn exposure_of_fop(book: &Book, i: usize) -> usize
    requires { (i < 256) × (exposure_of_fop (state book.now) i < 64) }
    ensures { result ≡ exposure_of_fop (state book.now) i }
{
    exposure_search::exposure_with(book, ExposureKey::of_request(book, i)).unwrap()
}

// What a FOP settles of its rest, for the value found: all of it where less than the tolerance is missing, else what was found,
// where both parties allowed partial settlement.
fn amount_for(book: &Book, i: usize, rest: u64, found: u64) -> u64
    requires { (i < 256) × (found ≤ rest) }
    ensures { result ≡ amount_for (state book.now) i rest found }
{
    if rest - found < book::get(book, Table::Tolerance, 0) {
        return rest;
    }
    if book::get(book, Table::PairPartials, i) == 1 {
        found
    } else {
        0
    }
}

// Settles a FOP: Picks its rest, and the exposure grows by what settles. The cents settled.
pub fn settle_fop(book: &mut Book, prices: &Prices, i: usize) -> u64
    requires { Good (state book.old) × PairOf (state book.old) 6 i × PricesOf (state book.old) prices.now }
    ensures { (result ≡ fop_amount (state book.old) i) × (state book.new ≡ left fop_way (state book.old) i) }
{
    let e = exposure_of_fop(book, i);
    let exposure = book::get(book, Table::ExposureAmounts, e);
    let rest = rest_of(book, i);
    if GREATEST_EXPOSURE < exposure + rest {
        return 0;
    }
    let outcome = bonds::pick_for(book, prices, e, rest);
    let x = amount_for(book, i, rest, outcome.value);
    if x == 0 {
        return 0;
    }
    note_settled(book, i, x, e, exposure + x);
    bonds::pledge(book, e, &outcome.nominals);
    x
}
