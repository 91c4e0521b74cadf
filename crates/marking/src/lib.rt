// Kind 10: the mark, three passes over the exposures.
#![tactic(auto)]

ghost use Rattle.std.specs.Prelude.{◌≡◌, true};
ghost use Rattle.laws.specs.Filled.{filled};
ghost use Rattle.laws.specs.Search.{count};
ghost use Rattle.laws.specs.Sum.{sum};
ghost use Rattle.book.specs.State.{state};
ghost use Rattle.bonds.specs.Moves.{SoundBook};
ghost use Rattle.eligibility.specs.Fresh.{FreshBaskets};
ghost use Rattle.rules.specs.Marking.{on_exposures, moved, ineligible_back, excess_back, shortfall_in, missing_of, marked};
ghost use Rattle.rules.specs.Sound.{sound};
ghost use Rattle.totals.specs.Totals.{totals_of};
ghost use Rattle.marking.specs.Flags.{FlagsOf, flagged_or};

use book::Book;
use eligibility::Prices;
use totals::Totals;

// What the second pass leaves: how many exposures gave back, in the first or in this one, and what is missing of each.
#[derive(Clone, Copy)]
struct Freed {
    count: u64,
    missing: [u64; 64],
}

// What the third pass leaves: how many exposures took in, and what is missing of all.
#[derive(Clone, Copy)]
struct Searched {
    count: u64,
    missing: u64,
}

// First pass. Which exposures gave back?
fn give_all_ineligible(book: &mut Book, prices: &Prices) -> [bool; 64]
    requires { SoundBook book.old prices.now.columns × FreshBaskets (state book.old) prices.now.since }
    ensures { SoundBook book.new prices.now.columns × FreshBaskets (state book.new) prices.now.since × (state book.new ≡ on_exposures ineligible_back 64 (state book.old)) × FlagsOf (moved (state book.old) (state book.new)) result }
{
    let mut gave = [false; 64];
    for e in 0..64 {
        gave[e] = mark_steps::give_ineligible(book, prices, e);
    }
    gave
}

// Second pass: each exposure is freed and no more; what is missing is searched for when all are freed. An exposure counts once, whether
// it gave back in the first pass, the second or both.
fn free_all(book: &mut Book, prices: &Prices, gave: &[bool; 64]) -> Freed
    requires { SoundBook book.old prices.now.columns × FreshBaskets (state book.old) prices.now.since }
    ensures { SoundBook book.new prices.now.columns × FreshBaskets (state book.new) prices.now.since × (state book.new ≡ on_exposures excess_back 64 (state book.old)) × (result.count ≡ count (flagged_or gave.now (moved (state book.old) (state book.new))) 64 0) × (result.missing ≡ filled (missing_of (state book.new)) 64 64) }
{
    let mut count: u64 = 0;
    let mut missing = [0u64; 64];
    for e in 0..64 {
        let step = mark_steps::free_excess(book, &prices.columns, e);
        count += u64::from(gave[e] || step.moved);
        missing[e] = step.missing;
    }
    Freed { count, missing }
}

// Third pass.
fn search_all(book: &mut Book, prices: &Prices, missing: &[u64; 64]) -> Searched
    requires { SoundBook book.old prices.now.columns × FreshBaskets (state book.old) prices.now.since × (missing.now ≡ filled (missing_of (state book.old)) 64 64) }
    ensures { (state book.new ≡ on_exposures shortfall_in 64 (state book.old)) × (result.count ≡ count (moved (state book.old) (state book.new)) 64 0) × (result.missing ≡ sum (missing_of (state book.new)) 64) }
{
    let mut count: u64 = 0;
    let mut after: u64 = 0;
    for e in 0..64 {
        let step = mark_steps::search_missing(book, prices, e, missing[e]);
        count += u64::from(step.moved);
        after += step.missing;
    }
    Searched {
        count,
        missing: after,
    }
}

// 10: the mark.
pub fn mark(book: &mut Book) -> Totals
    requires { sound (state book.old) ≡ true }
    ensures { (result ≡ totals_of (marked (state book.old))) × (state book.new ≡ (marked (state book.old)).state) }
{
    let prices = Prices::of(book);
    let gave = give_all_ineligible(book, &prices);
    let freed = free_all(book, &prices, &gave);
    let searched = search_all(book, &prices, &freed.missing);
    Totals {
        a: freed.count,
        b: searched.count,
        m: searched.missing,
    }
}
