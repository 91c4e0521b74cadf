// One exposure's part in each pass of a mark: its ineligible bonds go back, then those it does not need; what is missing is searched for.
// Three functions, no one over a rule: they differ in what they read, in what they move and in what they tell.
#![tactic(auto)]

ghost use Rattle.std.specs.Prelude.{◌≡◌, ◌<◌, eqb};
ghost use Rattle.laws.specs.Filled.{filled};
ghost use Rattle.laws.specs.Search.{all};
ghost use Rattle.book.specs.State.{state};
ghost use Rattle.bonds.specs.Moves.{SoundBook, GivingBack};
ghost use Rattle.eligibility.specs.Fresh.{FreshBaskets};
ghost use Rattle.rules.specs.Marking.{moved, ineligible_back, excess_back, shortfall_in, missing_of};
ghost use Rattle.rules.specs.Stock.{position_of, give_back};
ghost use Rattle.securities.specs.Bounds.{AllInBounds};
ghost use Rattle.marking_laws.specs.Pass.{is_empty};
ghost use Rattle.mark_steps.specs.Stepped.{Stepped, ineligible_in, may_stay};

use baskets::Eligibility;
use book::Book;
use book::layout::Table;
use eligibility::Prices;
use std::array;

// What a step leaves of an exposure: is its position another, and what is its value short of its amount?
#[derive(Clone, Copy)]
pub struct Passed {
    pub moved: bool,
    pub missing: u64,
}

// Bonds of so many securities go back from an exposure's position into its giver's account. Are there any?
fn give_any_back(book: &mut Book, e: usize, nominals: &[u64; 64], count: u64) -> bool
    requires { GivingBack (state book.old) e nominals.now × (is_empty nominals.now ≡ eqb count 0) }
    ensures { (state book.new ≡ give_back (state book.old) e nominals.now) × (result ≡ moved (state book.old) (state book.new) e) }
{
    if count == 0 {
        return false;
    }
    bonds::give_back(book, e, nominals);
    true
}

// The whole nominal of a security that is not eligible, else nothing.
fn ineligible_nominal(position: &[u64; 64], columns: &[u64; 256], x: Eligibility, i: usize) -> u64
    requires { (i < 64) × AllInBounds columns.now }
    ensures { result ≡ ineligible_in position.now columns.now x i }
{
    let nominal = position[i];
    if nominal == 0 || baskets::is_eligible(x, columns, i) {
        0
    } else {
        nominal
    }
}

// The nominals of a position that are not eligible.
fn ineligible(position: &[u64; 64], columns: &[u64; 256], x: Eligibility) -> [u64; 64]
    requires { AllInBounds columns.now }
    ensures { result ≡ filled (ineligible_in position.now columns.now x) 64 64 }
{
    array::from_fn(|i| ineligible_nominal(position, columns, x, i))
}

// May what an exposure holds of security i stay? It is eligible, or nothing is held.
fn may_stay(book: &Book, columns: &[u64; 256], x: Eligibility, e: usize, i: usize) -> bool
    requires { (e < 64) × (i < 64) × AllInBounds columns.now }
    ensures { result ≡ may_stay (position_of (state book.now) e) columns.now x i }
{
    book::get(book, Table::Positions, 64 * e + i) == 0 || baskets::is_eligible(x, columns, i)
}

// May all that an exposure holds stay? Reads the position in the book without a copy: on most days nothing goes back.
fn may_all_stay(book: &Book, columns: &[u64; 256], x: Eligibility, e: usize) -> bool
    requires { (e < 64) × AllInBounds columns.now }
    ensures { result ≡ all (may_stay (position_of (state book.now) e) columns.now x) 64 0 }
{
    (0..64).all(|i| may_stay(book, columns, x, e, i))
}

// First pass: gives back what is not eligible. Was there anything?
pub fn give_ineligible(book: &mut Book, prices: &Prices, e: usize) -> bool
    requires { SoundBook book.old prices.now.columns × (e < 64) × FreshBaskets (state book.old) prices.now.since }
    ensures { Stepped ineligible_back prices.now.columns book.old book.new e result }
{
    if book::get(book, Table::InUse, e) != 1 {
        return false;
    }
    let x = eligibility::eligibility_of(book, &prices.since, e);
    if may_all_stay(book, &prices.columns, x, e) {
        return false;
    }
    let position = book::row_at(book, Table::Positions, 64 * e);
    let nominals = ineligible(&position, &prices.columns, x);
    bonds::give_back(book, e, &nominals);
    true
}

// Second pass: frees the position down to the exposure's amount. An exposure that is not used lacks nothing.
pub fn free_excess(book: &mut Book, columns: &[u64; 256], e: usize) -> Passed
    requires { SoundBook book.old columns.now × (e < 64) }
    ensures { Stepped excess_back columns.now book.old book.new e result.moved × (result.missing ≡ missing_of (state book.new) e) }
{
    if book::get(book, Table::InUse, e) != 1 {
        return Passed {
            moved: false,
            missing: 0,
        };
    }
    let position = book::row_at(book, Table::Positions, 64 * e);
    let amount = book::get(book, Table::ExposureAmounts, e);
    let freed = picking::free(&position, columns, amount);
    let moved = give_any_back(book, e, &freed.nominals, freed.count);
    Passed {
        moved,
        missing: amount.saturating_sub(freed.left),
    }
}

// Third pass: picks what is missing. A position is valued anew, each security at its whole nominal, where it took in.
pub fn search_missing(book: &mut Book, prices: &Prices, e: usize, missing: u64) -> Passed
    requires { SoundBook book.old prices.now.columns × (e < 64) × (missing ≡ missing_of (state book.old) e) × FreshBaskets (state book.old) prices.now.since }
    ensures { Stepped shortfall_in prices.now.columns book.old book.new e result.moved × (result.missing ≡ missing_of (state book.new) e) }
{
    if missing == 0 {
        return Passed {
            moved: false,
            missing,
        };
    }
    let found = bonds::pick_for(book, prices, e, missing);
    if found.count == 0 {
        return Passed {
            moved: false,
            missing,
        };
    }
    bonds::pledge(book, e, &found.nominals);
    let position = book::row_at(book, Table::Positions, 64 * e);
    let value = securities::worth_of(&position, &prices.columns);
    let exposure = book::get(book, Table::ExposureAmounts, e);
    Passed {
        moved: true,
        missing: exposure.saturating_sub(value),
    }
}
