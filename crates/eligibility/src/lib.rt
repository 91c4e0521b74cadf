// Which securities are eligible for an exposure's basket today, read from the book.
#![tactic(auto)]

ghost use Rattle.std.specs.Prelude.{◌≡◌, ◌<◌, ◌≤◌};
ghost use Rattle.baskets.specs.Fresh.{EligibilityFor};
ghost use Rattle.book.specs.Layout.{today, exposure_baskets};
ghost use Rattle.book.specs.State.{state, columns_of};
ghost use Rattle.rules.specs.Stock.{basket_of};
ghost use Rattle.eligibility.specs.Fresh.{Aged, FreshBaskets, PricesOf};

use baskets::{Basket, Eligibility};
use book::Book;
use book::layout::Table;
use std::array;

// The map and greatest age of an exposure's basket.
pub fn basket_of(book: &Book, e: usize) -> Basket
    requires { (e < 64) × (state book.now exposure_baskets e < 16) }
    ensures { result ≡ basket_of (state book.now) e }
{
    let b = book::get(book, Table::ExposureBaskets, e) as usize;
    Basket {
        map: book::get(book, Table::Maps, b),
        oldest: book::get(book, Table::GreatestAges, b),
    }
}

// The greatest age that a basket takes a price of.
fn greatest_age(book: &Book) -> u64
    requires { Aged 255 16 (state book.now) }
    ensures { Aged result 16 (state book.now) × (result ≤ 255) }
{
    let mut most: u64 = 0;
    for b in 0..16 {
        most = most.max(book::get(book, Table::GreatestAges, b));
    }
    most
}

// The first day of a fresh price for each basket.
fn fresh_since(book: &Book, columns: &[u64; 256]) -> [u64; 16]
    requires { Aged 255 16 (state book.now) × (columns.now ≡ columns_of (state book.now)) }
    ensures { FreshBaskets (state book.now) result }
{
    let most = greatest_age(book) as usize;
    let days = baskets::fresh_days(columns, book::get(book, Table::Today, 0), most);
    array::from_fn(|b| days[book::get(book, Table::GreatestAges, b) as usize])
}

// What the prices in the book are worth today, found once for all steps of a call: the securities' columns, and the first day of a
// fresh price for each basket.
#[derive(Clone, Copy)]
pub struct Prices {
    pub columns: [u64; 256],
    pub since: [u64; 16],
}

impl Prices {
    // As the book stands.
    pub fn of(book: &Book) -> Prices
        requires { Aged 255 16 (state book.now) }
        ensures { PricesOf (state book.now) result }
    {
        let columns = book::columns(book);
        let since = fresh_since(book, &columns);
        Prices { columns, since }
    }
}

// Which securities are eligible for an exposure, by the first fresh days.
pub fn eligibility_of(book: &Book, since: &[u64; 16], e: usize) -> Eligibility
    requires { (e < 64) × (state book.now exposure_baskets e < 16) × FreshBaskets (state book.now) since.now }
    ensures { EligibilityFor (basket_of (state book.now) e) (state book.now today 0) (columns_of (state book.now)) result }
{
    let b = book::get(book, Table::ExposureBaskets, e) as usize;
    let map = book::get(book, Table::Maps, b);
    let since = since[b];
    Eligibility { map, since }
}
