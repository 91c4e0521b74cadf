// Bonds on the book: moves between a giver's account and an exposure's position, and Pick and Free for an exposure.
#![tactic(auto)]

ghost use Rattle.std.specs.Prelude.{◌≡◌};
ghost use Rattle.book.specs.State.{state, columns_of};
ghost use Rattle.rules.specs.Stock.{pledge, give_back, eligible_for, pick_for, free_for};
ghost use Rattle.eligibility.specs.Fresh.{PricesOf};
ghost use Rattle.bonds.specs.Moves.{Pledging, GivingBack, Pickable, Freeable};

use book::Book;
use book::layout::Table;
use eligibility::Prices;
use picking::Outcome;

// Bonds go from the giver's account into the exposure's position.
pub fn pledge(book: &mut Book, e: usize, nominals: &[u64; 64])
    requires { Pledging (state book.old) e nominals.now }
    ensures { state book.new ≡ pledge (state book.old) e nominals.now }
{
    let giver = book::get(book, Table::ExposureGivers, e) as usize;
    book::lower(book, Table::Accounts, 64 * giver, nominals);
    book::raise(book, Table::Positions, 64 * e, nominals);
}

// Bonds go from the exposure's position back into the giver's account.
pub fn give_back(book: &mut Book, e: usize, nominals: &[u64; 64])
    requires { GivingBack (state book.old) e nominals.now }
    ensures { state book.new ≡ give_back (state book.old) e nominals.now }
{
    let owner = book::get(book, Table::ExposureGivers, e) as usize;
    book::lower(book, Table::Positions, 64 * e, nominals);
    book::raise(book, Table::Accounts, 64 * owner, nominals);
}

// Picks an amount for an exposure from its giver's account.
pub fn pick_for(book: &Book, prices: &Prices, e: usize, amount: u64) -> Outcome
    requires { Pickable (state book.now) e × PricesOf (state book.now) prices.now }
    ensures { result ≡ pick_for (state book.now) e (eligible_for (state book.now) e) amount }
{
    let giver = book::get(book, Table::ExposureGivers, e) as usize;
    let account = book::row_at(book, Table::Accounts, 64 * giver);
    let x = eligibility::eligibility_of(book, &prices.since, e);
    picking::pick_for(&account, &prices.columns, x, amount)
}

// Frees an exposure's position down to an amount, and gives the bonds back.
pub fn free_down(book: &mut Book, columns: &[u64; 256], e: usize, amount: u64)
    requires { Freeable (state book.old) e × (columns.now ≡ columns_of (state book.old)) }
    ensures { state book.new ≡ give_back (state book.old) e (free_for (state book.old) e amount).nominals }
{
    let position = book::row_at(book, Table::Positions, 64 * e);
    let freed = picking::free(&position, columns, amount);
    give_back(book, e, &freed.nominals);
}
