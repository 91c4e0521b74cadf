// A recall without the book being touched: the substitutes, and whether it is accepted.
#![tactic(auto)]

ghost use Rattle.std.specs.Prelude.{◌≡◌, ◌≤◌};
ghost use Rattle.book.specs.State.{state, columns_of};
ghost use Rattle.rules.specs.Marking.{substitutes, substituted, recall_accepted};
ghost use Rattle.rules.specs.Fields.{field};
ghost use Rattle.rules.specs.Stock.{value_of};
ghost use Rattle.securities.specs.Position.{nominals_of};
ghost use Rattle.securities.specs.Bounds.{Within};
ghost use Rattle.marking_laws.specs.Recalled.{added, account_after, position_left};
ghost use Rattle.substitution.specs.Recalling.{Recalling};

use book::Book;
use book::layout::Table;
use picking::Outcome;
use records::record::Record;
use std::array;

// The giver's account with the nominal that is recalled.
fn account_after(book: &Book, record: &Record) -> [u64; 64]
    requires { Recalling book.now record.now }
    ensures { result ≡ account_after (state book.now) record.now.fields }
{
    let giver = book::get(book, Table::ExposureGivers, record.fields[1] as usize) as usize;
    let mut account = book::row_at(book, Table::Accounts, 64 * giver);
    let i = record.fields[2] as usize;
    account[i] += record.fields[3];
    account
}

// The exposure's position without it.
fn position_left(book: &Book, record: &Record) -> [u64; 64]
    requires { Recalling book.now record.now }
    ensures { result ≡ position_left (state book.now) record.now.fields }
{
    let mut position = book::row_at(book, Table::Positions, 64 * record.fields[1] as usize);
    let i = record.fields[2] as usize;
    position[i] -= record.fields[3];
    position
}

// The substitutes: what is missing without the nominal, picked from the account with it, that security left out.
pub fn substitutes(book: &Book, columns: &[u64; 256], record: &Record) -> Outcome
    requires { Recalling book.now record.now × (columns.now ≡ columns_of (state book.now)) }
    ensures { result ≡ substitutes (state book.now) record.now.fields }
{
    let e = record.fields[1] as usize;
    let left = position_left(book, record);
    let value = securities::worth_of(&left, columns);
    let missing = book::get(book, Table::ExposureAmounts, e).saturating_sub(value);
    let account = account_after(book, record);
    let basket = eligibility::basket_of(book, e);
    let today = book::get(book, Table::Today, 0);
    let x = baskets::eligibility_on(basket, today, columns);
    picking::pick(
        &account,
        columns,
        x,
        Some(record.fields[2] as usize),
        missing,
    )
}

// Two times 64 nominals, added.
fn add_nominals(nominals: &[u64; 64], by: &[u64; 64]) -> [u64; 64]
    requires { Within (nominals_of (added nominals.now by.now)) }
    ensures { result ≡ added nominals.now by.now }
{
    array::from_fn(|i| nominals[i] + by[i])
}

// The value of the exposure's position after the recall: of what is left with the substitutes.
fn value_after(book: &Book, columns: &[u64; 256], record: &Record) -> u64
    requires { Recalling book.now record.now × (columns.now ≡ columns_of (state book.now)) }
    ensures { (result ≡ value_of (substituted (state book.now) record.now.fields) (field record.now.fields 1)) × (result ≤ 9600000000000) }
{
    let left = position_left(book, record);
    let found = substitutes(book, columns, record);
    let position = add_nominals(&left, &found.nominals);
    securities::worth_of(&position, columns)
}

// Is the value after the recall, with the tolerance, above the exposure, or no lower than before?
pub fn is_accepted(book: &Book, record: &Record) -> bool
    requires { Recalling book.now record.now }
    ensures { result ≡ recall_accepted (state book.now) record.now.fields }
{
    let columns = book::columns(book);
    let after = value_after(book, &columns, record);
    let e = record.fields[1] as usize;
    if book::get(book, Table::ExposureAmounts, e) < after + book::get(book, Table::Tolerance, 0) {
        return true;
    }
    let position = book::row_at(book, Table::Positions, 64 * e);
    securities::worth_of(&position, &columns) <= after
}
