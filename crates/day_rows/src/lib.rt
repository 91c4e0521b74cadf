// Kind 12, next day: the request rows that its passes drop.
// A row is tested and dropped in one walk: no test reads what the rows before it have lost.
#![tactic(auto)]

ghost use Rattle.std.specs.Prelude.{◌≡◌, true, ◌<◌};
ghost use Rattle.laws.specs.Search.{count};
ghost use Rattle.book.specs.State.{state, clear_row};
ghost use Rattle.rules.specs.DayChange.{row_dropped, rows_dropped, is_done, is_reached, is_closed_fop, is_exposure_closed, is_closed_return};
ghost use Rattle.rules.specs.Sound.{sound};
ghost use Rattle.row_tests.specs.Rows.{HaveRow};
ghost use Rattle.book.specs.Tables.{numbers_of};
ghost use Rattle.day_rows.specs.Parts.{tried, drops, ReturnNamed};

use book::Book;
use book::layout::Table;
use record_kinds::Kind;

// The passes that drop rows. A closure in its place would name the same three definitions in its contract.
#[derive(Clone, Copy)]
pub enum Pass {
    Done,
    ClosedFops,
    ClosedReturns,
}

// Has a row settled or ended, or waited unpaired up to today?
fn is_done(book: &Book, i: usize) -> bool
    requires { i < 256 }
    ensures { result ≡ is_done (state book.now) i }
{
    if book::get(book, Table::Numbers, i) == 0 {
        return false;
    }
    if book::get(book, Table::Amounts, i) <= book::get(book, Table::SettledAmounts, i) {
        return true;
    }
    if book::get(book, Table::Ends, i) == 1 {
        return true;
    }
    if book::get(book, Table::Partners, i) != 0 {
        return false;
    }
    book::get(book, Table::Settlements, i) <= book::get(book, Table::Today, 0)
}

// Is a closing date reached?
fn is_reached(book: &Book, closing: u64) -> bool
    ensures { result ≡ is_reached (state book.now) closing }
{
    if closing == 0 {
        return false;
    }
    closing <= book::get(book, Table::Today, 0)
}

// Is a row one of a FOP pair, and its closing date reached? The date goes first: few are reached.
fn is_closed_fop(book: &Book, i: usize) -> bool
    requires { i < 256 }
    ensures { result ≡ is_closed_fop (state book.now) i }
{
    if !is_reached(book, book::get(book, Table::Closings, i)) {
        return false;
    }
    if book::get(book, Table::RequestKinds, i) != Kind::Fop as u64 {
        return false;
    }
    if book::get(book, Table::Partners, i) == 0 {
        return false;
    }
    book::get(book, Table::Numbers, i) != 0
}

// Is an exposure used, and its closing date reached?
pub fn is_exposure_closed(book: &Book, e: usize) -> bool
    requires { e < 64 }
    ensures { result ≡ is_exposure_closed (state book.now) e }
{
    if book::get(book, Table::InUse, e) != 1 {
        return false;
    }
    is_reached(book, book::get(book, Table::ExposureClosings, e))
}

// Is a row a return, and the exposure that it names closed?
fn is_closed_return(book: &Book, i: usize) -> bool
    requires { (i < 256) × ReturnNamed (state book.now) i }
    ensures { result ≡ is_closed_return (state book.now) i }
{
    if book::get(book, Table::RequestKinds, i) != Kind::Return as u64 {
        return false;
    }
    if book::get(book, Table::Numbers, i) == 0 {
        return false;
    }
    is_exposure_closed(book, book::get(book, Table::BasketsOrExposures, i) as usize)
}

// Does a pass drop a row?
fn is_dropped(book: &Book, pass: Pass, i: usize) -> bool
    requires { (i < 256) × ReturnNamed (state book.now) i }
    ensures { result ≡ drops pass (state book.now) i }
{
    match pass {
        Pass::Done => is_done(book, i),
        Pass::ClosedFops => is_closed_fop(book, i),
        Pass::ClosedReturns => is_closed_return(book, i),
    }
}

// Makes a row hold nothing in each of some tables.
pub fn clear(book: &mut Book, tables: &[Table], i: usize)
    requires { HaveRow i tables.now }
    ensures { state book.new ≡ clear_row (state book.old) (numbers_of tables.now) i }
{
    for table in tables {
        book::set(book, *table, i, 0);
    }
}

// Makes a request row hold nothing. Table by table: with a list of them each write would look up its table.
fn clear_request(book: &mut Book, i: usize)
    requires { i < 256 }
    ensures { state book.new ≡ row_dropped (state book.old) i }
{
    book::set(book, Table::Numbers, i, 0);
    book::set(book, Table::RequestKinds, i, 0);
    book::set(book, Table::Sides, i, 0);
    book::set(book, Table::Givers, i, 0);
    book::set(book, Table::Takers, i, 0);
    book::set(book, Table::BasketsOrExposures, i, 0);
    book::set(book, Table::Amounts, i, 0);
    book::set(book, Table::Settlements, i, 0);
    book::set(book, Table::Closings, i, 0);
    book::set(book, Table::References, i, 0);
    book::set(book, Table::SettledAmounts, i, 0);
    book::set(book, Table::Partners, i, 0);
    book::set(book, Table::PairPartials, i, 0);
    book::set(book, Table::Cancels, i, 0);
    book::set(book, Table::Ends, i, 0);
}

// Drops a row that is to be dropped; was it?
fn drop_row(book: &mut Book, pass: Pass, i: usize) -> bool
    requires { (i < 256) × ReturnNamed (state book.old) i }
    ensures { (result ≡ drops pass (state book.old) i) × (state book.new ≡ tried (drops pass) row_dropped (state book.old) i) }
{
    let dropped = is_dropped(book, pass, i);
    if dropped {
        clear_request(book, i);
    }
    dropped
}

// Drops the rows that a pass drops: how many they are.
pub fn drop_rows(book: &mut Book, pass: Pass) -> u64
    requires { sound (state book.old) ≡ true }
    ensures { (result ≡ count (drops pass (state book.old)) 256 0) × (state book.new ≡ rows_dropped (drops pass) (state book.old)) }
{
    let mut dropped: u64 = 0;
    for i in 0..256 {
        dropped += u64::from(drop_row(book, pass, i));
    }
    dropped
}
