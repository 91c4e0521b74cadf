// What a request or a cancel looks for in the book: acceptance, the earliest equal request, free rows, the owner's request.
// It takes fields and asks `RequestIn` of them; a `Record` would ask its callers for more.
#![tactic(auto)]

ghost use Rattle.std.specs.Prelude.{◌≡◌, not, ◌&&◌, ◌<◌, ◌≤◌, eqb};
ghost use Rattle.laws.specs.Search.{least};
ghost use Rattle.laws.specs.Found.{found};
ghost use Rattle.book.specs.Layout.{rows_of};
ghost use Rattle.book.specs.State.{state};
ghost use Rattle.book.specs.Tables.{number};
ghost use Rattle.rules.specs.Requests.{is_live, is_paired, is_owner, accepts_giver, free_exposure, free_row};
ghost use Rattle.rules.specs.Requesting.{taker_follows, is_equal, earliest_equal, exposure_of, is_own_request, own_request};
ghost use Rattle.rules.specs.Fields.{closing_in};
ghost use Rattle.request_search.specs.Ranges.{RequestIn};
ghost use Rattle.request_search.specs.Rows.{rows_free, same_terms, other_side, open_or_whole, first_empty};

use book::Book;
use book::layout::Table;
use exposure_search::ExposureKey;
use record_kinds::{Fields, Kind};

// Is the taker automatic, or does it list the giver? The mode is a number of the book, as is the side below: an enum would need a way out
// for numbers that only an unsound book holds.
pub fn accepts_giver(book: &Book, taker: usize, giver: u64) -> bool
    requires { (taker < 32) × (giver < 64) }
    ensures { result ≡ accepts_giver (state book.now) taker giver }
{
    match book::get(book, Table::Modes, taker) {
        1 => true,
        2 => baskets::has_bit(book::get(book, Table::Lists, taker), giver),
        _ => false,
    }
}

// Is a taker request made for this one?
pub fn does_taker_follow(book: &Book, fields: &Fields) -> bool
    requires { RequestIn fields.now }
    ensures { result ≡ taker_follows (state book.now) fields.now }
{
    fields[0] == 0 && accepts_giver(book, fields[2] as usize, fields[1])
}

// The closing day of a record; a return has none. A kind is looked for by its number here and below, as the rows have it.
pub fn closing_in(kind: u64, fields: &Fields) -> u64
    ensures { result ≡ closing_in kind fields.now }
{
    if kind == Kind::Fop as u64 {
        fields[6]
    } else {
        0
    }
}

// Has the row i the record's basket or exposure, amount and days? The amount comes first: it differs most.
fn has_terms(book: &Book, kind: u64, fields: &Fields, i: usize) -> bool
    requires { i < 256 }
    ensures { result ≡ same_terms (state book.now) kind fields.now i }
{
    book::get(book, Table::Amounts, i) == fields[4]
        && book::get(book, Table::Settlements, i) == fields[5]
        && book::get(book, Table::BasketsOrExposures, i) == fields[3]
        && book::get(book, Table::Closings, i) == closing_in(kind, fields)
}

// Is the row i equal to the record in all fields but side and reference, and of the other side?
fn is_other_side(book: &Book, kind: u64, fields: &Fields, i: usize) -> bool
    requires { RequestIn fields.now × (i < 256) }
    ensures { result ≡ other_side (state book.now) kind fields.now i }
{
    has_terms(book, kind, fields, i)
        && book::get(book, Table::Givers, i) == fields[1]
        && book::get(book, Table::Takers, i) == fields[2]
        && book::get(book, Table::RequestKinds, i) == kind
        && book::get(book, Table::Sides, i) == 1 - fields[0]
}

// Does the row i hold a live request that is not paired?
fn is_waiting(book: &Book, i: usize) -> bool
    requires { i < 256 }
    ensures { result ≡ (is_live (state book.now) i && not (is_paired (state book.now) i)) }
{
    book::get(book, Table::Numbers, i) != 0
        && book::get(book, Table::Partners, i) == 0
        && book::get(book, Table::Ends, i) == 0
        && book::get(book, Table::SettledAmounts, i) < book::get(book, Table::Amounts, i)
}

// May the record pair with the row i?
fn is_equal(book: &Book, kind: u64, fields: &Fields, i: usize) -> bool
    requires { RequestIn fields.now × (i < 256) }
    ensures { result ≡ is_equal (state book.now) kind fields.now i }
{
    is_other_side(book, kind, fields, i) && is_waiting(book, i)
}

// The row of the earliest request that the record may pair with: the one with the lowest number.
pub fn earliest_equal(book: &Book, kind: u64, fields: &Fields) -> Option<usize>
    requires { RequestIn fields.now }
    ensures { result ≡ found 256 (earliest_equal (state book.now) kind fields.now) }
{
    (0..256)
        .filter(|i| is_equal(book, kind, fields, *i))
        .min_by_key(|i| book::get(book, Table::Numbers, *i))
}

// The first of a table's rows below n that holds 0.
fn first_empty(book: &Book, table: Table, n: usize) -> Option<usize>
    requires { n ≤ rows_of (number table) }
    ensures { result ≡ found n (first_empty (state book.now) (number table) n) }
{
    (0..n).find(|i| book::get(book, table, *i) == 0)
}

// The lowest request row that is not used.
pub fn free_row(book: &Book) -> Option<usize>
    ensures { result ≡ found 256 (free_row (state book.now)) }
{
    first_empty(book, Table::Numbers, 256)
}

// How many request rows are not used.
pub fn free_rows(book: &Book) -> u64
    ensures { result ≡ rows_free (state book.now) }
{
    (0..256)
        .filter(|i| book::get(book, Table::Numbers, *i) == 0)
        .count() as u64
}

// The lowest exposure row that is not used.
pub fn free_exposure(book: &Book) -> Option<usize>
    ensures { result ≡ found 64 (free_exposure (state book.now)) }
{
    first_empty(book, Table::InUse, 64)
}

// The used exposure that a FOP belongs to: the one with its key.
pub fn exposure_of(book: &Book, fields: &Fields) -> Option<usize>
    ensures { result ≡ found 64 (exposure_of (state book.now) fields.now) }
{
    let key = ExposureKey {
        giver: fields[1],
        taker: fields[2],
        basket: fields[3],
        closing: fields[6],
    };
    exposure_search::exposure_with(book, key)
}

// Has the request not ended, or has it settled whole?
fn is_open_or_whole(book: &Book, i: usize) -> bool
    requires { i < 256 }
    ensures { result ≡ open_or_whole (state book.now) i }
{
    book::get(book, Table::Ends, i) == 0
        || book::get(book, Table::Amounts, i) <= book::get(book, Table::SettledAmounts, i)
}

// Is the participant the request's owner: the giver of side 0, the taker of side 1?
fn is_owner(book: &Book, i: usize, p: u64) -> bool
    requires { i < 256 }
    ensures { result ≡ is_owner (state book.now) i p }
{
    match book::get(book, Table::Sides, i) {
        0 => book::get(book, Table::Givers, i) == p,
        1 => book::get(book, Table::Takers, i) == p,
        _ => false,
    }
}

// Is the row i the participant's request of that number, live or settled whole?
fn is_own_request(book: &Book, p: u64, number: u64, i: usize) -> bool
    requires { i < 256 }
    ensures { result ≡ is_own_request (state book.now) p number i }
{
    let found = book::get(book, Table::Numbers, i);
    found == number && found != 0 && is_open_or_whole(book, i) && is_owner(book, i, p)
}

// The row of the request that a cancel names.
pub fn own_request(book: &Book, p: u64, number: u64) -> Option<usize>
    ensures { result ≡ found 256 (own_request (state book.now) p number) }
{
    (0..256).find(|i| is_own_request(book, p, number, *i))
}
