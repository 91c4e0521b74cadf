// Are all request rows sound: used ones by their fields and pairs, the others by holding nothing?
#![tactic(auto)]

ghost use Rattle.std.specs.Prelude.{true, ◌≡◌, ◌*◌, ◌<◌};
ghost use Rattle.laws.specs.Search.{all};
ghost use Rattle.book.specs.Layout.{numbers, request_tables};
ghost use Rattle.book.specs.State.{state, row_blank};
ghost use Rattle.rules.specs.ByRow.{sound_row};
ghost use Rattle.row_tests.specs.Rows.{HaveRow};
ghost use Rattle.book.specs.Tables.{numbers_of};
ghost use Rattle.sound_requests.specs.Rows.{Later, Passed, empty_tables};

use book::Book;
use book::layout::{REQUEST_TABLES, Table};
use open_days::OpenDays;
use sound_fields::Request;

// A used row that is not the later one of a pair.
fn is_sound_first(book: &Book, hints: &[u8; 1024], days: &OpenDays, i: usize) -> bool
    requires { (i < 256) × (0 < state book.now numbers i) }
    ensures { result ≡ sound_row (state book.now) i }
{
    let q = Request::at(book, i);
    sound_fields::are_sound_fields(book, q, days) && sound_pairs::is_sound_rest(book, hints, q)
}

// The later row i of a pair whose earlier row j is sound: where they name each other, all that they have in common is sound.
fn is_sound_later(book: &Book, i: usize, j: usize) -> bool
    requires { (i < 256) × (j < 256) × Later (state book.now) i j }
    ensures { result ≡ sound_row (state book.now) i }
{
    if book::get(book, Table::Partners, j) != i as u64 + 1 {
        return false;
    }
    book::get(book, Table::Numbers, i) < book::get(book, Table::NextNumber, 0)
        && book::get(book, Table::Cancels, i) <= 1
}

// `REQUEST_TABLES` in two parts, each short enough for the compiler to unroll a loop over it.
const FIRST_TABLES: [Table; 7] = [
    Table::Numbers,
    Table::RequestKinds,
    Table::Sides,
    Table::Givers,
    Table::Takers,
    Table::BasketsOrExposures,
    Table::Amounts,
];

const LAST_TABLES: [Table; 8] = [
    Table::Settlements,
    Table::Closings,
    Table::References,
    Table::SettledAmounts,
    Table::Partners,
    Table::PairPartials,
    Table::Cancels,
    Table::Ends,
];

// Does a row hold nothing? By one list of all fifteen tables, which is not unrolled, a book whose used rows are far apart takes more than
// twice as long.
fn is_blank_row(book: &Book, i: usize) -> bool
    requires { i < 256 }
    ensures { result ≡ row_blank (state book.now) request_tables i }
{
    row_tests::is_blank(book, &FIRST_TABLES, i) && row_tests::is_blank(book, &LAST_TABLES, i)
}

// Do sixteen rows hold nothing, in each of some tables?
fn are_tables_empty(book: &Book, tables: &[Table], k: usize) -> bool
    requires { (k < 16) × HaveRow 255 tables.now }
    ensures { result ≡ empty_tables (state book.now) (numbers_of tables.now) k }
{
    tables.iter().all(|table| row_tests::are_rows_empty(book, *table, 16 * k, 16))
}

fn is_sound_row(book: &Book, hints: &[u8; 1024], days: &OpenDays, i: usize) -> bool
    requires { (i < 256) × Passed (state book.now) i }
    ensures { result ≡ sound_row (state book.now) i }
{
    // The mark by itself, not `partners::partner_of`: both fields are read at once, before the tests, for speed.
    let number = book::get(book, Table::Numbers, i);
    let partner = book::get(book, Table::Partners, i);
    if number == 0 {
        return is_blank_row(book, i);
    }
    if partner != 0 && partner <= i as u64 {
        return is_sound_later(book, i, (partner - 1) as usize);
    }
    is_sound_first(book, hints, days, i)
}

// Puts the days of a sound row among those at hand.
fn note_days(days: &mut OpenDays, book: &Book, i: usize)
    requires { (i < 256) × (sound_row (state book.now) i ≡ true) }
{
    days.note_open_or_none(book::get(book, Table::Settlements, i));
    days.note_open_or_none(book::get(book, Table::Closings, i));
}

// Sixteen rows, one after the other: those before are sound.
fn are_each_sound(book: &Book, hints: &[u8; 1024], days: &mut OpenDays, k: usize) -> bool
    requires { (k < 16) × Passed (state book.now) (16 * k) }
    ensures { result ≡ all (sound_row (state book.now)) 16 (16 * k) }
{
    let end = 16 * k + 16;
    for i in 16 * k..end {
        if !is_sound_row(book, hints, days, i) {
            return false;
        }
        note_days(days, book, i);
    }
    true
}

// The same: where none of the sixteen is used, table by table, each with sixteen bytes at a time.
fn are_sixteen_sound(book: &Book, hints: &[u8; 1024], days: &mut OpenDays, k: usize) -> bool
    requires { (k < 16) × Passed (state book.now) (16 * k) }
    ensures { result ≡ all (sound_row (state book.now)) 16 (16 * k) }
{
    if row_tests::are_rows_empty(book, Table::Numbers, 16 * k, 16) {
        return are_tables_empty(book, &REQUEST_TABLES, k);
    }
    are_each_sound(book, hints, days, k)
}

pub fn are_sound_rows(book: &Book) -> bool
    ensures { result ≡ all (sound_row (state book.now)) 256 0 }
{
    let mut hints = [0u8; 1024];
    exposure_search::put_hints(&mut hints, book);
    let mut days = OpenDays::new();
    for k in 0..16 {
        if !are_sixteen_sound(book, &hints, &mut days, k) {
            return false;
        }
    }
    true
}
