// Rows of the book tested for nothing, or compared.
#![tactic(auto)]

ghost use Rattle.std.specs.Prelude.{◌≡◌, ◌<◌, ◌≤◌, ◌+◌, eqb};
ghost use Rattle.book.specs.Layout.{rows_of};
ghost use Rattle.book.specs.State.{state, rows_alike, row_blank};
ghost use Rattle.book.specs.Tables.{number, numbers_of};
ghost use Rattle.rules.specs.ByRow.{same};
ghost use Rattle.row_tests.specs.Bytes.{empty_bytes, empty_rows};
ghost use Rattle.row_tests.specs.Rows.{HaveRow};

use book::layout::Table;
use book::{Book, layout};

// Are all of some bytes 0? There is no way out on the way, so that the compiler takes sixteen bytes at a time.
pub fn are_empty(bytes: &[u8]) -> bool
    ensures { result ≡ empty_bytes bytes.now }
{
    let mut seen: u8 = 0;
    for byte in bytes {
        seen |= *byte;
    }
    seen == 0
}

// Do rows of a table hold nothing? They are bytes in a row.
pub fn are_rows_empty(book: &Book, table: Table, start: usize, n: usize) -> bool
    requires { (0 < n) × (start + n ≤ rows_of (number table)) }
    ensures { result ≡ empty_rows (state book.now) (number table) start n }
{
    let width = layout::width_of(table);
    let from = layout::base_of(table) + width * start;
    let to = from + width * n;
    are_empty(&book[from..to])
}

// Do two rows of a table hold the same? No `==` of two values: both stand in one book.
fn is_same(book: &Book, table: Table, i: usize, j: usize) -> bool
    requires { (i < rows_of (number table)) × (j < rows_of (number table)) }
    ensures { result ≡ same (state book.now) (number table) i j }
{
    book::get(book, table, i) == book::get(book, table, j)
}

// Does a row of a table hold nothing?
fn is_zero(book: &Book, table: Table, i: usize) -> bool
    requires { i < rows_of (number table) }
    ensures { result ≡ eqb (state book.now (number table) i) 0 }
{
    book::get(book, table, i) == 0
}

// Do two rows hold the same in each of some tables?
pub fn are_alike(book: &Book, tables: &[Table], i: usize, j: usize) -> bool
    requires { HaveRow i tables.now × HaveRow j tables.now }
    ensures { result ≡ rows_alike (state book.now) (numbers_of tables.now) i j }
{
    tables.iter().all(|table| is_same(book, *table, i, j))
}

// Does a row hold nothing in any of some tables?
pub fn is_blank(book: &Book, tables: &[Table], i: usize) -> bool
    requires { HaveRow i tables.now }
    ensures { result ≡ row_blank (state book.now) (numbers_of tables.now) i }
{
    tables.iter().all(|table| is_zero(book, *table, i))
}
