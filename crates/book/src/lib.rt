// The book's bytes as numbered tables: one function reads a number, one writes it, whichever table it stands in.
// With a table named by its constant the compiler makes one load or store of a call.
#![tactic(auto)]

ghost use Rattle.std.specs.Prelude.{◌≡◌, ◌+◌, ◌*◌, ◌^◌, ◌≤◌, ◌<◌};
ghost use Rattle.book.specs.Layout.{rows_of, width_of, base_of, book_length};
ghost use Rattle.book.specs.Row.{RowChangeable, Changed};
ghost use Rattle.book.specs.State.{state, put, row_at, columns_of, raised, lowered};
ghost use Rattle.book.specs.Tables.{number};
ghost use Rattle.book.specs.Fits.{Raisable, Lowerable};

pub mod layout;

use big_endian::{number_at, put_number};
use layout::Table;
use std::array;

// The book's bytes. Like all that works on it they have a fixed length: nothing uses the heap, so that a call needs no memory but the stack.
pub type Book = [u8; 49152];

// The number in the row i of a table.
pub fn get(book: &Book, table: Table, i: usize) -> u64
    requires { i < rows_of (number table) }
    ensures { result ≡ state book.now (number table) i }
{
    let at = layout::base_of(table);
    let w = layout::width_of(table);
    if w == 4 {
        number_at::<4>(book, at + 4 * i)
    } else {
        number_at::<8>(book, at + 8 * i)
    }
}

// Writes a number into the row i of a table; every other number stays.
pub fn set(book: &mut Book, table: Table, i: usize, x: u64)
    requires { (i < rows_of (number table)) × (x < 256 ^ width_of (number table)) }
    ensures { state book.new ≡ put (state book.old) (number table) i x }
{
    let at = layout::base_of(table);
    let w = layout::width_of(table);
    if w == 4 {
        put_number::<4>(book, at + 4 * i, x);
    } else {
        put_number::<8>(book, at + 8 * i, x);
    }
}

// The 64 numbers of a table from a row on.
pub fn row_at(book: &Book, table: Table, start: usize) -> [u64; 64]
    requires { start + 64 ≤ rows_of (number table) }
    ensures { result ≡ row_at (state book.now) (number table) start }
{
    array::from_fn(|i| get(book, table, start + i))
}

// The securities' four columns: lots, prices, haircuts, quote days.
pub fn columns(book: &Book) -> [u64; 256]
    ensures { result ≡ columns_of (state book.now) }
{
    array::from_fn(|k| number_at::<4>(book, 12 + 4 * k))
}

// Where 64 numbers of a table of four bytes a row begin.
fn row_place(table: Table, start: usize) -> usize
    requires { (width_of (number table) ≡ 4) × (start + 64 ≤ rows_of (number table)) }
    ensures { (result ≡ base_of (number table) + 4 * start) × (result + 256 ≤ book_length) }
{
    layout::base_of(table) + 4 * start
}

// Changes each of 64 numbers of four bytes by the number of a list.
fn change_row<F: Fn(u64, u64) -> u64>(row: &mut [u8], by: &[u64; 64], change: F)
    requires { RowChangeable (F.pre change) (F.post change) row.old by.now }
    ensures { Changed (F.post change) row.old by.now 64 row.new }
{
    for i in 0..64 {
        let x = change(number_at::<4>(row, 4 * i), by[i]);
        put_number::<4>(row, 4 * i, x);
    }
}

// Adds to the 64 numbers of an account or a position: the row is handed on by itself to be written.
pub fn raise(book: &mut Book, table: Table, start: usize, by: &[u64; 64])
    requires { (width_of (number table) ≡ 4) × (start + 64 ≤ rows_of (number table)) × Raisable (state book.old) (number table) start by.now }
    ensures { state book.new ≡ raised (state book.old) (number table) start by.now }
{
    let a = row_place(table, start);
    let e = a + 256;
    change_row(&mut book[a..e], by, |held, more| held + more);
}

// Takes from the 64 numbers of an account or a position: the row is handed on by itself to be written.
pub fn lower(book: &mut Book, table: Table, start: usize, by: &[u64; 64])
    requires { (width_of (number table) ≡ 4) × (start + 64 ≤ rows_of (number table)) × Lowerable (state book.old) (number table) start by.now }
    ensures { state book.new ≡ lowered (state book.old) (number table) start by.now }
{
    let a = row_place(table, start);
    let e = a + 256;
    change_row(&mut book[a..e], by, |held, less| held - less);
}
