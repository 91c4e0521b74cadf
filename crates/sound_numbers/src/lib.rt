// Are the request numbers distinct?
#![tactic(auto)]

ghost use Rattle.std.specs.Prelude.{◌≡◌, ◌+◌, ◌<◌};
ghost use Rattle.laws.specs.Search.{all};
ghost use Rattle.book.specs.State.{state};
ghost use Rattle.rules.specs.ByRow.{differs, distinct_number};
ghost use Rattle.sound_numbers.specs.Numbers.{Marked};

use book::Book;
use book::layout::Table;
use std::mem;

fn differ(book: &Book, i: usize, j: usize) -> bool
    requires { (i < 256) × (j < 256) }
    ensures { result ≡ differs (state book.now) i j }
{
    book::get(book, Table::Numbers, i) != book::get(book, Table::Numbers, j)
}

fn is_distinct_number(book: &Book, i: usize) -> bool
    requires { i < 256 }
    ensures { result ≡ distinct_number (state book.now) i }
{
    book::get(book, Table::Numbers, i) == 0 || (0..i).all(|j| differ(book, i, j))
}

// The same by the marks: a number whose slot is not marked differs from all before. Its slot is marked then.
// The marks are an array of their own: a struct around it would rename its index and no more. What this shares with the marks of
// `sound_exposures` is `mem::replace`: the table, the slot and the test differ.
fn is_new_number(marks: &mut [bool; 4096], book: &Book, i: usize) -> bool
    requires { (i < 256) × Marked (state book.now) marks.old i }
    ensures { (result ≡ distinct_number (state book.now) i) × Marked (state book.now) marks.new (i + 1) }
{
    let number = book::get(book, Table::Numbers, i);
    if number == 0 {
        return true;
    }
    let slot = (number % 4096) as usize;
    !mem::replace(&mut marks[slot], true) || is_distinct_number(book, i)
}

// "Request numbers are distinct", of all rows.
pub fn are_distinct_numbers(book: &Book) -> bool
    ensures { result ≡ all (distinct_number (state book.now)) 256 0 }
{
    let mut marks = [false; 4096];
    for i in 0..256 {
        if !is_new_number(&mut marks, book, i) {
            return false;
        }
    }
    true
}
