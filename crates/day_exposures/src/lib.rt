// Kind 12, next day: exposures whose closing date is reached are closed, and idle ones freed.
// An exposure is tested and changed in one pass: no test reads what the steps on those before it have changed.
#![tactic(auto)]

ghost use Rattle.std.specs.Prelude.{◌≡◌, true, ◌+◌, ◌*◌, ◌<◌, replicate};
ghost use Rattle.laws.specs.Search.{all};
ghost use Rattle.laws.specs.Sum.{sum};
ghost use Rattle.book.specs.Layout.{accounts, positions};
ghost use Rattle.book.specs.State.{state};
ghost use Rattle.rules.specs.DayChange.{is_exposure_closed, exposure_closed, exposures_closed, belongs, is_idle, exposure_freed, exposures_freed};
ghost use Rattle.rules.specs.Sound.{sound};
ghost use Rattle.rules.specs.Stock.{position_of, give_back};
ghost use Rattle.day_rows.specs.Parts.{tried};
ghost use Rattle.day_exposures.specs.Parts.{amount_closed, is_held, security_back, Entire, Closable, is_not_of, RowSlot, Marked, MarkedFor};

use book::Book;
use book::layout::{EXPOSURE_TABLES, Table};
use exposure_search::ExposureKey;
use record_kinds::Kind;

// Gives one security of a position back to its owner, where it is held.
fn give_security(book: &mut Book, owner: usize, e: usize, i: usize)
    requires { (owner < 32) × (e < 64) × (i < 64) × (state book.old accounts (64 * owner + i) + state book.old positions (64 * e + i) < 4294967296) }
    ensures { state book.new ≡ tried (is_held e) (security_back owner e) (state book.old) i }
{
    let nominal = book::get(book, Table::Positions, 64 * e + i);
    if nominal != 0 {
        let before = book::get(book, Table::Accounts, 64 * owner + i);
        book::set(book, Table::Accounts, 64 * owner + i, before + nominal);
        book::set(book, Table::Positions, 64 * e + i, 0);
    }
}

// Gives a whole position back. Most securities are not held: looking at each takes less time than adding rows of 64.
fn give_position(book: &mut Book, e: usize)
    requires { Entire (state book.old) e }
    ensures { state book.new ≡ give_back (state book.old) e (position_of (state book.old) e) }
{
    let owner = book::get(book, Table::ExposureGivers, e) as usize;
    for i in 0..64 {
        give_security(book, owner, e, i);
    }
}

// Closes an exposure whose closing date is reached, and gives its position back: the amount closed.
fn close_exposure(book: &mut Book, e: usize) -> u64
    requires { (e < 64) × Closable (state book.old) }
    ensures { (result ≡ amount_closed (state book.old) e) × (state book.new ≡ tried is_exposure_closed exposure_closed (state book.old) e) }
{
    if day_rows::is_exposure_closed(book, e) {
        let amount = book::get(book, Table::ExposureAmounts, e);
        give_position(book, e);
        book::set(book, Table::ExposureAmounts, e, 0);
        amount
    } else {
        0
    }
}

// Closes the exposures whose closing date is reached: the amounts closed.
pub fn close_exposures(book: &mut Book) -> u64
    requires { sound (state book.old) ≡ true }
    ensures { (result ≡ sum (amount_closed (state book.old)) 64) × (state book.new ≡ exposures_closed (state book.old)) }
{
    let mut closed: u64 = 0;
    for e in 0..64 {
        closed += close_exposure(book, e);
    }
    closed
}

// Does the row i belong to the exposure e: a return that names it, a FOP pair with its key?
fn does_belong(book: &Book, e: usize, i: usize) -> bool
    requires { (e < 64) × (i < 256) }
    ensures { result ≡ belongs (state book.now) e i }
{
    if book::get(book, Table::Numbers, i) == 0 {
        return false;
    }
    match Kind::try_from(book::get(book, Table::RequestKinds, i)) {
        Ok(Kind::Fop) => {
            book::get(book, Table::Partners, i) != 0
                && exposure_search::has_key(book, ExposureKey::of_request(book, i), e)
        }
        Ok(Kind::Return) => book::get(book, Table::BasketsOrExposures, i) == e as u64,
        _ => false,
    }
}

// Does no row belong to the exposure e?
fn does_none_belong(book: &Book, e: usize) -> bool
    requires { e < 64 }
    ensures { result ≡ all (is_not_of (state book.now) e) 256 0 }
{
    !(0..256).any(|i| does_belong(book, e, i))
}

// The slot of the exposure that a row belongs to. A row that belongs to none may have one too: only time depends on it.
fn row_slot(book: &Book, i: usize) -> Option<usize>
    requires { i < 256 }
    ensures { RowSlot (state book.now) i result }
{
    if book::get(book, Table::Numbers, i) == 0 {
        return None;
    }
    if book::get(book, Table::RequestKinds, i) == Kind::Return as u64 {
        let exposure = book::get(book, Table::BasketsOrExposures, i);
        if 64 <= exposure {
            return None;
        }
        return Some(exposure_search::slot_of(book, exposure as usize));
    }
    Some(ExposureKey::of_request(book, i).slot())
}

// Is there a used exposure of amount 0? Only time depends on it.
fn is_any_empty(book: &Book) -> bool {
    (0..64).any(|e| {
        book::get(book, Table::InUse, e) == 1 && book::get(book, Table::ExposureAmounts, e) == 0
    })
}

// Marks the slot of the exposure that a row belongs to.
fn mark_row(marks: &mut [bool; 1024], book: &Book, i: usize)
    requires { (i < 256) × Marked (state book.now) marks.old i }
    ensures { Marked (state book.now) marks.new (i + 1) }
{
    if let Some(slot) = row_slot(book, i) {
        marks[slot] = true;
    }
}

// Marks the slots of the exposures that rows belong to. Where no used exposure has amount 0, no mark is read, and all stay set.
fn mark_rows(marks: &mut [bool; 1024], book: &Book)
    requires { marks.old ≡ replicate 1024 true }
    ensures { Marked (state book.now) marks.new 256 }
{
    if !is_any_empty(book) {
        return;
    }
    *marks = [false; 1024];
    for i in 0..256 {
        mark_row(marks, book, i);
    }
}

// Is a used exposure of amount 0, with no row that belongs to it? The rows are looked through only where its slot is marked.
fn is_idle(book: &Book, marks: &[bool; 1024], e: usize) -> bool
    requires { (e < 64) × MarkedFor (state book.now) marks.now e }
    ensures { result ≡ is_idle (state book.now) e }
{
    if book::get(book, Table::InUse, e) != 1 {
        return false;
    }
    if book::get(book, Table::ExposureAmounts, e) != 0 {
        return false;
    }
    let slot = exposure_search::slot_of(book, e);
    if !marks[slot] {
        return true;
    }
    does_none_belong(book, e)
}

// Frees an exposure that is idle.
fn free_exposure(book: &mut Book, marks: &[bool; 1024], e: usize)
    requires { (e < 64) × MarkedFor (state book.old) marks.now e }
    ensures { state book.new ≡ tried is_idle exposure_freed (state book.old) e }
{
    if is_idle(book, marks, e) {
        day_rows::clear(book, &EXPOSURE_TABLES, e);
    }
}

// Frees the exposures that are idle.
pub fn free_exposures(book: &mut Book)
    ensures { state book.new ≡ exposures_freed (state book.old) }
{
    let mut marks = [true; 1024];
    mark_rows(&mut marks, book);
    for e in 0..64 {
        free_exposure(book, &marks, e);
    }
}
