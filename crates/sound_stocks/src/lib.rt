// Is what is held sound: positions in whole lots, a giver's accounts and positions within the limit?
// One pass over the positions tests both, and passes over nominals of 0.
#![tactic(auto)]

ghost use Rattle.std.specs.Prelude.{true, ◌≡◌, ◌+◌, ◌*◌, ◌<◌};
ghost use Rattle.laws.specs.Search.{all};
ghost use Rattle.book.specs.State.{state};
ghost use Rattle.rules.specs.ByRow.{sound_exposure};
ghost use Rattle.sound_stocks.specs.Stocks.{small_account, small_accounts, in_lots, sound_stocks, Stocking, Held, Adding, Judged};

use book::Book;
use book::layout::Table;
use limits::GREATEST_NOMINAL;

// Is what a participant has of one security in its account within the limit?
fn is_small_account(book: &Book, p: usize, i: usize) -> bool
    requires { (p < 32) × (i < 64) }
    ensures { result ≡ small_account (state book.now) p i }
{
    book::get(book, Table::Accounts, 64 * p + i) <= GREATEST_NOMINAL
}

fn are_small_accounts_of(book: &Book, p: usize) -> bool
    requires { p < 32 }
    ensures { result ≡ small_accounts (state book.now) p }
{
    if row_tests::are_rows_empty(book, Table::Accounts, 64 * p, 64) {
        return true;
    }
    (0..64).all(|i| is_small_account(book, p, i))
}

fn are_small_accounts(book: &Book) -> bool
    ensures { result ≡ all (small_accounts (state book.now)) 32 0 }
{
    (0..32).all(|p| are_small_accounts_of(book, p))
}

// Is a nominal in whole lots of a security that is set up?
fn is_in_lots(book: &Book, i: usize, nominal: u64) -> bool
    requires { i < 64 }
    ensures { result ≡ in_lots (state book.now) i nominal }
{
    let lot = book::get(book, Table::Lots, i);
    lot != 0 && nominal % lot == 0
}

// A nominal of an exposure e that may hold some: nothing, or whole lots with which its giver p stays within the limit. It is added
// to what p has in exposures: at 64 p + i is what p has of the security i.
fn is_sound_nominal(held: &mut [u32; 2048], book: &Book, p: usize, e: usize, i: usize) -> bool
    requires { (i < 64) × Adding (state book.now) p e i held.old }
    ensures { Judged (state book.now) result (Adding (state book.now) p e (i + 1) held.new) }
{
    let nominal = book::get(book, Table::Positions, 64 * e + i);
    if nominal == 0 {
        return true;
    }
    if !is_in_lots(book, i, nominal) {
        return false;
    }
    let at = 64 * p + i;
    let sum = u64::from(held[at]) + nominal;
    if GREATEST_NOMINAL < book::get(book, Table::Accounts, at) + sum {
        return false;
    }
    held[at] = sum as u32;
    true
}

// Four in a row: most positions are mostly empty, and four nominals of 0 are seen at once.
fn are_four_sound(held: &mut [u32; 2048], book: &Book, p: usize, e: usize, k: usize) -> bool
    requires { (k < 16) × Adding (state book.now) p e (4 * k) held.old }
    ensures { Judged (state book.now) result (Adding (state book.now) p e (4 * (k + 1)) held.new) }
{
    if row_tests::are_rows_empty(book, Table::Positions, 64 * e + 4 * k, 4) {
        return true;
    }
    let end = 4 * k + 4;
    for i in 4 * k..end {
        if !is_sound_nominal(held, book, p, e, i) {
            return false;
        }
    }
    true
}

fn are_sound_nominals(held: &mut [u32; 2048], book: &Book, p: usize, e: usize) -> bool
    requires { Stocking (state book.now) p e × Held (state book.now) e held.old }
    ensures { Judged (state book.now) result (Held (state book.now) (e + 1) held.new) }
{
    for k in 0..16 {
        if !are_four_sound(held, book, p, e, k) {
            return false;
        }
    }
    true
}

// The position of a sound exposure: one that is not used has the amount 0 too.
fn is_sound_stock(held: &mut [u32; 2048], book: &Book, e: usize) -> bool
    requires { (e < 64) × (sound_exposure (state book.now) e ≡ true) × Held (state book.now) e held.old }
    ensures { Judged (state book.now) result (Held (state book.now) (e + 1) held.new) }
{
    let amount = book::get(book, Table::ExposureAmounts, e);
    if amount == 0 {
        return row_tests::are_rows_empty(book, Table::Positions, 64 * e, 64);
    }
    let giver = book::get(book, Table::ExposureGivers, e);
    are_sound_nominals(held, book, giver as usize, e)
}

// Are positions and holdings sound, the exposures being so?
pub fn are_sound_stocks(book: &Book) -> bool
    requires { all (sound_exposure (state book.now)) 64 0 ≡ true }
    ensures { result ≡ sound_stocks (state book.now) }
{
    if !are_small_accounts(book) {
        return false;
    }
    let mut held = [0u32; 2048];
    for e in 0..64 {
        if !is_sound_stock(&mut held, book, e) {
            return false;
        }
    }
    true
}
