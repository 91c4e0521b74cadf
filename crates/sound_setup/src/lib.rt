// Is what is set up sound: the book's head, securities, participants, baskets, spare rows?
#![tactic(auto)]

ghost use Rattle.std.specs.Prelude.{true, ◌≡◌, ◌<◌};
ghost use Rattle.laws.specs.Search.{all};
ghost use Rattle.book.specs.Layout.{spares, rows_of};
ghost use Rattle.book.specs.State.{state};
ghost use Rattle.rules.specs.ByRow.{sound_head, sound_security, sound_profile, sound_participant, sound_basket, sound_parties, basket_named, is_spare};

use book::Book;
use book::layout::Table;
use limits::{GREATEST_HAIRCUT, GREATEST_LOT, GREATEST_NEXT, GREATEST_PRICE, GREATEST_TOLERANCE};
use open_days::OpenDays;

// The head: an open today, a tolerance and a next number in their ranges.
pub fn is_sound_head(book: &Book) -> bool
    ensures { result ≡ sound_head (state book.now) }
{
    calendar::is_open(book::get(book, Table::Today, 0))
        && (1..=GREATEST_TOLERANCE).contains(&book::get(book, Table::Tolerance, 0))
        && (1..=GREATEST_NEXT).contains(&book::get(book, Table::NextNumber, 0))
}

// The ranges of `securities::is_legal`, which judges numbers that C lends; here they are the book's bytes, and an open quote day is asked too.
fn is_sound_security(book: &Book, i: usize, days: &OpenDays) -> bool
    requires { i < 64 }
    ensures { result ≡ sound_security (state book.now) i }
{
    let lot = book::get(book, Table::Lots, i);
    let price = book::get(book, Table::Prices, i);
    let haircut = book::get(book, Table::Haircuts, i);
    let quote = book::get(book, Table::QuoteDays, i);
    if lot == 0 {
        return price == 0 && haircut == 0 && quote == 0;
    }
    lot <= GREATEST_LOT
        && (1..=GREATEST_PRICE).contains(&price)
        && haircut <= GREATEST_HAIRCUT
        && days.is_open(quote)
}

// Puts the quote day of a sound security among those at hand.
fn note_quote(days: &mut OpenDays, book: &Book, i: usize)
    requires { (i < 64) × (sound_security (state book.now) i ≡ true) }
{
    let quote = book::get(book, Table::QuoteDays, i);
    if book::get(book, Table::Lots, i) != 0 {
        days.note(quote);
    }
}

pub fn are_sound_securities(book: &Book) -> bool
    ensures { result ≡ all (sound_security (state book.now)) 64 0 }
{
    let mut days = OpenDays::new();
    for i in 0..64 {
        if !is_sound_security(book, i, &days) {
            return false;
        }
        note_quote(&mut days, book, i);
    }
    true
}

// The mode is a number of the book: which numbers are modes is what is tested here.
fn is_sound_profile(mode: u64, list: u64, partial: u64) -> bool
    ensures { result ≡ sound_profile mode list partial }
{
    if mode == 0 {
        return list == 0 && partial == 0;
    }
    mode <= 3 && partial <= 1
}

// Both profiles; a change waits only where a profile is in force.
fn is_sound_participant(book: &Book, p: usize) -> bool
    requires { p < 32 }
    ensures { result ≡ sound_participant (state book.now) p }
{
    let mode = book::get(book, Table::Modes, p);
    let list = book::get(book, Table::Lists, p);
    let partial = book::get(book, Table::Partials, p);
    let waiting = book::get(book, Table::WaitingModes, p);
    let waiting_list = book::get(book, Table::WaitingLists, p);
    let waiting_partial = book::get(book, Table::WaitingPartials, p);
    is_sound_profile(mode, list, partial)
        && is_sound_profile(waiting, waiting_list, waiting_partial)
        && (mode != 0 || waiting == 0)
}

pub fn are_sound_participants(book: &Book) -> bool
    ensures { result ≡ all (sound_participant (state book.now)) 32 0 }
{
    (0..32).all(|p| is_sound_participant(book, p))
}

fn is_sound_basket(book: &Book, b: usize) -> bool
    requires { b < 16 }
    ensures { result ≡ sound_basket (state book.now) b }
{
    let age = book::get(book, Table::GreatestAges, b);
    if book::get(book, Table::Maps, b) == 0 {
        return age == 0;
    }
    age <= 255
}

pub fn are_sound_baskets(book: &Book) -> bool
    ensures { result ≡ all (sound_basket (state book.now)) 16 0 }
{
    (0..16).all(|b| is_sound_basket(book, b))
}

// The spare rows hold nothing.
pub fn are_sound_spares(book: &Book) -> bool
    ensures { result ≡ all (is_spare (state book.now)) (rows_of spares) 0 }
{
    row_tests::are_rows_empty(book, Table::Spares, 0, 589)
}

// Are a giver and a taker set up, and not the same?
pub fn are_sound_parties(book: &Book, giver: u64, taker: u64) -> bool
    ensures { result ≡ sound_parties (state book.now) giver taker }
{
    giver < 32
        && taker < 32
        && book::get(book, Table::Modes, giver as usize) != 0
        && book::get(book, Table::Modes, taker as usize) != 0
        && giver != taker
}

// Is a basket set up?
pub fn is_basket_named(book: &Book, b: u64) -> bool
    ensures { result ≡ basket_named (state book.now) b }
{
    b < 16 && book::get(book, Table::Maps, b as usize) != 0
}
