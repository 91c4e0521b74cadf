// Are the exposures' rows sound: their fields, distinct keys?
#![tactic(auto)]

ghost use Rattle.std.specs.Prelude.{true, ◌≡◌, ◌+◌, ◌<◌};
ghost use Rattle.laws.specs.Search.{all};
ghost use Rattle.book.specs.State.{state};
ghost use Rattle.rules.specs.ByRow.{sound_exposure, other_key, distinct_key};
ghost use Rattle.sound_exposures.specs.Keys.{KeysMarked};

use book::Book;
use book::layout::{EXPOSURE_TABLES, KEY_TABLES, Table};
use exposure_search::ExposureKey;
use limits::GREATEST_EXPOSURE;
use open_days::OpenDays;
use std::mem;

fn is_sound_exposure(book: &Book, e: usize, days: &OpenDays) -> bool
    requires { e < 64 }
    ensures { result ≡ sound_exposure (state book.now) e }
{
    let used = book::get(book, Table::InUse, e);
    if used == 0 {
        return row_tests::is_blank(book, &EXPOSURE_TABLES, e);
    }
    let key = ExposureKey::at(book, e);
    used == 1
        && sound_setup::are_sound_parties(book, key.giver, key.taker)
        && sound_setup::is_basket_named(book, key.basket)
        && days.is_open_or_none(key.closing)
        && book::get(book, Table::ExposureAmounts, e) <= GREATEST_EXPOSURE
}

// Puts the closing day of a sound exposure among those at hand.
fn note_closing(days: &mut OpenDays, book: &Book, e: usize)
    requires { (e < 64) × (sound_exposure (state book.now) e ≡ true) }
{
    days.note_open_or_none(book::get(book, Table::ExposureClosings, e));
}

pub fn are_sound_exposures(book: &Book) -> bool
    ensures { result ≡ all (sound_exposure (state book.now)) 64 0 }
{
    let mut days = OpenDays::new();
    for e in 0..64 {
        if !is_sound_exposure(book, e, &days) {
            return false;
        }
        note_closing(&mut days, book, e);
    }
    true
}

// Has the exposure d another key than e, or is it not used?
fn has_other_key(book: &Book, e: usize, d: usize) -> bool
    requires { (e < 64) × (d < 64) }
    ensures { result ≡ other_key (state book.now) e d }
{
    book::get(book, Table::InUse, d) != 1 || !row_tests::are_alike(book, &KEY_TABLES, e, d)
}

fn is_distinct_key(book: &Book, e: usize) -> bool
    requires { e < 64 }
    ensures { result ≡ distinct_key (state book.now) e }
{
    book::get(book, Table::InUse, e) == 0 || (0..e).all(|d| has_other_key(book, e, d))
}

// The same by the marks: a key whose slot is not marked differs from all before. Its slot is marked then.
// The marks are an array of their own: a struct around it would rename its index and no more. What this shares with the marks of
// `sound_numbers` is `mem::replace`: the table, the slot and the test differ.
fn is_new_key(marks: &mut [bool; 1024], book: &Book, e: usize) -> bool
    requires { (e < 64) × KeysMarked (state book.now) marks.old e }
    ensures { (result ≡ distinct_key (state book.now) e) × KeysMarked (state book.now) marks.new (e + 1) }
{
    if book::get(book, Table::InUse, e) == 0 {
        return true;
    }
    let slot = exposure_search::slot_of(book, e);
    !mem::replace(&mut marks[slot], true) || is_distinct_key(book, e)
}

pub fn are_distinct_keys(book: &Book) -> bool
    ensures { result ≡ all (distinct_key (state book.now)) 64 0 }
{
    let mut marks = [false; 1024];
    for e in 0..64 {
        if !is_new_key(&mut marks, book, e) {
            return false;
        }
    }
    true
}
