// Is a book sound? The test that every call but an opening begins with.
#![tactic(auto)]

ghost use Rattle.std.specs.Prelude.{◌≡◌};
ghost use Rattle.book.specs.State.{state};
ghost use Rattle.rules.specs.Sound.{sound};
ghost use Rattle.rules.specs.ByRow.{sound_set_up, sound_requests, sound_exposures};

use book::Book;

// Is what is set up sound?
fn is_set_up_sound(book: &Book) -> bool
    ensures { result ≡ sound_set_up (state book.now) }
{
    sound_setup::is_sound_head(book)
        && sound_setup::are_sound_securities(book)
        && sound_setup::are_sound_participants(book)
        && sound_setup::are_sound_baskets(book)
        && sound_setup::are_sound_spares(book)
}

// Are the request rows sound?
fn are_requests_sound(book: &Book) -> bool
    ensures { result ≡ sound_requests (state book.now) }
{
    sound_requests::are_sound_rows(book) && sound_numbers::are_distinct_numbers(book)
}

// Are the exposures and what they hold sound?
fn are_exposures_sound(book: &Book) -> bool
    ensures { result ≡ sound_exposures (state book.now) }
{
    sound_exposures::are_sound_exposures(book)
        && sound_exposures::are_distinct_keys(book)
        && sound_stocks::are_sound_stocks(book)
}

// Is a book sound?
pub fn is_sound(book: &Book) -> bool
    ensures { result ≡ sound (state book.now) }
{
    is_set_up_sound(book) && are_requests_sound(book) && are_exposures_sound(book)
}
