// Kind 12, next day: its code, the profiles that waited, and the whole step.
#![tactic(auto)]

ghost use Rattle.std.specs.Prelude.{◌≡◌, true, ◌<◌};
ghost use Rattle.answers.specs.Refusals.{outcome_code};
ghost use Rattle.calendar.specs.Target.{next_open_day};
ghost use Rattle.book.specs.Layout.{rows_of, width_of, today};
ghost use Rattle.book.specs.Tables.{number};
ghost use Rattle.book.specs.State.{state, put};
ghost use Rattle.rules.specs.Codes.{next_day_rules};
ghost use Rattle.rules.specs.DayChange.{change_takes_effect, profiles_changed, on_next_day, next_day};
ghost use Rattle.rules.specs.Outcome.{lowest};
ghost use Rattle.rules.specs.Sound.{sound};
ghost use Rattle.totals.specs.Totals.{totals_of};
ghost use Rattle.day_rows.specs.Parts.{tried};
ghost use Rattle.day_change.specs.Parts.{profile_waits};

use answers::Refusal;
use book::Book;
use book::layout::{Table, WAITING_TABLES};
use day_rows::Pass;
use totals::Totals;

// 12: is there a next day?
pub fn check_next_day(book: &Book) -> Result<(), Refusal>
    requires { sound (state book.now) ≡ true }
    ensures { outcome_code result ≡ lowest (next_day_rules (state book.now)) }
{
    let today = book::get(book, Table::Today, 0);
    match calendar::open_day_after(today) {
        Some(_) => Ok(()),
        None => Err(Refusal::BadDay),
    }
}

// Copies a row's number from one table to another.
fn copy(book: &mut Book, to: Table, from: Table, i: usize)
    requires { (i < rows_of (number to)) × (i < rows_of (number from)) × (width_of (number from) ≡ width_of (number to)) }
    ensures { state book.new ≡ put (state book.old) (number to) i (state book.old (number from) i) }
{
    let x = book::get(book, from, i);
    book::set(book, to, i, x);
}

// The profile that waits comes into force, where one does.
fn change_profile(book: &mut Book, p: usize)
    requires { p < 32 }
    ensures { state book.new ≡ tried profile_waits change_takes_effect (state book.old) p }
{
    if book::get(book, Table::WaitingModes, p) != 0 {
        copy(book, Table::Modes, Table::WaitingModes, p);
        copy(book, Table::Lists, Table::WaitingLists, p);
        copy(book, Table::Partials, Table::WaitingPartials, p);
        day_rows::clear(book, &WAITING_TABLES, p);
    }
}

// The profiles that wait come into force.
fn change_profiles(book: &mut Book)
    ensures { state book.new ≡ profiles_changed (state book.old) }
{
    for p in 0..32 {
        change_profile(book, p);
    }
}

// Goes to the next open day, with the profiles that waited for it: the day.
fn begin_day(book: &mut Book) -> u64
    requires { (sound (state book.old) ≡ true) × (lowest (next_day_rules (state book.old)) ≡ 0) }
    ensures { (result ≡ next_open_day (state book.old today 0)) × (state book.new ≡ on_next_day (state book.old)) }
{
    let today = book::get(book, Table::Today, 0);
    let next = calendar::next_open_day(today);
    book::set(book, Table::Today, 0, next);
    change_profiles(book);
    next
}

// 12: the step, pass by pass in the paper's order.
pub fn next_day(book: &mut Book) -> Totals
    requires { (sound (state book.old) ≡ true) × (lowest (next_day_rules (state book.old)) ≡ 0) }
    ensures { (result ≡ totals_of (next_day (state book.old))) × (state book.new ≡ (next_day (state book.old)).state) }
{
    let done = day_rows::drop_rows(book, Pass::Done);
    let day = begin_day(book);
    let fops = day_rows::drop_rows(book, Pass::ClosedFops);
    let closed = day_exposures::close_exposures(book);
    let returns = day_rows::drop_rows(book, Pass::ClosedReturns);
    day_exposures::free_exposures(book);
    Totals {
        a: day,
        b: done + fops + returns,
        m: closed,
    }
}
