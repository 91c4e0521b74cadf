// Entering a request: one that waits, one that pairs with an equal one, one with a taker request made for it; and the exposure
// that a FOP pair belongs to.
// The functions take a kind and fields and ask `EntryIn` of them; a `Record` would ask their callers for more.
#![tactic(auto)]

ghost use Rattle.std.specs.Prelude.{◌≡◌, ◌<◌};
ghost use Rattle.book.specs.State.{state};
ghost use Rattle.record_kinds.specs.Numbered.{kind_number};
ghost use Rattle.rules.specs.Requesting.{exposure_given, with_taker, with_equal, waiting};
ghost use Rattle.request_rows.specs.Rows.{EntryIn};
ghost use Rattle.request_entry.specs.Entering.{RoomForOne, RoomForTwo, ExposureRoom, with_exposure};

use book::Book;
use book::layout::Table;
use record_kinds::{Fields, Kind};
use request_rows::Marks;

// Enters a request that waits for an equal one.
pub fn enter_waiting(book: &mut Book, kind: Kind, fields: &Fields)
    requires { EntryIn (kind_number kind) fields.now × RoomForOne (state book.old) }
    ensures { state book.new ≡ waiting (state book.old) (kind_number kind) fields.now }
{
    let number = book::get(book, Table::NextNumber, 0);
    let i = request_rows::take_row(book, number);
    let marks = Marks {
        side: fields[0],
        partner: None,
        partial: false,
    };
    request_rows::fill_row(book, kind, fields, i, marks);
    book::set(book, Table::NextNumber, 0, number + 1);
}

// Enters a request and pairs it with the row j.
pub fn enter_with_equal(book: &mut Book, kind: Kind, fields: &Fields, j: usize)
    requires { EntryIn (kind_number kind) fields.now × RoomForOne (state book.old) × (j < 256) }
    ensures { state book.new ≡ with_equal (state book.old) (kind_number kind) fields.now j }
{
    let number = book::get(book, Table::NextNumber, 0);
    let partial = request_rows::allow_partial(book, fields);
    let i = request_rows::take_row(book, number);
    let marks = Marks {
        side: fields[0],
        partner: Some(j),
        partial,
    };
    request_rows::fill_row(book, kind, fields, i, marks);
    request_rows::write_partner(book, j, Some(i), partial);
    book::set(book, Table::NextNumber, 0, number + 1);
}

// Enters a giver's request and the taker request made for it, with the same reference, and pairs them.
pub fn enter_with_taker(book: &mut Book, kind: Kind, fields: &Fields)
    requires { EntryIn (kind_number kind) fields.now × RoomForTwo (state book.old) }
    ensures { state book.new ≡ with_taker (state book.old) (kind_number kind) fields.now }
{
    let number = book::get(book, Table::NextNumber, 0);
    let partial = request_rows::allow_partial(book, fields);
    let i = request_rows::take_row(book, number);
    let j = request_search::free_row(book).unwrap();
    let given = Marks {
        side: 0,
        partner: Some(j),
        partial,
    };
    request_rows::fill_row(book, kind, fields, i, given);
    book::set(book, Table::Numbers, j, number + 1);
    let taken = Marks {
        side: 1,
        partner: Some(i),
        partial,
    };
    request_rows::fill_row(book, kind, fields, j, taken);
    book::set(book, Table::NextNumber, 0, number + 2);
}

// Gives out the exposure row e, with the key of a FOP and the amount 0.
fn give_exposure(book: &mut Book, fields: &Fields, e: usize)
    requires { EntryIn 6 fields.now × (e < 64) }
    ensures { state book.new ≡ exposure_given (state book.old) fields.now e }
{
    book::set(book, Table::InUse, e, 1);
    book::set(book, Table::ExposureGivers, e, fields[1]);
    book::set(book, Table::ExposureTakers, e, fields[2]);
    book::set(book, Table::ExposureBaskets, e, fields[3]);
    book::set(book, Table::ExposureClosings, e, fields[6]);
    book::set(book, Table::ExposureAmounts, e, 0);
}

// A FOP pair belongs to the exposure with its key; where there is none yet, the lowest free row is given out.
pub fn join_exposure(book: &mut Book, kind: Kind, fields: &Fields)
    requires { EntryIn (kind_number kind) fields.now × ExposureRoom (state book.old) (kind_number kind) fields.now }
    ensures { state book.new ≡ with_exposure (state book.old) (kind_number kind) fields.now }
{
    match kind {
        Kind::Fop if request_search::exposure_of(book, fields).is_none() => {
            let e = request_search::free_exposure(book).unwrap();
            give_exposure(book, fields, e);
        }
        _ => {}
    }
}
