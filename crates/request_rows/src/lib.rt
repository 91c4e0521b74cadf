// Writing a request's row: its parts, the row that is taken for it, and whether its pair may settle in part.
// The functions take a kind and fields and ask `EntryIn` of them; a `Record` would ask their callers for more.
#![tactic(auto)]

ghost use Rattle.std.specs.Prelude.{◌≡◌, cond, ◌<◌, ◌≤◌};
ghost use Rattle.limits.specs.Limits.{greatest_next};
ghost use Rattle.book.specs.State.{state};
ghost use Rattle.record_kinds.specs.Numbered.{kind_number};
ghost use Rattle.rules.specs.Requests.{free_row, allow_partial};
ghost use Rattle.rules.specs.Fields.{giver_in, taker_in, reference_in};
ghost use Rattle.request_search.specs.Ranges.{RequestIn};
ghost use Rattle.request_rows.specs.Rows.{EntryIn, mark_of, with_parties, with_terms, with_partner, with_marks, filled_row, RowTaken};

use book::Book;
use book::layout::Table;
use record_kinds::{Fields, Kind};

// What a new row gets beside its number and the record's fields: a side, the partner's row, and the pair's partial mark.
#[derive(Clone, Copy, Debug, PartialEq, Eq)]
pub struct Marks {
    pub side: u64,
    pub partner: Option<usize>,
    pub partial: bool,
}

// The reference of a record: the last field of its kind.
fn reference_in(kind: Kind, fields: &Fields) -> u64
    ensures { result ≡ reference_in (kind_number kind) fields.now }
{
    match kind {
        Kind::Fop => fields[7],
        _ => fields[6],
    }
}

// Writes a row's parties with their basket or exposure.
#[tactic(auto, unfolding(crate::specs::Rows::with_parties))]
fn write_parties(book: &mut Book, fields: &Fields, i: usize)
    requires { RequestIn fields.now × (i < 256) }
    ensures { state book.new ≡ with_parties (state book.old) fields.now i }
{
    book::set(book, Table::Givers, i, fields[1]);
    book::set(book, Table::Takers, i, fields[2]);
    book::set(book, Table::BasketsOrExposures, i, fields[3]);
}

// Writes a row's amount, days and reference.
#[tactic(auto, unfolding(crate::specs::Rows::with_terms))]
fn write_terms(book: &mut Book, kind: Kind, fields: &Fields, i: usize)
    requires { EntryIn (kind_number kind) fields.now × (i < 256) }
    ensures { state book.new ≡ with_terms (state book.old) (kind_number kind) fields.now i }
{
    book::set(book, Table::Amounts, i, fields[4]);
    book::set(book, Table::Settlements, i, fields[5]);
    let closing = request_search::closing_in(u64::from(kind), fields);
    book::set(book, Table::Closings, i, closing);
    book::set(book, Table::References, i, reference_in(kind, fields));
}

// The mark of a partner: one more than its row, 0 for none.
fn mark_of(partner: Option<usize>) -> u64
    requires { mark_of partner ≤ 256 }
    ensures { result ≡ mark_of partner }
{
    match partner {
        Some(j) => j as u64 + 1,
        None => 0,
    }
}

// Writes a row's partner and the pair's partial mark.
pub fn write_partner(book: &mut Book, i: usize, partner: Option<usize>, partial: bool)
    requires { (i < 256) × (mark_of partner ≤ 256) }
    ensures { state book.new ≡ with_partner (state book.old) i (mark_of partner) (cond partial 1 0) }
{
    book::set(book, Table::Partners, i, mark_of(partner));
    book::set(book, Table::PairPartials, i, u64::from(partial));
}

// Writes what a new row has come to: nothing settled, its partner, the pair's partial mark, no cancel and no end.
#[tactic(auto, unfolding(crate::specs::Rows::with_marks))]
fn write_marks(book: &mut Book, i: usize, marks: Marks)
    requires { (i < 256) × (mark_of marks.partner ≤ 256) }
    ensures { state book.new ≡ with_marks (state book.old) i (mark_of marks.partner) (cond marks.partial 1 0) }
{
    book::set(book, Table::SettledAmounts, i, 0);
    write_partner(book, i, marks.partner, marks.partial);
    book::set(book, Table::Cancels, i, 0);
    book::set(book, Table::Ends, i, 0);
}

// Writes the rest of a row whose number stands already.
#[tactic(auto, unfolding(crate::specs::Rows::filled_row))]
pub fn fill_row(book: &mut Book, kind: Kind, fields: &Fields, i: usize, marks: Marks)
    requires { EntryIn (kind_number kind) fields.now × (i < 256) × (marks.side ≤ 1) × (mark_of marks.partner ≤ 256) }
    ensures { state book.new ≡ filled_row (state book.old) (kind_number kind) fields.now i marks.side (mark_of marks.partner) (cond marks.partial 1 0) }
{
    book::set(book, Table::RequestKinds, i, u64::from(kind));
    book::set(book, Table::Sides, i, marks.side);
    write_parties(book, fields, i);
    write_terms(book, kind, fields, i);
    write_marks(book, i, marks);
}

// Takes the lowest free row for a request of that number.
pub fn take_row(book: &mut Book, number: u64) -> usize
    requires { (free_row (state book.old) < 256) × (number ≤ greatest_next) }
    ensures { RowTaken (state book.old) number result (state book.new) }
{
    let i = request_search::free_row(book).unwrap();
    book::set(book, Table::Numbers, i, number);
    i
}

// Do both parties allow partial settlement now?
pub fn allow_partial(book: &Book, fields: &Fields) -> bool
    requires { RequestIn fields.now }
    ensures { result ≡ allow_partial (state book.now) (giver_in fields.now) (taker_in fields.now) }
{
    book::get(book, Table::Partials, fields[1] as usize) == 1
        && book::get(book, Table::Partials, fields[2] as usize) == 1
}
