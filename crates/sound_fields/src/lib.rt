// Are the fields of one used request row sound?
#![tactic(auto)]

ghost use Rattle.std.specs.Prelude.{◌≡◌, ◌<◌};
ghost use Rattle.book.specs.State.{state};
ghost use Rattle.rules.specs.ByRow.{return_names, sound_fop, sound_return, sound_kind, sound_fields};
ghost use Rattle.sound_fields.specs.Rows.{Reads, marks_of};

use book::Book;
use book::layout::Table;
use limits::GREATEST_AMOUNT;
use open_days::OpenDays;
use record_kinds::Kind;

// A used row, each field read once: the reference says nothing about soundness.
#[derive(Clone, Copy, Debug, PartialEq, Eq)]
pub struct Request {
    pub row: usize,
    pub number: u64,
    pub kind: u64,
    pub side: u64,
    pub giver: u64,
    pub taker: u64,
    pub object: u64,
    pub amount: u64,
    pub settlement: u64,
    pub closing: u64,
    pub settled: u64,
    pub partner: u64,
    pub partial: u64,
    pub cancel: u64,
    pub end: u64,
}

impl Request {
    // The used row i.
    pub fn at(book: &Book, i: usize) -> Request
        requires { i < 256 }
        ensures { (result.row ≡ i) × Reads (state book.now) result }
    {
        Request {
            row: i,
            number: book::get(book, Table::Numbers, i),
            kind: book::get(book, Table::RequestKinds, i),
            side: book::get(book, Table::Sides, i),
            giver: book::get(book, Table::Givers, i),
            taker: book::get(book, Table::Takers, i),
            object: book::get(book, Table::BasketsOrExposures, i),
            amount: book::get(book, Table::Amounts, i),
            settlement: book::get(book, Table::Settlements, i),
            closing: book::get(book, Table::Closings, i),
            settled: book::get(book, Table::SettledAmounts, i),
            partner: book::get(book, Table::Partners, i),
            partial: book::get(book, Table::PairPartials, i),
            cancel: book::get(book, Table::Cancels, i),
            end: book::get(book, Table::Ends, i),
        }
    }
}

// Does a return name a used exposure of its giver and taker?
fn does_return_name(book: &Book, q: Request) -> bool
    requires { Reads (state book.now) q }
    ensures { result ≡ return_names (state book.now) q.row }
{
    let e = q.object as usize;
    e < 64
        && book::get(book, Table::InUse, e) == 1
        && book::get(book, Table::ExposureGivers, e) == q.giver
        && book::get(book, Table::ExposureTakers, e) == q.taker
}

fn is_sound_fop(book: &Book, q: Request, days: &OpenDays) -> bool
    requires { Reads (state book.now) q }
    ensures { result ≡ sound_fop (state book.now) q.row }
{
    let least = book::get(book, Table::Tolerance, 0);
    sound_setup::is_basket_named(book, q.object)
        && (least..=GREATEST_AMOUNT).contains(&q.amount)
        && days.is_open_or_none(q.closing)
}

fn is_sound_return(book: &Book, q: Request) -> bool
    requires { Reads (state book.now) q }
    ensures { result ≡ sound_return (state book.now) q.row }
{
    does_return_name(book, q) && (1..=GREATEST_AMOUNT).contains(&q.amount) && q.closing == 0
}

// The fields that depend on the kind.
fn is_sound_kind(book: &Book, q: Request, days: &OpenDays) -> bool
    requires { Reads (state book.now) q }
    ensures { result ≡ sound_kind (state book.now) q.row }
{
    match Kind::try_from(q.kind) {
        Ok(Kind::Fop) => is_sound_fop(book, q, days),
        Ok(Kind::Return) => is_sound_return(book, q),
        _ => false,
    }
}

// The marks of a row, and what it has settled.
fn are_sound_marks(q: Request) -> bool
    ensures { result ≡ marks_of q }
{
    q.settled <= q.amount && q.partial <= 1 && q.cancel <= 1 && q.end <= 1
}

pub fn are_sound_fields(book: &Book, q: Request, days: &OpenDays) -> bool
    requires { Reads (state book.now) q }
    ensures { result ≡ sound_fields (state book.now) q.row }
{
    q.number < book::get(book, Table::NextNumber, 0)
        && q.side <= 1
        && sound_setup::are_sound_parties(book, q.giver, q.taker)
        && is_sound_kind(book, q, days)
        && days.is_open(q.settlement)
        && are_sound_marks(q)
}
