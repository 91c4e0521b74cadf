// Is one used request row sound besides its fields: its pair, or nothing settled where it has none?
#![tactic(auto)]

ghost use Rattle.std.specs.Prelude.{◌||◌, ◌≡◌, ◌+◌, ◌<◌, eqb, ltb};
ghost use Rattle.book.specs.Layout.{term_tables};
ghost use Rattle.book.specs.State.{state, rows_alike};
ghost use Rattle.rules.specs.Requests.{is_return, exposure_of_fop};
ghost use Rattle.rules.specs.ByRow.{marks_alike, sound_pair, sound_paired};
ghost use Rattle.sound_fields.specs.Rows.{Reads};
ghost use Rattle.sound_pairs.specs.Rest.{unpaired_of, sound_rest};

use book::Book;
use book::layout::Table;
use exposure_search::ExposureKey;
use record_kinds::Kind;
use sound_fields::Request;

// Is one of two sides 0 and the other 1?
fn are_opposite(a: u64, b: u64) -> bool
    ensures { result ≡ eqb (a + b) 1 }
{
    (a == 0 && b == 1) || (a == 1 && b == 0)
}

// The six fields that a pair has in common, from the giver to the closing: one number shows all that differ, and is tested once.
fn are_terms_alike(book: &Book, q: Request, j: usize) -> bool
    requires { Reads (state book.now) q × (j < 256) }
    ensures { result ≡ rows_alike (state book.now) term_tables q.row j }
{
    let giver = book::get(book, Table::Givers, j);
    let taker = book::get(book, Table::Takers, j);
    let object = book::get(book, Table::BasketsOrExposures, j);
    let amount = book::get(book, Table::Amounts, j);
    let settlement = book::get(book, Table::Settlements, j);
    let closing = book::get(book, Table::Closings, j);
    let key = (q.giver ^ giver) | (q.taker ^ taker) | (q.object ^ object);
    let all = key | (q.amount ^ amount) | (q.settlement ^ settlement) | (q.closing ^ closing);
    all == 0
}

// The marks of two rows that are paired.
fn are_marks_alike(book: &Book, q: Request, j: usize) -> bool
    requires { Reads (state book.now) q × (j < 256) }
    ensures { result ≡ marks_alike (state book.now) q.row j }
{
    let settled = book::get(book, Table::SettledAmounts, j);
    let end = book::get(book, Table::Ends, j);
    let partial = book::get(book, Table::PairPartials, j);
    q.settled == settled && q.end == end && q.partial == partial
}

// Two rows that are paired: they name each other, their sides are opposite, and the rest is equal. The partner's row is read
// before the tests, all at once.
fn is_sound_pair(book: &Book, q: Request, j: usize) -> bool
    requires { Reads (state book.now) q }
    ensures { result ≡ sound_pair (state book.now) q.row j }
{
    if 256 <= j {
        return false;
    }
    let partner = book::get(book, Table::Partners, j);
    let kind = book::get(book, Table::RequestKinds, j);
    let side = book::get(book, Table::Sides, j);
    let terms = are_terms_alike(book, q, j);
    let marks = are_marks_alike(book, q, j);
    partner == q.row as u64 + 1 && are_opposite(q.side, side) && q.kind == kind && terms && marks
}

// Is it a return, or does its FOP belong to a used exposure?
fn does_belong(book: &Book, hints: &[u8; 1024], q: Request) -> bool
    requires { Reads (state book.now) q }
    ensures { result ≡ (is_return (state book.now) q.row || ltb (exposure_of_fop (state book.now) q.row) 64) }
{
    let key = ExposureKey {
        giver: q.giver,
        taker: q.taker,
        basket: q.object,
        closing: q.closing,
    };
    q.kind == Kind::Return as u64 || exposure_search::has_exposure(book, hints, key)
}

// By the mark that `Request::at` read with the row's other fields, all at once for speed; `partners::partner_of` would read it again.
fn is_sound_paired(book: &Book, hints: &[u8; 1024], q: Request) -> bool
    requires { Reads (state book.now) q × (0 < q.partner) }
    ensures { result ≡ sound_paired (state book.now) q.row }
{
    let j = (q.partner - 1) as usize;
    is_sound_pair(book, q, j) && does_belong(book, hints, q)
}

fn is_sound_unpaired(q: Request) -> bool
    ensures { result ≡ unpaired_of q }
{
    q.settled == 0 && q.partial == 0
}

// What a used row has besides its fields: a pair, or nothing settled.
pub fn is_sound_rest(book: &Book, hints: &[u8; 1024], q: Request) -> bool
    requires { Reads (state book.now) q }
    ensures { result ≡ sound_rest (state book.now) q.row }
{
    if q.partner == 0 {
        return is_sound_unpaired(q);
    }
    is_sound_paired(book, hints, q)
}
