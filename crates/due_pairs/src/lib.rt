// The live pairs of a kind that are due, by their later requests: collected once as keys, and then the next by settlement date and the order in which they paired.
#![tactic(auto)]

ghost use Rattle.std.specs.Prelude.{◌≡◌, ◌+◌, ◌<◌};
ghost use Rattle.book.specs.State.{state};
ghost use Rattle.facts.specs.Good.{Good};
ghost use Rattle.rules.specs.Settlement.{is_due};
ghost use Rattle.due_pairs.specs.Due.{due_of, order_of, keys_of, KeysBelow, least_from};

use arrayvec::ArrayVec;
use book::Book;
use book::layout::Table;

// A row's place in the order: by settlement date, then by number.
fn order_of(book: &Book, i: usize) -> u64
    requires { i < 256 }
    ensures { result ≡ order_of (state book.now) i }
{
    book::get(book, Table::Settlements, i) * 4294967296 + book::get(book, Table::Numbers, i)
}

// Is the row the later request of a live pair that is due? Guard by guard: tried as one long `&&`, its last goals lose the tests' facts
// at the joins and did not close.
#[tactic(auto, unfolding(rules::specs::Settlement::is_due))]
fn is_due_pair(book: &Book, i: usize) -> bool
    requires { Good (state book.now) × (i < 256) }
    ensures { result ≡ is_due (state book.now) i }
{
    let number = book::get(book, Table::Numbers, i);
    if number == 0 {
        return false;
    }
    let Some(j) = partners::partner_of(book, i) else {
        return false;
    };
    if book::get(book, Table::Ends, i) != 0 {
        return false;
    }
    if book::get(book, Table::Amounts, i) <= book::get(book, Table::SettledAmounts, i) {
        return false;
    }
    if number <= book::get(book, Table::Numbers, j) {
        return false;
    }
    book::get(book, Table::Settlements, i) <= book::get(book, Table::Today, 0)
}

// Is the row the later request of a live pair of a kind that is due? What few rows pass is asked first. A kind is a number here and below,
// as the rows have it: any may be looked for.
fn is_due(book: &Book, kind: u64, i: usize) -> bool
    requires { Good (state book.now) × (i < 256) }
    ensures { result ≡ due_of (state book.now) kind i }
{
    book::get(book, Table::RequestKinds, i) == kind && is_due_pair(book, i)
}

// Puts the key of a row that is due behind those found so far: its place in the order times 256, and the row.
fn note_due(keys: &mut ArrayVec<u64, 256>, book: &Book, kind: u64, i: usize)
    requires { Good (state book.now) × (i < 256) × KeysBelow (state book.now) kind i keys.old.items }
    ensures { KeysBelow (state book.now) kind (i + 1) keys.new.items }
{
    if is_due(book, kind, i) {
        keys.push(order_of(book, i) * 256 + i as u64);
    }
}

// The keys of the rows of a kind that are due, in the order of the rows.
pub fn due_keys(book: &Book, kind: u64) -> ArrayVec<u64, 256>
    requires { Good (state book.now) }
    ensures { result.items ≡ keys_of (due_of (state book.now) kind) (order_of (state book.now)) 256 }
{
    let mut keys = ArrayVec::new();
    for i in 0..256 {
        note_due(&mut keys, book, kind, i);
    }
    keys
}

// The least of some keys from a bound on.
pub fn least_from(keys: &[u64], bound: u64) -> Option<u64>
    ensures { result ≡ least_from bound keys.now }
{
    keys.iter().copied().filter(|key| bound <= *key).min()
}
