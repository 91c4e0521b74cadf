// The partner of a request, out of the mark that its row holds: one more than the partner's row, and 0 for none.
// `request_rows::write_partner` writes the mark.
#![tactic(auto)]

ghost use Rattle.std.specs.Prelude.{◌≡◌, ◌+◌, ◌<◌};
ghost use Rattle.std.specs.Option.{MatchOption};
ghost use Rattle.book.specs.Layout.{partners};
ghost use Rattle.book.specs.State.{state};

use book::Book;
use book::layout::Table;

// The row of a request's partner: the mark is one more than it, and 0 for none.
pub fn partner_of(book: &Book, i: usize) -> Option<usize>
    requires { i < 256 }
    ensures { MatchOption result (state book.now partners i ≡ 0) (λ j. state book.now partners i ≡ j + 1) }
{
    match book::get(book, Table::Partners, i) {
        0 => None,
        mark => Some(mark as usize - 1),
    }
}
