// The exported call: a book and a record, both lent as bytes, and a lent answer of four numbers (code, A, B, M).
#![tactic(auto)]

ghost use Rattle.std.specs.Prelude.{◌≡◌};
ghost use Rattle.answers.specs.Refusals.{outcome_code};
ghost use Rattle.book.specs.State.{state};
ghost use Rattle.record_kinds.specs.Numbered.{kind_number};
ghost use Rattle.rules.specs.Call.{step_of, call_answer, call_book};
ghost use Rattle.rules.specs.Codes.{code_of};
ghost use Rattle.totals.specs.Totals.{totals_of};
ghost use Rattle.engine.specs.Entry.{numbers_of};
ghost use Rattle.engine.specs.Outcome.{answer_of};
ghost use Rattle.engine.specs.Accepted.{Taken, Accepted};

use answers::Refusal;
use book::Book;
use record_kinds::Kind;
use records::record::Record;
use totals::Totals;

// Does a rule refuse a record that was read?
fn check(book: &Book, legal: &Record) -> Result<(), Refusal>
    requires { Taken book.now legal.now.kind }
    ensures { outcome_code result ≡ code_of (state book.now) (kind_number legal.now.kind) legal.now.fields }
{
    match legal.kind {
        Kind::Opening => setup::check_opening(&legal.fields),
        Kind::Price => setup::check_price(book, legal),
        Kind::Basket => setup::check_basket(book, legal),
        Kind::Deposit => accounts::check_deposit(book, legal),
        Kind::Withdrawal => accounts::check_withdrawal(book, legal),
        Kind::Fop => requests::check_fop(book, legal),
        Kind::Return => requests::check_return(book, legal),
        Kind::Cancel => requests::check_cancel(book, legal),
        Kind::Recall => recalls::check_recall(book, legal),
        Kind::NextDay => day_change::check_next_day(book),
        Kind::Participant | Kind::Settle | Kind::Mark => Ok(()),
    }
}

// The step of an accepted record. Kinds before the FOP answer nothing.
fn take_step(book: &mut Book, legal: &Record) -> Totals
    requires { Accepted book.old legal.now.kind legal.now.fields }
    ensures { (result ≡ totals_of (step_of (state book.old) (kind_number legal.now.kind) legal.now.fields)) × (state book.new ≡ (step_of (state book.old) (kind_number legal.now.kind) legal.now.fields).state) }
{
    match legal.kind {
        Kind::Fop => return requests::enter_fop(book, legal),
        Kind::Return => return requests::enter_return(book, legal),
        Kind::Cancel => return requests::cancel(book, legal),
        Kind::Settle => return settlement::settle(book),
        Kind::Mark => return marking::mark(book),
        Kind::Recall => return recalls::recall(book, legal),
        Kind::NextDay => return day_change::next_day(book),
        Kind::Opening => setup::open(book, legal),
        Kind::Price => setup::price(book, legal),
        Kind::Participant => setup::enrol(book, legal),
        Kind::Basket => setup::make_basket(book, legal),
        Kind::Deposit => accounts::deposit(book, legal),
        Kind::Withdrawal => accounts::withdraw(book, legal),
    }
    Totals { a: 0, b: 0, m: 0 }
}

// The outcome of a call: the numbers of an accepted record, which takes its step, or why it is refused.
fn outcome(book: &mut [u8], bytes: &[u8]) -> Result<Totals, Refusal>
    ensures left { book.new ≡ call_book book.old bytes.now }
    ensures value { answer_of result ≡ call_answer book.old bytes.now }
{
    damage::check_call(book, bytes)?;
    // Its length is tested: the steps take the array.
    let Some(book) = book.as_mut_array() else {
        return Err(Refusal::BookLength);
    };
    let legal = records::read(bytes)?;
    check(book, &legal)?;
    Ok(take_step(book, &legal))
}

// Applies a record to a book. A refused call has its code in the answer and 0 in its other numbers, and leaves the book as it was.
pub fn engine_call(book: &mut [u8], bytes: &[u8], answer: &mut [u64; 4])
    ensures book_after { book.new ≡ call_book book.old bytes.now }
    ensures answer_after { answer.new ≡ numbers_of (call_answer book.old bytes.now) }
{
    *answer = match outcome(book, bytes) {
        Ok(totals) => [0, totals.a, totals.b, totals.m],
        Err(refusal) => [u64::from(refusal), 0, 0, 0],
    };
}
