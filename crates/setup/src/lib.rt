// Kinds 0 to 3: opening, price, participant, basket. For each a function that finds the code of a record in its ranges (a
// participant has none), and one that takes the step of an accepted record.
#![tactic(auto)]

ghost use Rattle.std.specs.Prelude.{◌≡◌};
ghost use Rattle.answers.specs.Refusals.{outcome_code};
ghost use Rattle.book.specs.State.{state};
ghost use Rattle.record_kinds.specs.declared.Kind.TheVariants.{Opening, Price, Participant, Basket};
ghost use Rattle.rules.specs.Codes.{opening_rules, price_rules, basket_rules};
ghost use Rattle.rules.specs.Outcome.{lowest};
ghost use Rattle.rules.specs.SetUp.{opened, priced, enrolled, basket_made};

use answers::Refusal;
use book::Book;
use book::layout::Table;
use record_kinds::Fields;
use records::record::Record;

// 0: the code of an opening, of any fields: a `Record` would ask for legal ones.
#[tactic(auto, unfolding(rules::specs::Codes::opening_rules))]
pub fn check_opening(fields: &Fields) -> Result<(), Refusal>
    ensures { outcome_code result ≡ lowest (opening_rules fields.now) }
{
    if !calendar::is_open(fields[0]) {
        return Err(Refusal::BadDay);
    }
    Ok(())
}

// 0: the empty book with a day and a tolerance.
pub fn open(book: &mut Book, legal: &Record)
    requires { legal.now.kind ≡ Opening }
    ensures { state book.new ≡ (opened legal.now.fields).state }
{
    book.fill(0);
    book::set(book, Table::Today, 0, legal.fields[0]);
    book::set(book, Table::Tolerance, 0, legal.fields[1]);
    book::set(book, Table::NextNumber, 0, 1);
}

// 1: the code of a price.
#[tactic(auto, unfolding(rules::specs::Codes::price_rules))]
pub fn check_price(book: &Book, legal: &Record) -> Result<(), Refusal>
    requires { legal.now.kind ≡ Price }
    ensures { outcome_code result ≡ lowest (price_rules (state book.now) legal.now.fields) }
{
    let lot = book::get(book, Table::Lots, legal.fields[0] as usize);
    if lot != 0 && lot != legal.fields[1] {
        return Err(Refusal::SetUpAgain);
    }
    let day = legal.fields[4];
    if !calendar::is_open(day) || book::get(book, Table::Today, 0) < day {
        return Err(Refusal::BadDay);
    }
    Ok(())
}

// 1: the price of a security.
#[tactic(auto, unfolding(rules::specs::SetUp::priced))]
pub fn price(book: &mut Book, legal: &Record)
    requires { legal.now.kind ≡ Price }
    ensures { state book.new ≡ (priced (state book.old) legal.now.fields).state }
{
    let i = legal.fields[0] as usize;
    book::set(book, Table::Lots, i, legal.fields[1]);
    book::set(book, Table::Prices, i, legal.fields[2]);
    book::set(book, Table::Haircuts, i, legal.fields[3]);
    book::set(book, Table::QuoteDays, i, legal.fields[4]);
}

// 2: a participant's profile: at once where it is the first, else it waits for the next day.
// Two branches, since a profile in force and one that waits are in different tables.
#[tactic(auto, unfolding(rules::specs::SetUp::enrolled))]
pub fn enrol(book: &mut Book, legal: &Record)
    requires { legal.now.kind ≡ Participant }
    ensures { state book.new ≡ (enrolled (state book.old) legal.now.fields).state }
{
    let p = legal.fields[0] as usize;
    if book::get(book, Table::Modes, p) == 0 {
        book::set(book, Table::Modes, p, legal.fields[1] + 1);
        book::set(book, Table::Lists, p, legal.fields[2]);
        book::set(book, Table::Partials, p, legal.fields[3]);
    } else {
        book::set(book, Table::WaitingModes, p, legal.fields[1] + 1);
        book::set(book, Table::WaitingLists, p, legal.fields[2]);
        book::set(book, Table::WaitingPartials, p, legal.fields[3]);
    }
}

// 3: the code of a basket.
#[tactic(auto, unfolding(rules::specs::Codes::basket_rules))]
pub fn check_basket(book: &Book, legal: &Record) -> Result<(), Refusal>
    requires { legal.now.kind ≡ Basket }
    ensures { outcome_code result ≡ lowest (basket_rules (state book.now) legal.now.fields) }
{
    if book::get(book, Table::Maps, legal.fields[0] as usize) != 0 {
        return Err(Refusal::SetUpAgain);
    }
    Ok(())
}

// 3: a basket's map and greatest age.
#[tactic(auto, unfolding(rules::specs::SetUp::basket_made))]
pub fn make_basket(book: &mut Book, legal: &Record)
    requires { legal.now.kind ≡ Basket }
    ensures { state book.new ≡ (basket_made (state book.old) legal.now.fields).state }
{
    let b = legal.fields[0] as usize;
    book::set(book, Table::Maps, b, legal.fields[1]);
    book::set(book, Table::GreatestAges, b, legal.fields[2]);
}
