// The rules of a recall but the last: of what it names, and of the exposure and what it holds.
ghost use Rattle.std.specs.Prelude.{◌≡◌};
ghost use Rattle.answers.specs.Refusals.{outcome_code};
ghost use Rattle.book.specs.State.{state};
ghost use Rattle.record_kinds.specs.declared.Kind.TheVariants.{Recall};
ghost use Rattle.recalls.specs.Codes.{names_code, holds_code};

use answers::Refusal;
use book::Book;
use book::layout::Table;
use records::record::Record;

// Is the nominal in whole lots, and are the giver and the security set up? A security not set up has no lots.
pub fn check_names(book: &Book, record: &Record) -> Result<(), Refusal>
    requires { record.now.kind ≡ Recall }
    ensures { outcome_code result ≡ names_code (state book.now) record.now.fields }
{
    let lot = book::get(book, Table::Lots, record.fields[2] as usize);
    if lot == 0 {
        return Err(Refusal::NotSetUp);
    }
    if record.fields[3] % lot != 0 {
        return Err(Refusal::OutOfRange);
    }
    if book::get(book, Table::Modes, record.fields[0] as usize) == 0 {
        return Err(Refusal::NotSetUp);
    }
    Ok(())
}

// Is the exposure used and the giver's, and does it hold the nominal?
pub fn check_holds(book: &Book, record: &Record) -> Result<(), Refusal>
    requires { record.now.kind ≡ Recall }
    ensures { outcome_code result ≡ holds_code (state book.now) record.now.fields }
{
    let e = record.fields[1] as usize;
    if book::get(book, Table::InUse, e) != 1 {
        return Err(Refusal::NoneSuch);
    }
    if book::get(book, Table::ExposureGivers, e) != record.fields[0] {
        return Err(Refusal::NoneSuch);
    }
    if book::get(book, Table::Positions, 64 * e + record.fields[2] as usize) < record.fields[3] {
        return Err(Refusal::TooMuch);
    }
    Ok(())
}
