// The rules of a FOP and of a return, group by group: each function finds the lowest code that its group gives.
// They take fields and ask `RequestIn` of them; a `Record` would ask their callers for more.
#![tactic(auto)]

ghost use Rattle.std.specs.Prelude.{◌≡◌, ◌<◌, ◌≤◌};
ghost use Rattle.answers.specs.Refusals.{outcome_code};
ghost use Rattle.book.specs.State.{state};
ghost use Rattle.record_kinds.specs.Numbered.{kind_number};
ghost use Rattle.rules.specs.Outcome.{lowest};
ghost use Rattle.rules.specs.Requests.{is_exposure_of};
ghost use Rattle.rules.specs.Requesting.{pairs_now, rows_needed};
ghost use Rattle.rules.specs.Fields.{giver_in, taker_in, basket_or_exposure_in};
ghost use Rattle.request_search.specs.Ranges.{RequestIn};
ghost use Rattle.request_codes.specs.Rules.{party_rules, basket_name_rules, settlement_rules, closing_rules, taker_rules, row_rules, exposure_rules, fop_day_rules, fop_name_rules};

use answers::Refusal;
use book::Book;
use book::layout::Table;
use limits::GREATEST_NEXT;
use record_kinds::{Fields, Kind};

// Are the giver and the taker set up?
pub fn check_parties(book: &Book, fields: &Fields) -> Result<(), Refusal>
    requires { RequestIn fields.now }
    ensures { outcome_code result ≡ lowest (party_rules (state book.now) fields.now) }
{
    if book::get(book, Table::Modes, fields[1] as usize) == 0
        || book::get(book, Table::Modes, fields[2] as usize) == 0
    {
        return Err(Refusal::NotSetUp);
    }
    Ok(())
}

// Is a FOP's basket set up?
fn check_basket(book: &Book, fields: &Fields) -> Result<(), Refusal>
    requires { basket_or_exposure_in fields.now < 16 }
    ensures { outcome_code result ≡ lowest (basket_name_rules (state book.now) fields.now) }
{
    if book::get(book, Table::Maps, fields[3] as usize) == 0 {
        return Err(Refusal::NotSetUp);
    }
    Ok(())
}

// Is the settlement day open, and not before today?
pub fn check_settlement(book: &Book, fields: &Fields) -> Result<(), Refusal>
    ensures { outcome_code result ≡ lowest (settlement_rules (state book.now) fields.now) }
{
    let day = fields[5];
    if !calendar::is_open(day) || day < book::get(book, Table::Today, 0) {
        return Err(Refusal::BadDay);
    }
    Ok(())
}

// Has a FOP no closing day, or one that is open and lies after settlement?
fn check_closing(fields: &Fields) -> Result<(), Refusal>
    ensures { outcome_code result ≡ lowest (closing_rules fields.now) }
{
    let day = fields[6];
    if day != 0 && (!calendar::is_open(day) || day <= fields[5]) {
        return Err(Refusal::BadDay);
    }
    Ok(())
}

// Is the taker another than the giver, and does it not accept automatically what it enters itself?
pub fn check_taker(book: &Book, fields: &Fields) -> Result<(), Refusal>
    requires { RequestIn fields.now }
    ensures { outcome_code result ≡ lowest (taker_rules (state book.now) fields.now) }
{
    let giver = fields[1];
    let taker = fields[2];
    if giver == taker {
        return Err(Refusal::SameParty);
    }
    if fields[0] == 1 && request_search::accepts_giver(book, taker as usize, giver) {
        return Err(Refusal::Automatic);
    }
    Ok(())
}

// How many request rows the record needs.
fn rows_needed(book: &Book, fields: &Fields) -> u64
    requires { RequestIn fields.now }
    ensures { (result ≡ rows_needed (state book.now) fields.now) × (result ≤ 2) }
{
    if request_search::does_taker_follow(book, fields) {
        2
    } else {
        1
    }
}

// Are there enough request rows, and do numbers stay at or below 999,999,999?
pub fn check_rows(book: &Book, fields: &Fields) -> Result<(), Refusal>
    requires { RequestIn fields.now }
    ensures { outcome_code result ≡ lowest (row_rules (state book.now) fields.now) }
{
    let needed = rows_needed(book, fields);
    if request_search::free_rows(book) < needed
        || GREATEST_NEXT - needed < book::get(book, Table::NextNumber, 0)
    {
        return Err(Refusal::NoRow);
    }
    Ok(())
}

// Is a request paired at once?
fn does_pair_now(book: &Book, kind: Kind, fields: &Fields) -> bool
    requires { RequestIn fields.now }
    ensures { result ≡ pairs_now (state book.now) (kind_number kind) fields.now }
{
    request_search::does_taker_follow(book, fields)
        || request_search::earliest_equal(book, u64::from(kind), fields).is_some()
}

// Is an exposure with the key of a FOP that pairs there, or a row for it? A free row, most often the case, is looked for first.
pub fn check_exposure(book: &Book, fields: &Fields) -> Result<(), Refusal>
    requires { RequestIn fields.now }
    ensures { outcome_code result ≡ lowest (exposure_rules (state book.now) fields.now) }
{
    if request_search::free_exposure(book).is_none()
        && request_search::exposure_of(book, fields).is_none()
        && does_pair_now(book, Kind::Fop, fields)
    {
        return Err(Refusal::NoExposure);
    }
    Ok(())
}

// The days of a FOP.
fn check_fop_days(book: &Book, fields: &Fields) -> Result<(), Refusal>
    ensures { outcome_code result ≡ lowest (fop_day_rules (state book.now) fields.now) }
{
    check_settlement(book, fields)?;
    check_closing(fields)
}

// The names and days of a FOP.
pub fn check_fop_names(book: &Book, fields: &Fields) -> Result<(), Refusal>
    requires { RequestIn fields.now × (basket_or_exposure_in fields.now < 16) }
    ensures { outcome_code result ≡ lowest (fop_name_rules (state book.now) fields.now) }
{
    check_parties(book, fields)?;
    check_basket(book, fields)?;
    check_fop_days(book, fields)
}

// Is the exposure that a return names used, with its giver and taker?
pub fn names_exposure(book: &Book, fields: &Fields) -> bool
    requires { RequestIn fields.now }
    ensures { result ≡ is_exposure_of (state book.now) (giver_in fields.now) (taker_in fields.now) (basket_or_exposure_in fields.now) }
{
    let e = fields[3] as usize;
    book::get(book, Table::InUse, e) == 1
        && book::get(book, Table::ExposureGivers, e) == fields[1]
        && book::get(book, Table::ExposureTakers, e) == fields[2]
}
