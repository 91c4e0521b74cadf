// Kinds 6 to 8: FOP, return, cancel. For each a function that finds the code of a record in its ranges, and one that takes the
// step of an accepted record. Equal requests pair earliest first (`request_search::earliest_equal`).
#![tactic(auto)]

ghost use Rattle.std.specs.Prelude.{◌≡◌, true};
ghost use Rattle.answers.specs.Refusals.{outcome_code};
ghost use Rattle.book.specs.State.{state};
ghost use Rattle.record_kinds.specs.Numbered.{kind_number};
ghost use Rattle.record_kinds.specs.declared.Kind.TheVariants.{Fop, Return, Cancel};
ghost use Rattle.rules.specs.Codes.{fop_rules, return_rules, cancel_rules};
ghost use Rattle.rules.specs.Outcome.{lowest};
ghost use Rattle.rules.specs.Requesting.{pair_ends, entered, cancelled};
ghost use Rattle.rules.specs.Sound.{sound};
ghost use Rattle.totals.specs.Totals.{totals_of};
ghost use Rattle.request_rows.specs.Rows.{EntryIn};
ghost use Rattle.requests.specs.Steps.{cancelled_pair, Entered, Room, PairIn};

use answers::Refusal;
use book::Book;
use book::layout::Table;
use records::record::Record;
use totals::Totals;

// 6: the code of a FOP.
#[tactic(auto, using(crate::proofs::Legal::fop_fields), unfolding(rules::specs::Codes::fop_rules))]
pub fn check_fop(book: &Book, fop: &Record) -> Result<(), Refusal>
    requires { (fop.now.kind ≡ Fop) × (sound (state book.now) ≡ true) }
    ensures { outcome_code result ≡ lowest (fop_rules (state book.now) fop.now.fields) }
{
    if fop.fields[4] < book::get(book, Table::Tolerance, 0) {
        return Err(Refusal::OutOfRange);
    }
    request_codes::check_fop_names(book, &fop.fields)?;
    request_codes::check_taker(book, &fop.fields)?;
    request_codes::check_rows(book, &fop.fields)?;
    request_codes::check_exposure(book, &fop.fields)
}

// 7: the code of a return.
#[tactic(auto, using(crate::proofs::Legal::return_fields), unfolding(rules::specs::Codes::return_rules))]
pub fn check_return(book: &Book, back: &Record) -> Result<(), Refusal>
    requires { (back.now.kind ≡ Return) × (sound (state book.now) ≡ true) }
    ensures { outcome_code result ≡ lowest (return_rules (state book.now) back.now.fields) }
{
    request_codes::check_parties(book, &back.fields)?;
    request_codes::check_settlement(book, &back.fields)?;
    request_codes::check_taker(book, &back.fields)?;
    if !request_codes::names_exposure(book, &back.fields) {
        return Err(Refusal::NoneSuch);
    }
    request_codes::check_rows(book, &back.fields)
}

// Enters a request's rows, paired with the taker request made for it, or with the earliest equal one, or left to wait. The number of the
// request that it is paired with, 0 where it waits.
fn enter_rows(book: &mut Book, request: &Record) -> u64
    requires { EntryIn (kind_number request.now.kind) request.now.fields × Room (state book.old) (kind_number request.now.kind) request.now.fields }
    ensures { Entered (state book.old) (kind_number request.now.kind) request.now.fields result (state book.new) }
{
    if request_search::does_taker_follow(book, &request.fields) {
        let number = book::get(book, Table::NextNumber, 0);
        request_entry::enter_with_taker(book, request.kind, &request.fields);
        request_entry::join_exposure(book, request.kind, &request.fields);
        return number + 1;
    }
    let kind = u64::from(request.kind);
    let Some(j) = request_search::earliest_equal(book, kind, &request.fields) else {
        request_entry::enter_waiting(book, request.kind, &request.fields);
        return 0;
    };
    let partner = book::get(book, Table::Numbers, j);
    request_entry::enter_with_equal(book, request.kind, &request.fields, j);
    request_entry::join_exposure(book, request.kind, &request.fields);
    partner
}

// 6 and 7: enters a request, which gets the next number.
fn enter(book: &mut Book, request: &Record) -> Totals
    requires { EntryIn (kind_number request.now.kind) request.now.fields × Room (state book.old) (kind_number request.now.kind) request.now.fields }
    ensures { (result ≡ totals_of (entered (state book.old) (kind_number request.now.kind) request.now.fields)) × (state book.new ≡ (entered (state book.old) (kind_number request.now.kind) request.now.fields).state) }
{
    let number = book::get(book, Table::NextNumber, 0);
    let partner = enter_rows(book, request);
    Totals {
        a: number,
        b: partner,
        m: 0,
    }
}

// 6: enters a FOP. One function with two contracts, this and `enter_return`: what each asks of its record differs.
pub fn enter_fop(book: &mut Book, fop: &Record) -> Totals
    requires { (fop.now.kind ≡ Fop) × (sound (state book.old) ≡ true) × (lowest (fop_rules (state book.old) fop.now.fields) ≡ 0) }
    ensures { (result ≡ totals_of (entered (state book.old) 6 fop.now.fields)) × (state book.new ≡ (entered (state book.old) 6 fop.now.fields).state) }
{
    enter(book, fop)
}

// 7: enters a return. One function with two contracts, this and `enter_fop`: what each asks of its record differs.
pub fn enter_return(book: &mut Book, back: &Record) -> Totals
    requires { (back.now.kind ≡ Return) × (sound (state book.old) ≡ true) × (lowest (return_rules (state book.old) back.now.fields) ≡ 0) }
    ensures { (result ≡ totals_of (entered (state book.old) 7 back.now.fields)) × (state book.new ≡ (entered (state book.old) 7 back.now.fields).state) }
{
    enter(book, back)
}

// 8: the code of a cancel.
#[tactic(auto, using(crate::proofs::Legal::owner_below), unfolding(rules::specs::Codes::cancel_rules))]
pub fn check_cancel(book: &Book, cancel: &Record) -> Result<(), Refusal>
    requires { (cancel.now.kind ≡ Cancel) × (sound (state book.now) ≡ true) }
    ensures { outcome_code result ≡ lowest (cancel_rules (state book.now) cancel.now.fields) }
{
    let owner = cancel.fields[0];
    if book::get(book, Table::Modes, owner as usize) == 0 {
        return Err(Refusal::NotSetUp);
    }
    let Some(i) = request_search::own_request(book, owner, cancel.fields[1]) else {
        return Err(Refusal::NoneSuch);
    };
    if book::get(book, Table::SettledAmounts, i) != 0 {
        return Err(Refusal::Settled);
    }
    Ok(())
}

// Does a paired request end, with its partner, when its owner cancels it?
fn does_pair_end(book: &Book, i: usize, j: usize) -> bool
    requires { PairIn (state book.now) i j }
    ensures { result ≡ pair_ends (state book.now) i }
{
    let taker = book::get(book, Table::Takers, i) as usize;
    let giver = book::get(book, Table::Givers, i);
    book::get(book, Table::Cancels, j) == 1
        || book::get(book, Table::Sides, i) == 0
            && request_search::accepts_giver(book, taker, giver)
}

// Notes the cancel of a paired request by its owner, and ends the pair where that is enough.
fn cancel_paired(book: &mut Book, i: usize, j: usize)
    requires { PairIn (state book.old) i j }
    ensures { state book.new ≡ cancelled_pair (state book.old) i }
{
    let ends = does_pair_end(book, i, j);
    book::set(book, Table::Cancels, i, 1);
    if ends {
        book::set(book, Table::Ends, i, 1);
        book::set(book, Table::Ends, j, 1);
    }
}

// 8: cancels a request of its owner.
pub fn cancel(book: &mut Book, cancel: &Record) -> Totals
    requires { (cancel.now.kind ≡ Cancel) × (sound (state book.old) ≡ true) × (lowest (cancel_rules (state book.old) cancel.now.fields) ≡ 0) }
    ensures { (result ≡ totals_of (cancelled (state book.old) cancel.now.fields)) × (state book.new ≡ (cancelled (state book.old) cancel.now.fields).state) }
{
    let i = request_search::own_request(book, cancel.fields[0], cancel.fields[1]).unwrap();
    match partners::partner_of(book, i) {
        None => book::set(book, Table::Ends, i, 1),
        Some(j) => cancel_paired(book, i, j),
    }
    Totals { a: 0, b: 0, m: 0 }
}
