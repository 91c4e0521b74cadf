// The reads: an account's or a position's nominal of one security, an exposure, a request by its number, a basket with its report.
// Each fills a lent answer of fixed length: the code, then the values, which are 0 in a refusal. No read writes to the book.
#![tactic(auto)]

ghost use Rattle.std.specs.Prelude.{◌≡◌, true, ◌<◌, ◌∷◌, IfOk};
ghost use Rattle.laws.specs.Filled.{filled};
ghost use Rattle.laws.specs.Found.{found};
ghost use Rattle.answers.specs.Refusals.{outcome_code};
ghost use Rattle.book.specs.Layout.{rows_of};
ghost use Rattle.book.specs.State.{state};
ghost use Rattle.book.specs.Tables.{number};
ghost use Rattle.rules.specs.Outcome.{lowest};
ghost use Rattle.rules.specs.Reads.{account, position, exposure, request, basket, row_of, read_code, read_values, read_answer, partner_number};
ghost use Rattle.rules.specs.Sound.{sound};
ghost use Rattle.reads.specs.Entries.{answer_by, index_rules, used_rules, is_row, request_number};

use answers::Refusal;
use book::Book;
use book::layout::{REQUEST_TABLES, Table};
use std::array;

// The number of a row of which there are so many.
fn index(x: u64, rows: u64) -> Result<usize, Refusal>
    ensures code { outcome_code result ≡ lowest (index_rules rows x) }
    ensures value { IfOk result (λ i. (i ≡ x) × (i < rows)) }
{
    if x < rows {
        Ok(x as usize)
    } else {
        Err(Refusal::OutOfRange)
    }
}

// Is a row set up, or in use, by the table that says so?
fn check_used(book: &Book, table: Table, i: usize) -> Result<(), Refusal>
    requires { i < rows_of (number table) }
    ensures { outcome_code result ≡ lowest (used_rules (state book.now) (number table) i) }
{
    if book::get(book, table, i) == 0 {
        Err(Refusal::NotSetUp)
    } else {
        Ok(())
    }
}

// The answer of a read: code 0 and its values, or the code of a refusal and zeros.
fn answer_of<const N: usize>(outcome: Result<[u64; N], Refusal>) -> [u64; N]
    requires { 0 < N }
    ensures { result ≡ answer_by N outcome.entry }
{
    match outcome {
        Ok(answer) => answer,
        Err(refusal) => {
            let mut answer = [0u64; N];
            answer[0] = u64::from(refusal);
            answer
        }
    }
}

// The nominal of one security in a participant's account.
fn account(book: &[u8], participant: u64, security: u64) -> Result<[u64; 2], Refusal>
    ensures code { outcome_code result ≡ read_code book.now (account participant security) }
    ensures values { IfOk result (λ answer. answer ≡ 0 ∷ read_values (state book.now) (account participant security)) }
{
    let book = damage::sound_book(book, false)?;
    let p = index(participant, 32)?;
    let i = index(security, 64)?;
    check_used(book, Table::Modes, p)?;
    check_used(book, Table::Lots, i)?;
    Ok([0, book::get(book, Table::Accounts, 64 * p + i)])
}

// The nominal of one security in an exposure's position.
fn position(book: &[u8], exposure: u64, security: u64) -> Result<[u64; 2], Refusal>
    ensures code { outcome_code result ≡ read_code book.now (position exposure security) }
    ensures values { IfOk result (λ answer. answer ≡ 0 ∷ read_values (state book.now) (position exposure security)) }
{
    let book = damage::sound_book(book, false)?;
    let e = index(exposure, 64)?;
    let i = index(security, 64)?;
    check_used(book, Table::InUse, e)?;
    check_used(book, Table::Lots, i)?;
    Ok([0, book::get(book, Table::Positions, 64 * e + i)])
}

// An exposure's giver, taker, basket, closing and amount.
fn exposure(book: &[u8], e: u64) -> Result<[u64; 6], Refusal>
    ensures code { outcome_code result ≡ read_code book.now (exposure e) }
    ensures values { IfOk result (λ answer. answer ≡ 0 ∷ read_values (state book.now) (exposure e)) }
{
    let book = damage::sound_book(book, false)?;
    let i = index(e, 64)?;
    check_used(book, Table::InUse, i)?;
    let giver = book::get(book, Table::ExposureGivers, i);
    let taker = book::get(book, Table::ExposureTakers, i);
    let basket = book::get(book, Table::ExposureBaskets, i);
    let closing = book::get(book, Table::ExposureClosings, i);
    let amount = book::get(book, Table::ExposureAmounts, i);
    Ok([0, giver, taker, basket, closing, amount])
}

// A basket's map and greatest age, how many securities it holds and the lowest of them.
fn basket(book: &[u8], b: u64) -> Result<[u64; 5], Refusal>
    ensures code { outcome_code result ≡ read_code book.now (basket b) }
    ensures values { IfOk result (λ answer. answer ≡ 0 ∷ read_values (state book.now) (basket b)) }
{
    let book = damage::sound_book(book, false)?;
    let i = index(b, 16)?;
    check_used(book, Table::Maps, i)?;
    let map = book::get(book, Table::Maps, i);
    let age = book::get(book, Table::GreatestAges, i);
    let summary = baskets::summary_of(map);
    Ok([0, map, age, summary.count, summary.lowest])
}

// The row of a request by its number. No request has the number 0.
fn row_of(book: &Book, number: u64) -> Option<usize>
    ensures { result ≡ found 256 (row_of (state book.now) number) }
{
    (0..256).find(|i| is_number(book, *i, number))
}

// Is the row used, with this number?
fn is_number(book: &Book, i: usize, number: u64) -> bool
    requires { i < 256 }
    ensures { result ≡ is_row (state book.now) number i }
{
    let its = book::get(book, Table::Numbers, i);
    its != 0 && its == number
}

// The number of a request's partner, 0 where it is unpaired.
fn partner_number(book: &Book, i: usize) -> u64
    requires { (sound (state book.now) ≡ true) × (i < 256) }
    ensures { result ≡ partner_number (state book.now) i }
{
    match partners::partner_of(book, i) {
        None => 0,
        Some(j) => book::get(book, Table::Numbers, j),
    }
}

// One number of the answer of an accepted read of a request.
fn request_number(book: &Book, i: usize, k: usize) -> u64
    requires { (sound (state book.now) ≡ true) × (i < 256) × (k < 15) }
    ensures { result ≡ request_number (state book.now) i k }
{
    match REQUEST_TABLES[k] {
        Table::Numbers => 0,
        Table::Partners => partner_number(book, i),
        table => book::get(book, table, i),
    }
}

// A request's kind, side, giver, taker, basket or exposure, amount, settlement, closing, reference, settled, partner's number,
// partial, cancelled and ended.
fn request(book: &[u8], number: u64) -> Result<[u64; 15], Refusal>
    ensures code { outcome_code result ≡ read_code book.now (request number) }
    ensures values { IfOk result (λ answer. answer ≡ 0 ∷ read_values (state book.now) (request number)) }
{
    let book = damage::sound_book(book, false)?;
    let Some(i) = row_of(book, number) else {
        return Err(Refusal::NotSetUp);
    };
    Ok(request_answer(book, i))
}

// The answer of an accepted read of a request.
fn request_answer(book: &Book, i: usize) -> [u64; 15]
    requires { (sound (state book.now) ≡ true) × (i < 256) }
    ensures { result ≡ filled (request_number (state book.now) i) 15 15 }
{
    array::from_fn(|k| request_number(book, i, k))
}

// The nominal of one security in a participant's account: {code, nominal}.
pub fn reads_account(book: &[u8], participant: u64, security: u64, answer: &mut [u64; 2])
    ensures { answer.new ≡ read_answer book.now (account participant security) }
{
    *answer = answer_of(account(book, participant, security));
}

// The nominal of one security in an exposure's position: {code, nominal}.
pub fn reads_position(book: &[u8], exposure: u64, security: u64, answer: &mut [u64; 2])
    ensures { answer.new ≡ read_answer book.now (position exposure security) }
{
    *answer = answer_of(position(book, exposure, security));
}

// An exposure: {code, giver, taker, basket, closing, amount}.
pub fn reads_exposure(book: &[u8], e: u64, answer: &mut [u64; 6])
    ensures { answer.new ≡ read_answer book.now (exposure e) }
{
    *answer = answer_of(exposure(book, e));
}

// A basket: {code, map, greatest age, how many securities it holds, the lowest of them}.
pub fn reads_basket(book: &[u8], b: u64, answer: &mut [u64; 5])
    ensures { answer.new ≡ read_answer book.now (basket b) }
{
    *answer = answer_of(basket(book, b));
}

// A request by its number: {code, kind, side, giver, taker, basket or exposure, amount, settlement, closing, reference, settled,
// partner's number, partial, cancelled, ended}.
pub fn reads_request(book: &[u8], number: u64, answer: &mut [u64; 15])
    ensures { answer.new ≡ read_answer book.now (request number) }
{
    *answer = answer_of(request(book, number));
}
