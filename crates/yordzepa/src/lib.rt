// The library for C: the functions that include/yordzepa.h declares, in its order. Each calls the function that does its work in the crate
// that has it, and promises the definition's answer for all inputs.
#![tactic(auto)]

ghost use Rattle.std.specs.Prelude.{◌≡◌};
ghost use Rattle.baskets.specs.Report.{report};
ghost use Rattle.calendar.specs.Answers.{is_open_answer, next_open_day_answer, age_answer};
ghost use Rattle.engine.specs.Entry.{numbers_of};
ghost use Rattle.picking_calls.specs.Answers.{picked_for, freed_down};
ghost use Rattle.records.specs.Reading.{read};
ghost use Rattle.records.specs.Writing.{write_code, written};
ghost use Rattle.rules.specs.Call.{call_answer, call_book};
ghost use Rattle.rules.specs.Reads.{account, position, exposure, request, basket, read_answer};
ghost use Rattle.valuation.specs.Value.{valued};

use answers::CodedValue;
use baskets::Report;
use picking_calls::{FreeAnswer, PickAnswer};
use record_kinds::Fields;
use records::Reading;

// Is a day open (1) or closed (0)?
#[unsafe(no_mangle)]
pub extern "C" fn calendar_is_open(day: u64) -> CodedValue
    ensures { result ≡ is_open_answer day }
{
    CodedValue::from(calendar::calendar_is_open(day).map(u64::from))
}

// The first open day after an open day.
#[unsafe(no_mangle)]
pub extern "C" fn calendar_next_open_day(day: u64) -> CodedValue
    ensures { result ≡ next_open_day_answer day }
{
    CodedValue::from(calendar::calendar_next_open_day(day))
}

// The age of a price in open days.
#[unsafe(no_mangle)]
pub extern "C" fn calendar_price_age(quote: u64, today: u64) -> CodedValue
    ensures { result ≡ age_answer quote today }
{
    CodedValue::from(calendar::calendar_price_age(quote, today))
}

// The value of a nominal in cents.
#[unsafe(no_mangle)]
pub extern "C" fn valuation_value(nominal: u64, price: u64, haircut: u64) -> CodedValue
    ensures { result ≡ valued nominal (record { price = price; haircut = haircut }) }
{
    CodedValue::from(valuation::valuation_value(nominal, price, haircut))
}

// The report of a basket's map.
#[unsafe(no_mangle)]
pub extern "C" fn baskets_report(map: u64) -> Report
    ensures { result ≡ report map }
{
    Report::from(baskets::baskets_report(map))
}

// Picks an amount from an account for a basket.
#[unsafe(no_mangle)]
pub extern "C" fn picking_pick(
    account: &[u64; 64],
    columns: &[u64; 256],
    map: u64,
    oldest: u64,
    today: u64,
    amount: u64,
) -> PickAnswer
    ensures { result ≡ picked_for columns.now account.now (record { map = map; oldest = oldest }) today amount }
{
    PickAnswer::from(picking_calls::picking_pick(account, columns, map, oldest, today, amount))
}

// Frees a position down to an exposure.
#[unsafe(no_mangle)]
pub extern "C" fn picking_free(
    position: &[u64; 64],
    columns: &[u64; 256],
    exposure: u64,
) -> FreeAnswer
    ensures { result ≡ freed_down columns.now position.now exposure }
{
    FreeAnswer::from(picking_calls::picking_free(position, columns, exposure))
}

// Reads a record.
#[unsafe(no_mangle)]
pub extern "C" fn records_read(bytes: &[u8]) -> Reading
    ensures { result ≡ read bytes.now }
{
    Reading::from(records::read(bytes))
}

// Writes a record into a lent part of its length, and returns the code.
#[unsafe(no_mangle)]
pub extern "C" fn records_write(kind: u64, fields: &Fields, part: &mut [u8]) -> u64
    ensures value { result ≡ write_code kind fields.now part.old }
    ensures part_after { part.new ≡ written kind fields.now part.old }
{
    match records::write(kind, fields, part) {
        Ok(()) => 0,
        Err(refusal) => u64::from(refusal),
    }
}

// Applies a record to a book: {code, A, B, M}.
#[unsafe(no_mangle)]
pub extern "C" fn engine_call(book: &mut [u8], bytes: &[u8], answer: &mut [u64; 4])
    ensures book_after { book.new ≡ call_book book.old bytes.now }
    ensures answer_after { answer.new ≡ numbers_of (call_answer book.old bytes.now) }
{
    engine::engine_call(book, bytes, answer);
}

// The nominal of one security in a participant's account: {code, nominal}.
#[unsafe(no_mangle)]
pub extern "C" fn reads_account(book: &[u8], participant: u64, security: u64, answer: &mut [u64; 2])
    ensures { answer.new ≡ read_answer book.now (account participant security) }
{
    reads::reads_account(book, participant, security, answer);
}

// The nominal of one security in an exposure's position: {code, nominal}.
#[unsafe(no_mangle)]
pub extern "C" fn reads_position(book: &[u8], exposure: u64, security: u64, answer: &mut [u64; 2])
    ensures { answer.new ≡ read_answer book.now (position exposure security) }
{
    reads::reads_position(book, exposure, security, answer);
}

// An exposure: {code, giver, taker, basket, closing, amount}.
#[unsafe(no_mangle)]
pub extern "C" fn reads_exposure(book: &[u8], e: u64, answer: &mut [u64; 6])
    ensures { answer.new ≡ read_answer book.now (exposure e) }
{
    reads::reads_exposure(book, e, answer);
}

// A request by its number: {code, kind, side, giver, taker, basket or exposure, amount, settlement, closing, reference, settled,
// partner's number, partial, cancelled, ended}.
#[unsafe(no_mangle)]
pub extern "C" fn reads_request(book: &[u8], number: u64, answer: &mut [u64; 15])
    ensures { answer.new ≡ read_answer book.now (request number) }
{
    reads::reads_request(book, number, answer);
}

// A basket: {code, map, greatest age, how many securities it holds, the lowest of them}.
#[unsafe(no_mangle)]
pub extern "C" fn reads_basket(book: &[u8], b: u64, answer: &mut [u64; 5])
    ensures { answer.new ≡ read_answer book.now (basket b) }
{
    reads::reads_basket(book, b, answer);
}
