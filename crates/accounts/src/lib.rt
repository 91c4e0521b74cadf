// Kinds 4 and 5: deposit, withdrawal. For each a function that finds the code of a record in its ranges, and one that takes the
// step of an accepted record.
#![tactic(auto)]

ghost use Rattle.std.specs.Prelude.{◌≡◌, ◌<◌, ◌≤◌};
ghost use Rattle.answers.specs.Refusals.{outcome_code};
ghost use Rattle.book.specs.State.{state};
ghost use Rattle.record_kinds.specs.declared.Kind.TheVariants.{Deposit, Withdrawal};
ghost use Rattle.rules.specs.Codes.{deposit_rules, withdrawal_rules};
ghost use Rattle.rules.specs.Outcome.{lowest};
ghost use Rattle.rules.specs.SetUp.{deposited, withdrawn};
ghost use Rattle.rules.specs.Stock.{holding, position_from};
ghost use Rattle.accounts.specs.Accounts.{account_code, AccountRoom, AccountHolds};

use answers::Refusal;
use book::Book;
use book::layout::Table;
use limits::GREATEST_NOMINAL;
use records::record::Record;

// The nominal of security i in exposure e, where it is used and the participant's.
fn position_from(book: &Book, p: usize, i: usize, e: usize) -> u64
    requires { (i < 64) × (e < 64) }
    ensures { result ≡ position_from (state book.now) p i e }
{
    if book::get(book, Table::InUse, e) == 1
        && book::get(book, Table::ExposureGivers, e) == p as u64
    {
        book::get(book, Table::Positions, 64 * e + i)
    } else {
        0
    }
}

// What a participant holds of a security: its account and the positions of its exposures.
pub fn holding_of(book: &Book, p: usize, i: usize) -> u64
    requires { (p < 32) × (i < 64) }
    ensures { (result ≡ holding (state book.now) p i) × (result ≤ 300000000000) }
{
    let placed: u64 = (0..64).map(|e| position_from(book, p, i, e)).sum();
    book::get(book, Table::Accounts, 64 * p + i) + placed
}

// Are the participant and the security of a deposit or withdrawal set up?
fn check_account(book: &Book, p: usize, i: usize) -> Result<(), Refusal>
    requires { (p < 32) × (i < 64) }
    ensures { outcome_code result ≡ account_code (state book.now) p i }
{
    if book::get(book, Table::Modes, p) == 0 || book::get(book, Table::Lots, i) == 0 {
        return Err(Refusal::NotSetUp);
    }
    Ok(())
}

// 4: the code of a deposit.
#[tactic(auto, unfolding(rules::specs::Codes::deposit_rules))]
pub fn check_deposit(book: &Book, legal: &Record) -> Result<(), Refusal>
    requires { legal.now.kind ≡ Deposit }
    ensures { outcome_code result ≡ lowest (deposit_rules (state book.now) legal.now.fields) }
{
    let p = legal.fields[0] as usize;
    let i = legal.fields[1] as usize;
    check_account(book, p, i)?;
    if GREATEST_NOMINAL < holding_of(book, p, i) + legal.fields[2] {
        return Err(Refusal::TooLarge);
    }
    Ok(())
}

// 5: the code of a withdrawal.
#[tactic(auto, unfolding(rules::specs::Codes::withdrawal_rules))]
pub fn check_withdrawal(book: &Book, legal: &Record) -> Result<(), Refusal>
    requires { legal.now.kind ≡ Withdrawal }
    ensures { outcome_code result ≡ lowest (withdrawal_rules (state book.now) legal.now.fields) }
{
    let p = legal.fields[0] as usize;
    let i = legal.fields[1] as usize;
    check_account(book, p, i)?;
    if book::get(book, Table::Accounts, 64 * p + i) < legal.fields[2] {
        return Err(Refusal::TooMuch);
    }
    Ok(())
}

// 4: adds to an account.
#[tactic(auto, unfolding(rules::specs::SetUp::deposited))]
pub fn deposit(book: &mut Book, legal: &Record)
    requires { (legal.now.kind ≡ Deposit) × AccountRoom (state book.old) legal.now.fields }
    ensures { state book.new ≡ (deposited (state book.old) legal.now.fields).state }
{
    let k = 64 * legal.fields[0] as usize + legal.fields[1] as usize;
    let x = book::get(book, Table::Accounts, k);
    book::set(book, Table::Accounts, k, x + legal.fields[2]);
}

// 5: takes from an account.
#[tactic(auto, unfolding(rules::specs::SetUp::withdrawn))]
pub fn withdraw(book: &mut Book, legal: &Record)
    requires { (legal.now.kind ≡ Withdrawal) × AccountHolds (state book.old) legal.now.fields }
    ensures { state book.new ≡ (withdrawn (state book.old) legal.now.fields).state }
{
    let k = 64 * legal.fields[0] as usize + legal.fields[1] as usize;
    let x = book::get(book, Table::Accounts, k);
    book::set(book, Table::Accounts, k, x - legal.fields[2]);
}
