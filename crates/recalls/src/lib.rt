// Kind 11: the recall.
#![tactic(auto)]

ghost use Rattle.std.specs.Prelude.{◌≡◌, true};
ghost use Rattle.answers.specs.Refusals.{outcome_code};
ghost use Rattle.book.specs.State.{state};
ghost use Rattle.record_kinds.specs.declared.Kind.TheVariants.{Recall};
ghost use Rattle.rules.specs.Codes.{recall_rules};
ghost use Rattle.rules.specs.Marking.{recall};
ghost use Rattle.rules.specs.Outcome.{lowest};
ghost use Rattle.rules.specs.Sound.{sound};
ghost use Rattle.totals.specs.Totals.{totals_of};

use answers::Refusal;
use book::Book;
use records::record::Record;
use totals::Totals;

mod codes;

// 11: the rules of a recall, the last tried on copies of one account and one position.
pub fn check_recall(book: &Book, record: &Record) -> Result<(), Refusal>
    requires { (record.now.kind ≡ Recall) × (sound (state book.now) ≡ true) }
    ensures { outcome_code result ≡ lowest (recall_rules (state book.now) record.now.fields) }
{
    codes::check_names(book, record)?;
    codes::check_holds(book, record)?;
    if substitution::is_accepted(book, record) {
        Ok(())
    } else {
        Err(Refusal::NotCovered)
    }
}

// 11: the recall of an accepted record: the nominal goes back, the substitutes come in.
pub fn recall(book: &mut Book, record: &Record) -> Totals
    requires { (record.now.kind ≡ Recall) × (sound (state book.old) ≡ true) × (lowest (recall_rules (state book.old) record.now.fields) ≡ 0) }
    ensures { (result ≡ totals_of (recall (state book.old) record.now.fields)) × (state book.new ≡ (recall (state book.old) record.now.fields).state) }
{
    let columns = book::columns(book);
    let found = substitution::substitutes(book, &columns, record);
    let e = record.fields[1] as usize;
    let i = record.fields[2] as usize;
    let mut one = [0u64; 64];
    one[i] = record.fields[3];
    bonds::give_back(book, e, &one);
    bonds::pledge(book, e, &found.nominals);
    Totals {
        a: 0,
        b: found.count,
        m: found.value,
    }
}
