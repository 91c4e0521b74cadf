// Kind 9, settle: the live pairs that are due, returns before FOPs, by settlement date and then in the order in which they paired.
#![tactic(auto)]

ghost use Rattle.std.specs.Prelude.{◌≡◌, true};
ghost use Rattle.eligibility.specs.Fresh.{PricesOf};
ghost use Rattle.book.specs.State.{state};
ghost use Rattle.settlement.specs.Numbered.{pair_number};
ghost use Rattle.facts.specs.Good.{Good};
ghost use Rattle.rules.specs.Settlement.{settlement};
ghost use Rattle.rules.specs.Sound.{sound};
ghost use Rattle.settlement_laws.specs.Ways.{PairOf, way_of, settle_by};
ghost use Rattle.totals.specs.Totals.{totals_of};
ghost use Rattle.settlement.specs.Passes.{begun, Alike, Room, Within, Passed};

use book::Book;
use eligibility::Prices;
use totals::Totals;

// What the requests of a pair are, by the number in their rows.
#[derive(Clone, Copy, Debug, PartialEq, Eq)]
enum PairKind {
    Fop = 6,
    Return = 7,
}

impl From<PairKind> for u64 {
    ghost from_gives = { λ kind number. number ≡ pair_number kind };

    fn from(kind: PairKind) -> u64 {
        kind as u64
    }
}

// Settles one pair, and counts it where something settled.
fn settle_pair(book: &mut Book, prices: &Prices, kind: PairKind, i: usize, t: Totals) -> Totals
    requires { Good (state book.old) × PairOf (state book.old) (pair_number kind) i × Room 512 t × PricesOf (state book.old) prices.now }
    ensures { Alike (begun (state book.new) result) (settle_by (way_of (pair_number kind)) (begun (state book.old) t) i) × Within t 1 result }
{
    match kind {
        PairKind::Return => {
            let returned = pair_settlement::settle_return(book, &prices.columns, i);
            if returned == 0 {
                return t;
            }
            Totals {
                b: t.b + 1,
                m: t.m + returned,
                ..t
            }
        }
        PairKind::Fop => {
            let brought = pair_settlement::settle_fop(book, prices, i);
            if brought == 0 {
                return t;
            }
            Totals {
                a: t.a + 1,
                m: t.m + brought,
                ..t
            }
        }
    }
}

// Settles the pairs of a kind in their order, each once. Which are due is found once: settling one leaves those after it due.
fn settle_pairs(book: &mut Book, prices: &Prices, kind: PairKind, start: Totals) -> Totals
    requires { Good (state book.old) × PricesOf (state book.old) prices.now × Room 256 start }
    ensures { Passed (pair_number kind) (state book.old) start (state book.new) result }
{
    let keys = due_pairs::due_keys(book, u64::from(kind));
    let mut total = start;
    let mut last: u64 = 0;
    // No `for`: the next pair is what the search after the last one finds.
    while let Some(key) = due_pairs::least_from(keys.as_slice(), (last + 1) * 256) {
        last = key / 256;
        total = settle_pair(book, prices, kind, (key % 256) as usize, total);
    }
    total
}

// 9: settles what is due, returns before FOPs. A: FOPs changed, B: returns changed, M: cents settled by both.
pub fn settle(book: &mut Book) -> Totals
    requires { sound (state book.old) ≡ true }
    ensures { (result ≡ totals_of (settlement (state book.old))) × (state book.new ≡ (settlement (state book.old)).state) }
{
    let prices = Prices::of(book);
    let none = Totals { a: 0, b: 0, m: 0 };
    let returns = settle_pairs(book, &prices, PairKind::Return, none);
    settle_pairs(book, &prices, PairKind::Fop, returns)
}
