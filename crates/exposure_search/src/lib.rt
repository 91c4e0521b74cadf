// The used exposure with a key: found among all, or tried first where a table of hints says.
#![tactic(auto)]

ghost use Rattle.std.specs.Prelude.{◌≡◌, ◌<◌, ltb};
ghost use Rattle.laws.specs.Found.{found};
ghost use Rattle.book.specs.State.{state};
ghost use Rattle.exposure_search.specs.Keys.{key_of, request_key, is_at, exposure_of};
ghost use Rattle.exposure_search.specs.Slots.{slot_of_key, slot_of, with_hint, with_hints};

use book::Book;
use book::layout::Table;

// What a used exposure is known by; a closing day of 0 stands for none.
#[derive(Clone, Copy, Debug, PartialEq, Eq)]
pub struct ExposureKey {
    pub giver: u64,
    pub taker: u64,
    pub basket: u64,
    pub closing: u64,
}

impl ExposureKey {
    // The key in the exposure row e.
    pub fn at(book: &Book, e: usize) -> ExposureKey
        requires { e < 64 }
        ensures { result ≡ key_of (state book.now) e }
    {
        ExposureKey {
            giver: book::get(book, Table::ExposureGivers, e),
            taker: book::get(book, Table::ExposureTakers, e),
            basket: book::get(book, Table::ExposureBaskets, e),
            closing: book::get(book, Table::ExposureClosings, e),
        }
    }

    // The key of the request row i: of a FOP, that of the exposure that its pair belongs to.
    pub fn of_request(book: &Book, i: usize) -> ExposureKey
        requires { i < 256 }
        ensures { result ≡ request_key (state book.now) i }
    {
        ExposureKey {
            giver: book::get(book, Table::Givers, i),
            taker: book::get(book, Table::Takers, i),
            basket: book::get(book, Table::BasketsOrExposures, i),
            closing: book::get(book, Table::Closings, i),
        }
    }

    // The hash slot of the key, 0 to 1,023: keys that share one cost time, and change no answer.
    pub fn slot(self) -> usize
        ensures { (result ≡ slot_of_key self) × (result < 1024) }
    {
        let parties = self.giver % 4294967296 * 40503001 + self.taker % 4294967296 * 73856093;
        let rest = self.basket % 4294967296 * 19349663 + self.closing % 4294967296 * 83492791;
        ((parties + rest) / 1048576 % 1024) as usize
    }
}

// Is the exposure e used, with this key?
pub fn has_key(book: &Book, key: ExposureKey, e: usize) -> bool
    requires { e < 64 }
    ensures { result ≡ is_at (state book.now) key e }
{
    book::get(book, Table::InUse, e) == 1 && ExposureKey::at(book, e) == key
}

// The row of the used exposure with this key.
pub fn exposure_with(book: &Book, key: ExposureKey) -> Option<usize>
    ensures { result ≡ found 64 (exposure_of (state book.now) key) }
{
    (0..64).find(|e| has_key(book, key, *e))
}

// The hash slot of the key of the exposure e.
pub fn slot_of(book: &Book, e: usize) -> usize
    requires { e < 64 }
    ensures { (result ≡ slot_of (state book.now) e) × (result < 1024) }
{
    ExposureKey::at(book, e).slot()
}

// Puts a used exposure into its key's slot among the hints.
fn put_hint(hints: &mut [u8; 1024], book: &Book, e: usize)
    requires { e < 64 }
    ensures { hints.new ≡ with_hint (state book.now) e hints.old }
{
    if book::get(book, Table::InUse, e) == 1 {
        let slot = slot_of(book, e);
        hints[slot] = e as u8;
    }
}

// Puts all used exposures into their slots. A hint is only where to look first: what is found does not depend on it. Hints are bytes, not
// options: the 1,024 of them are filled at each call.
pub fn put_hints(hints: &mut [u8; 1024], book: &Book)
    ensures { hints.new ≡ with_hints (state book.now) hints.old 64 }
{
    for e in 0..64 {
        put_hint(hints, book, e);
    }
}

// Is there a used exposure with this key? The hint is tried before all of them are.
pub fn has_exposure(book: &Book, hints: &[u8; 1024], key: ExposureKey) -> bool
    ensures { result ≡ ltb (exposure_of (state book.now) key) 64 }
{
    let hint = usize::from(hints[key.slot()]);
    if hint < 64 && has_key(book, key, hint) {
        return true;
    }
    exposure_with(book, key).is_some()
}
