// What a call and a read begin with: a book of the right length that is sound; an opening asks for its length alone.
#![tactic(auto)]

ghost use Rattle.std.specs.Prelude.{◌≡◌, IfOk};
ghost use Rattle.answers.specs.Refusals.{outcome_code};
ghost use Rattle.rules.specs.Call.{opens};
ghost use Rattle.damage.specs.Damage.{book_damage, damage};

use answers::Refusal;
use book::Book;

// Is the first byte that of an opening?
pub fn is_opening(bytes: &[u8]) -> bool
    ensures { result ≡ opens bytes.now }
{
    bytes.first() == Some(&0)
}

// Is the book sound? An opening asks for no sound book.
pub fn check_sound(book: &Book, opening: bool) -> Result<(), Refusal>
    ensures { outcome_code result ≡ book_damage book.now opening }
{
    if opening || soundness::is_sound(book) {
        Ok(())
    } else {
        Err(Refusal::UnsoundBook)
    }
}

// The book lent, where it has the right length and, unless the record is an opening, is sound.
pub fn sound_book(book: &[u8], opening: bool) -> Result<&Book, Refusal>
    ensures code { outcome_code result ≡ book_damage book.now opening }
    ensures same { IfOk result (λ sound. sound.now ≡ book.now) }
{
    let book = book.as_array().ok_or(Refusal::BookLength)?;
    check_sound(book, opening)?;
    Ok(book)
}

// What a call begins with: the book lent, and the record's bytes, which say whether it is an opening. Not by `sound_book`: `check_sound` would
// have that one caller and be inlined there, and a book of another length would take its stack.
pub fn check_call(book: &[u8], bytes: &[u8]) -> Result<(), Refusal>
    ensures { outcome_code result ≡ damage book.now bytes.now }
{
    let Some(book) = book.as_array() else {
        return Err(Refusal::BookLength);
    };
    check_sound(book, is_opening(bytes))
}
