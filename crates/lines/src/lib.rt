// The program's lines, with nothing of standard input or output: the input cut into records, each handed to the engine with one book,
// and the text of a line for each.
#![tactic(auto)]

ghost use Rattle.std.specs.Prelude.{◌≡◌, ◌+◌, ◌*◌, ◌≤◌, ◌<◌, pos, length, take, drop, IfSome, IfNone};
ghost use Rattle.std.specs.Int.Signed.{lt_z};
ghost use Rattle.rules.specs.Call.{call_book};
ghost use Rattle.lines.specs.Program.{record_length, first_record, front, front_line};
ghost use Rattle.lines.specs.Pieces.{Serves, is_awaited, is_over};

use arrayvec::ArrayVec;
use record_kinds::Kind;

// How far a piece of the input is served: the place of the next line, the bytes of the piece whose calls are made, and the bytes
// of lines that are put.
#[derive(Clone, Copy)]
pub struct Progress {
    pub place: u64,
    pub taken: usize,
    pub waiting: usize,
}

// A record that is served: its line, and how many bytes of the input it has.
#[derive(Drop)]
pub struct ServedRecord {
    pub line: ArrayVec<u8, 126>,
    pub taken: usize,
}

// The bytes of a record of this kind; none where there is no such kind.
fn length_of(kind: u8) -> Option<usize>
    ensures some { IfSome result (λ n. (n ≡ record_length kind) × (0 < n)) }
    ensures none { IfNone result (0 ≡ record_length kind) }
{
    match Kind::try_from(u64::from(kind)) {
        Ok(kind) => Some(record_kinds::length_of(kind)),
        Err(_) => None,
    }
}

// The bytes of the first record; none where there is none, or it is cut or unknown.
fn first_record(bytes: &[u8]) -> Option<usize>
    ensures some { IfSome result (λ n. (n ≡ first_record bytes.now) × (0 < n) × (n ≤ length bytes.now)) }
    ensures none { IfNone result (0 ≡ first_record bytes.now) }
{
    let kind = bytes.first()?;
    let n = length_of(*kind)?;
    (n <= bytes.len()).then_some(n)
}

// May more bytes turn these into a record?
fn is_awaited(bytes: &[u8]) -> bool
    ensures { result ≡ is_awaited bytes.now }
{
    match bytes.first() {
        Some(kind) => length_of(*kind).is_some(),
        None => true,
    }
}

// Did a read or a write fail, by what it answered?
pub fn is_failure(got: isize) -> bool
    ensures { result ≡ lt_z got (pos 0) }
{
    got < 0
}

// Is nothing to be read any more, after a read that failed (`None`) or gave some bytes, with what is left behind the whole records?
#[tactic(auto, unfolding(crate::specs::Pieces::is_over))]
pub fn is_over(read: Option<usize>, rest: &[u8]) -> bool
    ensures { result ≡ is_over read rest.now }
{
    match read {
        None => false,
        Some(0) => true,
        Some(_) => !is_awaited(rest),
    }
}

// Serves the first record of an input: makes its call with the book, and answers its line and how many bytes it has. Where no whole
// record of a known kind stands at the front, there is no call, and the book stays as it is.
pub fn serve_first(book: &mut [u8], input: &[u8], place: u64) -> Option<ServedRecord>
    ensures some { IfSome result (λ s. (0 < first_record input.now) × (s.taken ≡ first_record input.now) × (s.taken ≤ length input.now) × (s.line.items ≡ front_line book.old place input.now) × (book.new ≡ call_book book.old (front input.now))) }
    ensures none { IfNone result ((first_record input.now ≡ 0) × (book.new ≡ book.old)) }
{
    let taken = first_record(input)?;
    let record = &input[..taken];
    let mut answer = [0u64; 4];
    engine::engine_call(book, record, &mut answer);
    let line = line_text::line_of(place, record[0], &answer);
    Some(ServedRecord { line, taken })
}

// Serves the whole records at the front of a piece. A record has a byte or more, and a line at most 126: six numbers of up to 20
// digits, with a byte after each. The lines go into lent bytes, since an `ArrayVec` would ask more of the callers. No `for`: how far
// each turn goes is what it finds.
pub fn serve(book: &mut [u8], piece: &[u8], lines: &mut [u8], place: u64) -> Progress
    requires { (place + length piece.now < 18446744073709551616) × (126 * length piece.now ≤ length lines.old) }
    ensures serves { Serves book.old lines.old place piece.now book.new lines.new result.place result.taken result.waiting }
    ensures value { (0 ≡ first_record (drop result.taken piece.now)) × (result.taken ≤ length piece.now) × (result.place ≤ place + result.taken) × (result.waiting ≤ length lines.old) }
{
    let mut p = Progress {
        place,
        taken: 0,
        waiting: 0,
    };
    while let Some(served) = serve_first(book, &piece[p.taken..], p.place) {
        let end = p.waiting + served.line.len();
        lines[p.waiting..end].copy_from_slice(&served.line);
        p.place += 1;
        p.taken += served.taken;
        p.waiting = end;
    }
    p
}

// Moves the bytes between two places to the front; answers how many they are.
pub fn move_to_front(bytes: &mut [u8], from: usize, end: usize) -> usize
    requires { (from ≤ end) × (end ≤ length bytes.old) }
    ensures { (from + result ≡ end) × (take result bytes.new ≡ drop from (take end bytes.old)) }
{
    let count = end - from;
    bytes.copy_within(from..end, 0);
    count
}
