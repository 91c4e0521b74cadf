// The text of a line: six numbers in base ten, with a byte after each.
#![tactic(auto)]

ghost use Rattle.std.specs.Prelude.{◌≡◌, ◌+◌, ◌≤◌, ◌++◌, length};
ghost use Rattle.line_text.specs.Text.{word, line_of, last_line};
ghost use Rattle.line_text.specs.Buffer.{answer_of};

use answers::Refusal;
use arrayvec::ArrayVec;

// Puts a number in base ten and the byte that follows it. `write!` is no plainer: no clause of it says that it cannot fail.
fn put_number(line: &mut ArrayVec<u8, 126>, number: u64, after: u8)
    requires { length line.old.items + 21 ≤ 126 }
    ensures text_after { line.new.items ≡ line.old.items ++ word number after }
    ensures length_bound { length line.new.items ≤ length line.old.items + 21 }
{
    let mut digits = [0u8; 20];
    let count = io::decimal(number, &mut digits);
    line.try_extend_from_slice(&digits[..count]).unwrap();
    line.push(after);
}

// A record's line: its place, its kind, and the code, A, B and M of its answer. At most 126 bytes: six numbers of up to 20 digits, with a
// byte after each.
#[tactic(auto, unfolding(crate::specs::Text::line_of))]
pub fn line_of(place: u64, kind: u8, answer: &[u64; 4]) -> ArrayVec<u8, 126>
    ensures { result.items ≡ line_of place kind (answer_of answer.now) }
{
    let [code, a, b, m] = *answer;
    let mut line = ArrayVec::new();
    put_number(&mut line, place, b' ');
    put_number(&mut line, u64::from(kind), b' ');
    put_number(&mut line, code, b' ');
    put_number(&mut line, a, b' ');
    put_number(&mut line, b, b' ');
    put_number(&mut line, m, b'\n');
    line
}

// The line of what is left of the input behind its whole records, which begins with a cut or unknown one; empty where nothing is left.
#[tactic(auto, unfolding(crate::specs::Text::last_line))]
pub fn last_line(place: u64, rest: &[u8]) -> ArrayVec<u8, 126>
    ensures { result.items ≡ last_line place rest.now }
{
    match rest.first() {
        Some(&kind) => line_of(place, kind, &[u64::from(Refusal::Malformed), 0, 0, 0]),
        None => ArrayVec::new(),
    }
}
