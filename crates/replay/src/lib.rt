// A stream of calls through the exported entries: records and reads, each getting the book that the last one left.
// It uses the entries' promises alone, so an entry that promised less of the book or of its code would leave it unproved.
#![tactic(auto)]

ghost use Rattle.std.specs.Prelude.{◌≡◌, length, take};
ghost use Rattle.rules.specs.Reads.{read_code};
ghost use Rattle.replay.specs.Replay.{read_of, calls_of, One, Ran};

// A call's code, as the entry answered it, and how many of the bytes it took.
#[derive(Clone, Copy)]
pub struct Done {
    pub code: u64,
    pub length: usize,
}

// The code of a read by its number: the words of a table of calls are numbers, as the theorem over lists of calls has them.
fn read_code(book: &[u8], what: u64, x: u64, y: u64) -> u64
    ensures { result ≡ read_code book.now (read_of what x y) }
{
    match what {
        0 | 1 => {
            let mut answer = [0u64; 2];
            reads::reads_account(book, x, y, &mut answer);
            answer[0]
        }
        2 => {
            let mut answer = [0u64; 2];
            reads::reads_position(book, x, y, &mut answer);
            answer[0]
        }
        3 => {
            let mut answer = [0u64; 6];
            reads::reads_exposure(book, x, &mut answer);
            answer[0]
        }
        4 => {
            let mut answer = [0u64; 15];
            reads::reads_request(book, x, &mut answer);
            answer[0]
        }
        _ => {
            let mut answer = [0u64; 5];
            reads::reads_basket(book, x, &mut answer);
            answer[0]
        }
    }
}

// One call, by its three words and the bytes that are left, through the entry that it names.
fn run_one(book: &mut [u8], bytes: &[u8], what: u64, x: u64, y: u64) -> Done
    ensures { One what x y bytes.now book.old book.new result.code result.length }
{
    if what != 0 {
        return Done {
            code: read_code(book, what, x, y),
            length: 0,
        };
    }
    let length = x.min(bytes.len() as u64) as usize;
    let mut answer = [0u64; 4];
    engine::engine_call(book, &bytes[0..length], &mut answer);
    Done {
        code: answer[0],
        length,
    }
}

// Runs the calls of a table, at most as many as codes are lent, and gives how many there were. The codes past theirs stay as they were.
pub fn run(book: &mut [u8], calls: &[u64], bytes: &[u8], codes: &mut [u64]) -> usize
    ensures { Ran (take (length codes.old) (calls_of calls.now bytes.now)) book.old book.new codes.old codes.new result }
{
    let n = (calls.len() / 3).min(codes.len());
    let mut at: usize = 0;
    for k in 0..n {
        let i = 3 * k;
        let done = run_one(book, &bytes[at..], calls[i], calls[i + 1], calls[i + 2]);
        codes[k] = done.code;
        at += done.length;
    }
    n
}
