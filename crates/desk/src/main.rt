// The desk's program: reads records from standard input piece by piece and writes what the crate `lines` makes of them.
// Proved here: what was held of a piece stands in front of what is read next (`Input::read_more`), each piece is served once, with the book
// and the place that the last one left, and its lines are written (`Desk::serve_piece`); so the lines of all pieces and the last line are the
// text of the whole input. For any reader and writer whose bytes are known, `run` writes the text of all that the reader has, where it
// answers `Ok`; where it answers that a read failed, the lines of the whole records of what the reader gave. What standard input gives and standard output takes is the system's: that is tested, on stdin and stdout beside src/ and by
// tests/tests/lines.rs.
#![tactic(auto)]

ghost use Rattle.std.specs.Prelude.{◌≡◌, ◌+◌, ◌≤◌, ◌<◌, [], length, take, OnOk, IfOk, IfErr, IfSome};
ghost use Rattle.std.specs.Io.KnownBytes.{Appends, IsAtEnd};
ghost use Rattle.line_text.specs.Text.{last_line};
ghost use Rattle.lines.specs.Program.{zero_book, program_text};
ghost use Rattle.desk.specs.Streams.{ServesHeld, Piece, Unread, Unwritten, Between, Undelivered, Over, Stopped};
ghost use Rattle.desk.specs.declared.Failure.TheVariants.{Read, Write};

mod input;

use input::Input;
use std::fmt;
use std::io::{Read, Write};
use std::process::ExitCode;

// More reads than a machine makes in years: a proved loop has to end, and nothing says that the input does.
const READS: u64 = 281474976710655;

// Why a run ends before its input is served and written.
#[derive(Clone, Copy, Debug, PartialEq, Eq)]
enum Failure {
    Read,
    Write,
}

impl fmt::Display for Failure {
    fn fmt<W: fmt::Write>(&self, f: &mut fmt::Formatter<W>) -> fmt::Result {
        match self {
            Failure::Read => write!(f, "standard input cannot be read"),
            Failure::Write => write!(f, "standard output cannot be written"),
        }
    }
}

fn write_text<W: Write>(writer: &mut W, text: &[u8]) -> Result<(), Failure>
    ensures wrote { OnOk result (Appends (W.contents writer.old) (W.contents writer.new) text.now) }
    ensures failed { IfErr result (λ failure. failure ≡ Write) }
{
    writer.write_all(text).map_err(|_| Failure::Write)
}

// The book, what is held of the input, the text of the lines of a piece, and the place of the next one. The lines of all bytes that are
// held at once fit, so that each piece is served whole.
#[derive(Drop)]
struct Desk {
    book: [u8; 49152],
    input: Input,
    lines: [u8; 65536],
    place: u64,
}

impl Desk {
    fn new() -> Desk
        ensures { (result.book ≡ zero_book) × (result.input ≡ []) × (result.place ≡ 1) }
    {
        Desk {
            book: [0; 49152],
            input: Input::new(),
            lines: [0; 65536],
            place: 1,
        }
    }

    // Serves the whole records that are held: makes their calls and puts their lines at the front of the text, in place of those that were
    // there; answers how many bytes of lines there are.
    fn serve_held(&mut self) -> usize
        requires { self.old.place + 512 < 18446744073709551616 }
        ensures served { ServesHeld self.old.book self.old.input self.old.place self.new.book (take result self.new.lines) self.new.input self.new.place }
        ensures place_bound { self.new.place ≤ self.old.place + 512 }
        ensures waiting_bound { result ≤ 65536 }
    {
        let progress = lines::serve(
            &mut self.book,
            self.input.held(),
            &mut self.lines,
            self.place,
        );
        self.place = progress.place;
        self.input.consume(progress.taken);
        progress.waiting
    }

    // Reads a piece behind what is left of the last one, serves it and writes its lines; answers how many bytes were read.
    fn serve_piece<R: Read, W: Write>(
        &mut self,
        reader: &mut R,
        writer: &mut W,
    ) -> Result<usize, Failure>
        requires { self.old.place + 512 < 18446744073709551616 }
        ensures piece { OnOk result (Piece (R.remaining reader.old) (R.remaining reader.new) (W.contents writer.old) (W.contents writer.new) self.old.book self.old.input self.old.place self.new.book self.new.input self.new.place) }
        ensures failed_read { IfErr result (λ failure. failure ≡ Read → Unread (R.remaining reader.old) (R.remaining reader.new) (W.contents writer.old) (W.contents writer.new) self.old.book self.old.input self.old.place self.new.book self.new.input self.new.place) }
        ensures failed_write { IfErr result (λ failure. failure ≡ Write → Unwritten (R.remaining reader.old) (R.remaining reader.new) self.old.book self.old.input self.old.place self.new.book self.new.input self.new.place) }
        ensures place_bound { self.new.place ≤ self.old.place + 512 }
        ensures end { IfOk result (λ n. n ≡ 0 → length self.old.input < 512 → IsAtEnd (R.remaining reader.new)) }
    {
        let count = self.input.read_more(reader).map_err(|_| Failure::Read)?;
        let waiting = self.serve_held();
        write_text(writer, &self.lines[..waiting])?;
        Ok(count)
    }

    // Serves the whole input, but for the line of a cut or unknown record at its end.
    fn serve<R: Read, W: Write>(&mut self, reader: &mut R, writer: &mut W) -> Result<(), Failure>
        requires { (self.old.book ≡ zero_book) × (self.old.input ≡ []) × (self.old.place ≡ 1) }
        ensures streams { OnOk result (Between (R.remaining reader.old) (R.remaining reader.new) (W.contents writer.old) (W.contents writer.new) self.new.book self.new.input self.new.place) }
        ensures over { OnOk result (Over (R.remaining reader.new) self.new.input) }
        ensures failed_read { IfErr result (λ failure. failure ≡ Read → Between (R.remaining reader.old) (R.remaining reader.new) (W.contents writer.old) (W.contents writer.new) self.new.book self.new.input self.new.place) }
        ensures failed_write { IfErr result (λ failure. failure ≡ Write → Undelivered (R.remaining reader.old) (R.remaining reader.new) self.new.book self.new.input self.new.place) }
    {
        for _turn in 0..READS {
            let count = self.serve_piece(reader, writer)?;
            if lines::is_over(Some(count), self.input.held()) {
                return Ok(());
            }
        }
        Err(Failure::Read)
    }

    // Writes the line of a cut or unknown record at the input's end.
    fn finish<W: Write>(&self, writer: &mut W) -> Result<(), Failure>
        ensures wrote { OnOk result (Appends (W.contents writer.old) (W.contents writer.new) (last_line self.now.place self.now.input)) }
        ensures failed { IfErr result (λ failure. failure ≡ Write) }
    {
        let line = line_text::last_line(self.place, self.input.held());
        write_text(writer, &line)
    }
}

// Serves the whole input.
fn run<R: Read, W: Write>(reader: &mut R, writer: &mut W) -> Result<(), Failure>
    ensures prints { OnOk result (IfSome (R.remaining reader.old) (λ input. Appends (W.contents writer.old) (W.contents writer.new) (program_text input))) }
    ensures failed_read { IfErr result (λ failure. failure ≡ Read → Stopped (R.remaining reader.old) (R.remaining reader.new) (W.contents writer.old) (W.contents writer.new)) }
{
    let mut desk = Desk::new();
    desk.serve(reader, writer)?;
    desk.finish(writer)
}

fn main(rt: HostRuntime) -> ExitCode {
    match run(&mut rt.stdin(), &mut rt.stdout()) {
        Ok(()) => ExitCode::SUCCESS,
        Err(failure) => {
            let _ = eprintln!(rt; "desk: {failure}");
            ExitCode::FAILURE
        }
    }
}
