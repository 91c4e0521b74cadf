// What is held of the input: the bytes that were read and not served yet.
#![tactic(auto)]

ghost use Rattle.std.specs.Prelude.{◌≡◌, ◌+◌, ◌≤◌, ◌<◌, List, ℕ, [], length, take, drop, IfOk, MatchResult};
ghost use Rattle.std.specs.Io.KnownBytes.{IsAtEnd};
ghost use Rattle.desk.specs.Streams.{Gained};

use std::io;
use std::io::Read;
use std::marker::Model;

// As many bytes as are held at most, so that the lines of all of them fit into the text of a piece.
const ROOM: usize = 512;

// Bytes and two places, not an `ArrayVec`: a reader fills bytes that are there, behind those that are held.
#[derive(Drop)]
pub struct Input {
    bytes: [u8; ROOM],
    taken: usize,
    end: usize,
}

impl Model for Input {
    ghost Value = { List ℕ };

    ghost view = { λ i. drop i.taken (take i.end i.bytes) };

    ghost invariant = { λ i. (i.taken ≤ i.end) × (i.end ≤ 512) };
}

impl Input {
    pub fn new() -> Input
        ensures { result ≡ [] }
    {
        Input {
            bytes: [0; ROOM],
            taken: 0,
            end: 0,
        }
    }

    pub fn held(&self) -> &[u8]
        ensures { (result.now ≡ self.now) × (length result.now ≤ 512) }
    {
        &self.bytes[self.taken..self.end]
    }

    // Reads once, behind the bytes held; answers how many bytes came, none only where the input ends or there is no room.
    pub fn read_more<R: Read>(&mut self, reader: &mut R) -> io::Result<usize>
        ensures gained { Gained (R.remaining reader.old) (R.remaining reader.new) self.old self.new }
        ensures count { MatchResult result (λ n. length self.new ≡ length self.old + n) (λ _. self.new ≡ self.old) }
        ensures bound { length self.new ≤ 512 }
        ensures end { IfOk result (λ n. n ≡ 0 → length self.old < 512 → IsAtEnd (R.remaining reader.new)) }
    {
        let held = lines::move_to_front(&mut self.bytes, self.taken, self.end);
        self.taken = 0;
        self.end = held;
        let count = reader.read(&mut self.bytes[held..])?;
        self.end = held + count;
        Ok(count)
    }

    // Holds the first bytes no more.
    pub fn consume(&mut self, count: usize)
        requires { count ≤ length self.old }
        ensures { self.new ≡ drop count self.old }
    {
        self.taken += count;
    }
}
