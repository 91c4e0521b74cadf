// Records: one byte of kind, then the kind's fields, big-endian. A reader and a writer over the one table of record_kinds.
#![tactic(auto)]

ghost use Rattle.std.specs.Prelude.{◌≡◌, ◌++◌, ◌+◌, ◌≤◌, ◌<◌, T, length, take, drop};
ghost use Rattle.answers.specs.Refusals.{outcome_code};
ghost use Rattle.laws.specs.Filled.{filled};
ghost use Rattle.laws.specs.Numbers.{number_at, bytes_of};
ghost use Rattle.record_kinds.specs.Kinds.{places, length_of};
ghost use Rattle.record_kinds.specs.Numbered.{kind_number};
ghost use Rattle.record_kinds.specs.Typed.{is_width};
ghost use Rattle.records.specs.Outcome.{reading_of};
ghost use Rattle.records.specs.Reading.{read, field_in};
ghost use Rattle.records.specs.Writing.{record_bytes_to, record_bytes, write_code, written};

pub mod record;

use answers::Refusal;
use record::{Record, are_in_ranges};
use record_kinds::{Fields, Kind, PLACES};

// What a host gets of the reader's outcome: code 0, the kind and the numbers of its fields in order, 0 past the last;
// or the code of a refusal and zeros.
#[repr(C)]
#[derive(Clone, Copy, Debug, PartialEq, Eq)]
pub struct Reading {
    pub code: u64,
    pub kind: u64,
    pub fields: Fields,
}

impl From<Result<Record, Refusal>> for Reading {
    ghost from_gives = { λ outcome reading. reading ≡ reading_of outcome };

    fn from(outcome: Result<Record, Refusal>) -> Reading {
        match outcome {
            Ok(legal) => {
                let fields = legal.fields;
                Reading {
                    code: 0,
                    kind: u64::from(legal.kind),
                    fields,
                }
            }
            Err(refusal) => Reading {
                code: u64::from(refusal),
                kind: 0,
                fields: [0; PLACES],
            },
        }
    }
}

// The number in the w bytes from a place on.
fn number_at(bytes: &[u8], at: usize, w: usize) -> u64
    requires { (at + w ≤ length bytes.now) × T (is_width w) }
    ensures { result ≡ number_at bytes.now at w }
{
    match w {
        0 => 0,
        1 => big_endian::number_at::<1>(bytes, at),
        2 => big_endian::number_at::<2>(bytes, at),
        4 => big_endian::number_at::<4>(bytes, at),
        _ => big_endian::number_at::<8>(bytes, at),
    }
}

// The numbers of a record of a kind.
fn fields_of(bytes: &[u8], kind: Kind) -> Fields
    requires { length bytes.now ≡ length_of (kind_number kind) }
    ensures { result ≡ filled (field_in bytes.now (kind_number kind)) places places }
{
    let mut fields = [0u64; PLACES];
    let mut at: usize = 1;
    for j in 0..PLACES {
        let w = record_kinds::field_of(kind, j).bytes;
        fields[j] = number_at(bytes, at, w);
        at += w;
    }
    fields
}

// Reads a record: Malformed for no or an unknown kind or another length, OutOfRange for a field out of its range.
pub fn read(bytes: &[u8]) -> Result<Record, Refusal>
    ensures { reading_of result ≡ read bytes.now }
{
    let first = *bytes.first().ok_or(Refusal::Malformed)?;
    let kind = Kind::try_from(u64::from(first))?;
    if bytes.len() != record_kinds::length_of(kind) {
        return Err(Refusal::Malformed);
    }
    Record::new(kind, fields_of(bytes, kind))
}

// Writes the w lowest bytes of a number at a place, and the rest of the part stays.
fn put_number(part: &mut [u8], at: usize, w: usize, x: u64)
    requires { (at + w ≤ length part.old) × T (is_width w) }
    ensures { part.new ≡ take at part.old ++ bytes_of w x ++ drop (at + w) part.old }
{
    match w {
        0 => {}
        1 => big_endian::put_number::<1>(part, at, x),
        2 => big_endian::put_number::<2>(part, at, x),
        4 => big_endian::put_number::<4>(part, at, x),
        _ => big_endian::put_number::<8>(part, at, x),
    }
}

// Fills a part of the record's length with the record, one field after the other.
fn put_fields(part: &mut [u8], kind: Kind, fields: &Fields)
    requires { length part.old ≡ length_of (kind_number kind) }
    ensures { part.new ≡ record_bytes (kind_number kind) fields.now }
{
    big_endian::put_number::<1>(part, 0, u64::from(kind));
    let mut at: usize = 1;
    for j in 0..PLACES {
        let w = record_kinds::field_of(kind, j).bytes;
        put_number(part, at, w, fields[j]);
        at += w;
    }
}

// The kind of a FOP and its fields of one byte.
fn put_parties(part: &mut [u8], fields: &Fields)
    requires { 5 ≤ length part.old }
    ensures { part.new ≡ record_bytes_to 6 fields.now 4 ++ drop 5 part.old }
{
    big_endian::put_number::<1>(part, 0, 6);
    big_endian::put_number::<1>(part, 1, fields[0]);
    big_endian::put_number::<1>(part, 2, fields[1]);
    big_endian::put_number::<1>(part, 3, fields[2]);
    big_endian::put_number::<1>(part, 4, fields[3]);
}

// A FOP, the longest record, put at its places: with the loop it takes twice as long.
fn put_fop(part: &mut [u8], fields: &Fields)
    requires { length part.old ≡ 29 }
    ensures { part.new ≡ record_bytes 6 fields.now }
{
    put_parties(part, fields);
    big_endian::put_number::<8>(part, 5, fields[4]);
    big_endian::put_number::<4>(part, 13, fields[5]);
    big_endian::put_number::<4>(part, 17, fields[6]);
    big_endian::put_number::<8>(part, 21, fields[7]);
}

// Fills a part of the record's length with the record, a FOP by the quicker way.
fn put_record(part: &mut [u8], kind: Kind, fields: &Fields)
    requires { length part.old ≡ length_of (kind_number kind) }
    ensures { part.new ≡ record_bytes (kind_number kind) fields.now }
{
    match kind {
        Kind::Fop => put_fop(part, fields),
        _ => put_fields(part, kind, fields),
    }
}

// Writes a record into a lent part of its length. Malformed for an unknown kind or another length, OutOfRange for a number
// out of its range, also for one that is not 0 past the last field; the part then stays as it was.
pub fn write(kind: u64, fields: &Fields, part: &mut [u8]) -> Result<(), Refusal>
    ensures value { outcome_code result ≡ write_code kind fields.now part.old }
    ensures part_after { part.new ≡ written kind fields.now part.old }
{
    let kind = Kind::try_from(kind)?;
    if part.len() != record_kinds::length_of(kind) {
        return Err(Refusal::Malformed);
    }
    // Not by a Record: that would copy the numbers, and writing a FOP takes an eighth longer.
    if !are_in_ranges(kind, fields) {
        return Err(Refusal::OutOfRange);
    }
    put_record(part, kind, fields);
    Ok(())
}
