// Document 01's table of records. Each kind has as many places as the longest; those past its last field are empty.
// specs/Kinds.antt has the same table for the reader of the promises; the proofs of field_type and types_of compare the two.
// Each is a match: the compiler keeps it as a table of numbers, while it would build a constant array anew at each use.
#![tactic(auto)]

ghost use Rattle.std.specs.Prelude.{◌≡◌, map, ◌<◌};
ghost use Rattle.record_kinds.specs.Kinds.{places, field_of, length_of};
ghost use Rattle.record_kinds.specs.Numbered.{kind_number, Names};
ghost use Rattle.record_kinds.specs.Typed.{typed, row};

use answers::Refusal;
use limits::{
    GREATEST_AMOUNT, GREATEST_HAIRCUT, GREATEST_LOT, GREATEST_NOMINAL, GREATEST_PRICE,
    GREATEST_TOLERANCE,
};

// The kinds; the number of each is its record's first byte.
#[derive(Clone, Copy, Debug, PartialEq, Eq)]
pub enum Kind {
    Opening = 0,
    Price = 1,
    Participant = 2,
    Basket = 3,
    Deposit = 4,
    Withdrawal = 5,
    Fop = 6,
    Return = 7,
    Cancel = 8,
    Settle = 9,
    Mark = 10,
    Recall = 11,
    NextDay = 12,
}

impl From<Kind> for u64 {
    ghost from_gives = { λ kind number. number ≡ kind_number kind };

    fn from(kind: Kind) -> u64 {
        kind as u64
    }
}

// The kind of a number, or Malformed for a number that no kind has.
impl TryFrom<u64> for Kind {
    type Error = Refusal;

    ghost try_from_gives = { Names };

    fn try_from(number: u64) -> Result<Kind, Refusal> {
        match number {
            0 => Ok(Kind::Opening),
            1 => Ok(Kind::Price),
            2 => Ok(Kind::Participant),
            3 => Ok(Kind::Basket),
            4 => Ok(Kind::Deposit),
            5 => Ok(Kind::Withdrawal),
            6 => Ok(Kind::Fop),
            7 => Ok(Kind::Return),
            8 => Ok(Kind::Cancel),
            9 => Ok(Kind::Settle),
            10 => Ok(Kind::Mark),
            11 => Ok(Kind::Recall),
            12 => Ok(Kind::NextDay),
            _ => Err(Refusal::Malformed),
        }
    }
}

// A record's numbers: those of its kind's fields in order, then zeros.
pub const PLACES: usize = 8;

// By their places, as the definitions and the table of kinds have them. A struct for each kind would be no plainer: thirteen structs, each
// with a reader, a writer and its law, where one loop over the table and one law do.
pub type Fields = [u64; PLACES];

// A field: its bytes, the least and the greatest number that it may hold.
#[derive(Clone, Copy, Debug, PartialEq, Eq)]
pub struct Field {
    pub bytes: usize,
    pub least: u64,
    pub greatest: u64,
}

// What a field holds.
#[derive(Clone, Copy, Debug, PartialEq, Eq)]
enum FieldType {
    Empty,
    Any8,
    Any32,
    Any64,
    Participant,
    Security,
    Basket,
    Exposure,
    Side,
    Day,
    Nominal,
    Amount,
    Tolerance,
    Lot,
    Price,
    Haircut,
    Mode,
    Partial,
    Map,
    RecallNominal,
}

// A field of so many bytes, from a least to a greatest number.
fn bounded(bytes: usize, least: u64, greatest: u64) -> Field
    ensures { result ≡ record { bytes = bytes; least = least; greatest = greatest } }
{
    Field {
        bytes,
        least,
        greatest,
    }
}

// The field of a type.
fn field_type(t: FieldType) -> Field
    ensures { result ≡ typed t }
{
    use FieldType::*;
    match t {
        Empty => bounded(0, 0, 0),
        Any8 => bounded(1, 0, 255),
        Any32 => bounded(4, 0, 4294967295),
        Any64 => bounded(8, 0, u64::MAX),
        Participant => bounded(1, 0, 31),
        Security => bounded(1, 0, 63),
        Basket => bounded(1, 0, 15),
        Exposure => bounded(1, 0, 63),
        Side => bounded(1, 0, 1),
        Day => bounded(4, 0, 4294967295),
        Nominal => bounded(4, 1, GREATEST_NOMINAL),
        Amount => bounded(8, 1, GREATEST_AMOUNT),
        Tolerance => bounded(4, 1, GREATEST_TOLERANCE),
        Lot => bounded(4, 1, GREATEST_LOT),
        Price => bounded(4, 1, GREATEST_PRICE),
        Haircut => bounded(2, 0, GREATEST_HAIRCUT),
        Mode => bounded(1, 0, 2),
        Partial => bounded(1, 0, 1),
        Map => bounded(8, 1, u64::MAX),
        RecallNominal => bounded(4, 1, 4294967295),
    }
}

// The types of the places of a kind. As long as the paper's table of kinds, a line or a few for each.
#[tactic(auto, unfolding(crate::specs::Kinds::kinds))]
fn types_of(kind: Kind) -> [FieldType; PLACES]
    ensures { map typed result ≡ row (kind_number kind) }
{
    use FieldType::*;
    match kind {
        // day, tolerance
        Kind::Opening => [Day, Tolerance, Empty, Empty, Empty, Empty, Empty, Empty],
        // security, lot, price, haircut, quote day
        Kind::Price => [Security, Lot, Price, Haircut, Day, Empty, Empty, Empty],
        // number, mode, list, partial
        Kind::Participant => [
            Participant,
            Mode,
            Any32,
            Partial,
            Empty,
            Empty,
            Empty,
            Empty,
        ],
        // number, map, greatest age
        Kind::Basket => [Basket, Map, Any8, Empty, Empty, Empty, Empty, Empty],
        // participant, security, nominal
        Kind::Deposit | Kind::Withdrawal => [
            Participant,
            Security,
            Nominal,
            Empty,
            Empty,
            Empty,
            Empty,
            Empty,
        ],
        // side, giver, taker, basket, amount, settlement, closing, reference
        Kind::Fop => [
            Side,
            Participant,
            Participant,
            Basket,
            Amount,
            Day,
            Day,
            Any64,
        ],
        // side, giver, taker, exposure, amount, settlement, reference
        Kind::Return => [
            Side,
            Participant,
            Participant,
            Exposure,
            Amount,
            Day,
            Any64,
            Empty,
        ],
        // participant, request number
        Kind::Cancel => [Participant, Any32, Empty, Empty, Empty, Empty, Empty, Empty],
        Kind::Settle | Kind::Mark | Kind::NextDay => [Empty; PLACES],
        // giver, exposure, security, nominal
        Kind::Recall => [
            Participant,
            Exposure,
            Security,
            RecallNominal,
            Empty,
            Empty,
            Empty,
            Empty,
        ],
    }
}

// The field j of a kind.
pub fn field_of(kind: Kind, j: usize) -> Field
    requires { j < places }
    ensures { result ≡ field_of (kind_number kind) j }
{
    let types = types_of(kind);
    field_type(types[j])
}

// The bytes of a record of a kind, its kind's byte included: each length is proved to be that of the kind's fields.
#[tactic(auto, unfolding(crate::specs::Kinds::kinds, crate::specs::Kinds::offset_of, laws::specs::Sum::sum))]
pub fn length_of(kind: Kind) -> usize
    ensures { result ≡ length_of (kind_number kind) }
{
    match kind {
        Kind::Opening => 9,
        Kind::Price => 16,
        Kind::Participant => 8,
        Kind::Basket => 11,
        Kind::Deposit | Kind::Withdrawal => 7,
        Kind::Fop => 29,
        Kind::Return => 25,
        Kind::Cancel => 6,
        Kind::Recall => 8,
        Kind::Settle | Kind::Mark | Kind::NextDay => 1,
    }
}
