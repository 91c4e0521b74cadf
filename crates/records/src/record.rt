// A record whose numbers are in the ranges of its kind's fields: the reader makes no other.
ghost use Rattle.std.specs.Prelude.{◌≡◌, ◌<◌, true, false, MatchResult};
ghost use Rattle.answers.specs.declared.Refusal.TheVariants.{OutOfRange};
ghost use Rattle.record_kinds.specs.Kinds.{places, in_range};
ghost use Rattle.record_kinds.specs.Numbered.{kind_number};
ghost use Rattle.records.specs.Writing.{are_legal};

use answers::Refusal;
use record_kinds::{Fields, Kind, PLACES};

#[derive(Clone, Copy, Debug, PartialEq, Eq)]
pub struct Record {
    pub fields: Fields,
    pub kind: Kind,
    pub ghost legal: { are_legal (kind_number kind) fields ≡ true },
}

impl Record {
    // The record of a kind with these numbers, or OutOfRange where one is out of the range of its field.
    // Without the inlining, or with the kind as the first field, reading a FOP takes half as long again: the outcome is copied.
    #[inline(always)]
    pub fn new(kind: Kind, fields: Fields) -> Result<Record, Refusal>
        ensures { MatchResult result
            (λ r. (r.kind ≡ kind) × (r.fields ≡ fields))
            (λ refusal. (refusal ≡ OutOfRange) × (are_legal (kind_number kind) fields ≡ false)) }
    {
        if !are_in_ranges(kind, &fields) {
            return Err(Refusal::OutOfRange);
        }
        Ok(Record { kind, fields })
    }
}

// Is a number in the range of the field j of a kind?
fn is_in_range(kind: Kind, j: usize, x: u64) -> bool
    requires { j < places }
    ensures { result ≡ in_range (kind_number kind) j x }
{
    let field = record_kinds::field_of(kind, j);
    field.least <= x && x <= field.greatest
}

// Are a record's numbers in the ranges of the kind's fields?
pub(crate) fn are_in_ranges(kind: Kind, fields: &Fields) -> bool
    ensures { result ≡ are_legal (kind_number kind) fields.now }
{
    for j in 0..PLACES {
        if !is_in_range(kind, j, fields[j]) {
            return false;
        }
    }
    true
}
