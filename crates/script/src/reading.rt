// From the bytes of a record to what it says.
ghost use Rattle.std.specs.Prelude.{◌≡◌};
ghost use Rattle.script.specs.Fields.{rest_of};
ghost use Rattle.script.specs.Records.{ended, parse, said_in, shown};
ghost use Rattle.script.specs.Records.{parse_and, parse_colour, parse_matrix, parse_not};
ghost use Rattle.script.specs.Records.{parse_of_colour, parse_put, parse_slots, parse_tied};
ghost use Rattle.script.specs.Records.{parse_two_mode};
ghost use Rattle.script.specs.FieldLaw.{FieldLaw};
ghost use Rattle.script.specs.MarkLaw.{MarkLaw};
ghost use Rattle.script.specs.RecordLaw.{RecordLaw};

use super::faults::Reason;
use super::record::Record;
use fields::Fields;
use question::Line;

// The fields behind a mark.
mod fields;

impl<'a> Fields<'a> {
    // The record, where no byte is left.
    fn end(self, what: Record<'a>) -> Result<Record<'a>, Reason>
        ensures { shown result ≡ ended (said_in what.entry) (rest_of self.entry) }
    {
        if self.is_empty() {
            Ok(what)
        } else {
            Err(Reason::Fields)
        }
    }
}

// Each of these reads the fields of a mark.

fn read_matrix(rest: &[u8]) -> Result<Record<'_>, Reason>
    ensures { shown result ≡ parse_matrix rest.now }
{
    let mut fields = Fields::of(rest);
    let Some(n) = fields.number() else {
        return Err(Reason::Fields);
    };
    fields.end(Record::Matrix(n))
}

fn read_two_mode(rest: &[u8]) -> Result<Record<'_>, Reason>
    ensures { shown result ≡ parse_two_mode rest.now }
{
    let mut fields = Fields::of(rest);
    let Some(a) = fields.number() else {
        return Err(Reason::Fields);
    };
    let Some(b) = fields.number() else {
        return Err(Reason::Fields);
    };
    fields.end(Record::TwoMode(a, b))
}

fn read_slots(rest: &[u8]) -> Result<Record<'_>, Reason>
    ensures { shown result ≡ parse_slots rest.now }
{
    let mut fields = Fields::of(rest);
    let Some(n) = fields.number() else {
        return Err(Reason::Fields);
    };
    let Some(s) = fields.number() else {
        return Err(Reason::Fields);
    };
    fields.end(Record::Slots(n, s))
}

fn read_put(rest: &[u8]) -> Result<Record<'_>, Reason>
    ensures { shown result ≡ parse_put rest.now }
{
    let mut fields = Fields::of(rest);
    let Some(i) = fields.number() else {
        return Err(Reason::Fields);
    };
    let Some(j) = fields.number() else {
        return Err(Reason::Fields);
    };
    let Some(b) = fields.byte() else {
        return Err(Reason::Fields);
    };
    fields.end(Record::Put(i, j, b))
}

fn read_colour(rest: &[u8]) -> Result<Record<'_>, Reason>
    ensures { shown result ≡ parse_colour rest.now }
{
    let mut fields = Fields::of(rest);
    let Some(i) = fields.number() else {
        return Err(Reason::Fields);
    };
    let Some(c) = fields.byte() else {
        return Err(Reason::Fields);
    };
    fields.end(Record::Colour(i, c))
}

fn read_of_colour(rest: &[u8]) -> Result<Record<'_>, Reason>
    ensures { shown result ≡ parse_of_colour rest.now }
{
    let mut fields = Fields::of(rest);
    let Some(c) = fields.byte() else {
        return Err(Reason::Fields);
    };
    fields.end(Record::Question(Line::colour(c)))
}

fn read_not(rest: &[u8]) -> Result<Record<'_>, Reason>
    ensures { shown result ≡ parse_not rest.now }
{
    let mut fields = Fields::of(rest);
    let Some(k) = fields.number() else {
        return Err(Reason::Fields);
    };
    fields.end(Record::Question(Line::not(k)))
}

fn read_and(rest: &[u8]) -> Result<Record<'_>, Reason>
    ensures { shown result ≡ parse_and rest.now }
{
    let mut fields = Fields::of(rest);
    let Some(k) = fields.number() else {
        return Err(Reason::Fields);
    };
    let Some(l) = fields.number() else {
        return Err(Reason::Fields);
    };
    fields.end(Record::Question(Line::and(k, l)))
}

fn read_tied(rest: &[u8]) -> Result<Record<'_>, Reason>
    ensures { shown result ≡ parse_tied rest.now }
{
    let mut fields = Fields::of(rest);
    let Some(k) = fields.number() else {
        return Err(Reason::Fields);
    };
    let Some(t) = fields.byte() else {
        return Err(Reason::Fields);
    };
    fields.end(Record::Question(Line::tied(k, t)))
}

/// What a record says, or the first no of: a known mark (12), fields right in number and form (13).
#[tactic(auto, using(crate::proofs::FieldLaw::field_law, crate::proofs::RecordLaw::record_law, crate::proofs::MarkLaw::mark_law))]
pub fn read(line: &[u8]) -> Result<Record<'_>, Reason>
    ensures said { shown result ≡ parse line.now }
    ensures fields { FieldLaw }
    ensures records { RecordLaw }
    ensures marks { MarkLaw }
{
    let [first, second, rest @ ..] = line else {
        return Err(Reason::Mark);
    };
    match (first, second) {
        (b'N', b'M') => read_matrix(rest),
        (b'N', b'T') => read_two_mode(rest),
        (b'N', b'L') => read_slots(rest),
        (b'M', b'K') => Fields::of(rest).end(Record::Kinds),
        (b'M', b'B') => Fields::of(rest).end(Record::Bundles),
        (b'M', b'T') => Fields::of(rest).end(Record::Tally),
        (b'P', b'U') => read_put(rest),
        (b'C', b'O') => read_colour(rest),
        (b'Q', b'C') => read_of_colour(rest),
        (b'Q', b'N') => read_not(rest),
        (b'Q', b'A') => read_and(rest),
        (b'Q', b'T') => read_tied(rest),
        (b'G', b'O') => Fields::of(rest).end(Record::Go),
        (b'R', b'M') => Ok(Record::Remark(rest)),
        _ => Err(Reason::Mark),
    }
}
