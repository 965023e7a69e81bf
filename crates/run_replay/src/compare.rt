// The oracle's answer beside what a routine gave.
ghost use Rattle.std.specs.Prelude.{[], ◌≤◌, length};
ghost use Rattle.run_replay.specs.Same.{SameOnlyIf};

use std::io::ErrorKind;
use std::{fmt, io};

// Where an answer isn't the oracle's: the number that was given, or the place of the first byte or field that differs.
#[derive(Clone, Copy, Debug, PartialEq, Eq)]
pub(crate) enum Difference {
    Number(u32),
    Entries(usize),
    Output(usize),
    Field(usize),
}

impl fmt::Display for Difference {
    fn fmt<W: fmt::Write>(&self, f: &mut fmt::Formatter<W>) -> fmt::Result {
        match self {
            Difference::Number(number) => write!(f, "not the number {number}"),
            Difference::Entries(place) => write!(f, "entries differ from byte {place}"),
            Difference::Output(place) => write!(f, "output differs from byte {place}"),
            Difference::Field(place) => write!(f, "field {place} of the answer differs"),
        }
    }
}

// Why a record isn't as it must be: it differs, or the list ends in it, or can't be read.
#[derive(Debug, Drop)]
pub(crate) enum Fault {
    Differs(Difference),
    Cut,
    Input(io::Error),
}

impl From<Difference> for Fault {
    fn from(difference: Difference) -> Fault {
        Fault::Differs(difference)
    }
}

impl From<io::Error> for Fault {
    fn from(e: io::Error) -> Fault {
        match e.kind() {
            ErrorKind::UnexpectedEof => Fault::Cut,
            _ => Fault::Input(e),
        }
    }
}

// What a call leaves: its number, and the rows that it was lent.
#[derive(Clone, Copy)]
pub(crate) struct Answer<'a> {
    pub(crate) number: u32,
    pub(crate) entries: &'a [u8],
    pub(crate) output: &'a [u8],
}

// The place of the first item that differs.
fn first_difference<T: PartialEq>(ours: &[T], oracle: &[T]) -> usize
    ensures { result ≤ length ours.now }
{
    ours.iter()
        .zip(oracle)
        .position(|(a, b)| a != b)
        .unwrap_or(ours.len())
}

pub(crate) fn compare_numbers(number: u32, oracle_number: u32) -> Result<(), Difference>
    ensures { SameOnlyIf result number [] [] oracle_number [] [] }
{
    if number == oracle_number {
        Ok(())
    } else {
        Err(Difference::Number(number))
    }
}

// Number, entries and output.
pub(crate) fn compare(ours: Answer<'_>, oracle: Answer<'_>) -> Result<(), Difference>
    ensures { SameOnlyIf result
        ours.entry.number ours.entry.entries.now ours.entry.output.now
        oracle.entry.number oracle.entry.entries.now oracle.entry.output.now }
{
    compare_numbers(ours.number, oracle.number)?;
    if ours.entries != oracle.entries {
        let place = first_difference(ours.entries, oracle.entries);
        return Err(Difference::Entries(place));
    }
    if ours.output != oracle.output {
        let place = first_difference(ours.output, oracle.output);
        return Err(Difference::Output(place));
    }
    Ok(())
}

// The number, which is field 0, and the fields behind it.
pub(crate) fn compare_fields(
    number: u32,
    fields: &[u32],
    oracle_number: u32,
    oracle_fields: &[u32],
) -> Result<(), Difference>
    ensures { SameOnlyIf result number fields.now [] oracle_number oracle_fields.now [] }
{
    compare_numbers(number, oracle_number)?;
    if fields != oracle_fields {
        let place = first_difference(fields, oracle_fields);
        return Err(Difference::Field(place + 1));
    }
    Ok(())
}
