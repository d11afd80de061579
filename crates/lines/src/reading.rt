// Reading a whole line.
ghost use Rattle.std.specs.Prelude.{◌∷◌};
ghost use Rattle.std.specs.Option.{option_map};
ghost use Rattle.lines.specs.Lines.{said};
ghost use Rattle.lines.specs.Found.{Found};
ghost use Rattle.lines.specs.Fields.{FieldsOf};
ghost use Rattle.lines.specs.Spelling.{Spells};
ghost use Rattle.lines.specs.Reads.{Reads};

use crate::faults::LineFault;
use crate::fields::FieldBytes;
use crate::kinds::Kind;
use crate::values::Line;

// The most bytes that a line has.
const MOST_BYTES: usize = 40;

// The line of a kind whose fields these are.
fn by_kind(kind: Kind, fields: &FieldBytes) -> Option<Line>
    ensures { Found (FieldsOf kind fields.now.bytes.now) (option_map said result) }
{
    match kind {
        Kind::Declare => Some(Line::Declare(fields.type_kind()?)),
        Kind::Command => Some(Line::Command(fields.all_numbers()?)),
        Kind::Test => Some(Line::Test(fields.access()?)),
        Kind::Enter => Some(Line::Enter(fields.access()?)),
        Kind::Delete => Some(Line::Delete(fields.access()?)),
        Kind::Create => Some(Line::Create(fields.one_number()?)),
        Kind::Destroy => Some(Line::Destroy(fields.one_number()?)),
        Kind::Grid => Some(Line::Grid(fields.one_number()?)),
        Kind::Grants => {
            let (places, records) = fields.two_numbers()?;
            Some(Line::Grants { places, records })
        }
        Kind::Place => {
            let (place, type_number) = fields.two_numbers()?;
            Some(Line::Place { place, type_number })
        }
        Kind::Hold => Some(Line::Hold(fields.access()?)),
        Kind::Step => {
            let (command, places) = fields.number_and_others()?;
            Some(Line::Step { command, places })
        }
        Kind::Close if fields.bytes.is_empty() => Some(Line::Close),
        Kind::Ask => Some(Line::Ask(fields.access()?)),
        Kind::Reopen if fields.bytes.is_empty() => Some(Line::Reopen),
        Kind::Close | Kind::Reopen => None,
    }
}

// The line whose letter and fields these are.
fn by_letter(letter: u8, fields: &FieldBytes) -> Option<Line>
    ensures { Found (Spells (letter ∷ fields.now.bytes.now)) (option_map said result) }
{
    by_kind(Kind::of_letter(letter)?, fields)
}

// The line that the bytes spell, if they are at most 40.
pub fn read_line(bytes: &[u8]) -> Result<Line, LineFault>
    ensures { Reads bytes.now result }
{
    if bytes.len() > MOST_BYTES {
        return Err(LineFault::Malformed);
    }
    match bytes {
        [letter, rest @ ..] => {
            by_letter(*letter, &FieldBytes { bytes: rest }).ok_or(LineFault::Malformed)
        }
        [] => Err(LineFault::Malformed),
    }
}
