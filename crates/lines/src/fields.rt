// Reading the fields after a line's letter.
ghost use Rattle.std.specs.Prelude.{◌≡◌, ℕ, ◌==◌, ◌≤◌, List, [], ◌∷◌, ◌++◌, length, MatchOption};
ghost use Rattle.std.specs.List.{position_or_len};
ghost use Rattle.std.specs.Option.{option_map};
ghost use Rattle.std.specs.Str.Parse.{AllDigits, digits_value};
ghost use Rattle.lines.specs.Lines.{numbers_of};
ghost use Rattle.lines.specs.Spelling.{byte, type_kind};
ghost use Rattle.lines.specs.Found.{Found};
ghost use Rattle.lines.specs.Fields.{Numeral, Fields, NumberFields, Ended, Spaceless, Leads};

use crate::values::{Access, Numbers};
use scheme::TypeKind;

// The most digits that a number has.
const MOST_DIGITS: usize = 4;

// What follows a space.
fn skip_space(bytes: &[u8]) -> Option<&[u8]>
    ensures { Found (λ rest. byte " " ∷ rest ≡ bytes.now) (option_map (λ x. x.now) result) }
{
    match bytes {
        [b' ', rest @ ..] => Some(rest),
        _ => None,
    }
}

// The place of the first space, or the end.
fn field_length(bytes: &[u8]) -> usize
    ensures { result ≡ position_or_len (λ b. b == byte " ") bytes.now }
{
    bytes.iter().position(|b| *b == b' ').unwrap_or(bytes.len())
}

// The bytes before the first space, and the others.
fn split_field(bytes: &[u8]) -> (&[u8], &[u8])
    ensures whole { result.0.now ++ result.1.now ≡ bytes.now }
    ensures field { Spaceless result.0.now }
    ensures rest { Ended result.1.now }
{
    bytes.split_at(field_length(bytes))
}

// The number that up to 4 digits write. By hand: the library parses a text and not bytes, and lets it begin with a plus.
fn digits_value(field: &[u8]) -> Option<u16>
    requires { length field.now ≤ 4 }
    ensures { MatchOption result (AllDigits 10 field.now → ⊥) (λ n. AllDigits 10 field.now × (n ≡ digits_value 10 field.now)) }
{
    let mut n: u16 = 0;
    for b in field {
        match *b {
            b'0'..=b'9' => n = 10 * n + (*b - b'0') as u16,
            _ => return None,
        }
    }
    Some(n)
}

// The number that a field spells: 1 to 4 digits, of which the first is 0 only in 0 itself.
fn field_number(field: &[u8]) -> Option<u16>
    ensures { Found (Numeral field.now) result }
{
    if field.is_empty() || field.len() > MOST_DIGITS {
        return None;
    }
    match field {
        [b'0', _, ..] => None,
        _ => digits_value(field),
    }
}

// The number of the next field, and what follows it.
fn next_number(bytes: &[u8]) -> Option<(u16, &[u8])>
    ensures { Found (Leads bytes.now) (option_map (λ x. (x.0, x.1.now)) result) }
{
    let bytes = skip_space(bytes)?;
    let (field, rest) = split_field(bytes);
    let n = field_number(field)?;
    Some((n, rest))
}

// The bytes after a line's letter: at most 40, and so at most 20 numbers.
#[derive(Clone, Copy)]
pub(crate) struct FieldBytes<'a> {
    pub(crate) bytes: &'a [u8],
    ghost short: { length bytes.now ≤ 40 },
}

impl<'a> FieldBytes<'a> {
    // The type's kind that the field after a `t` names.
    pub(crate) fn type_kind(&self) -> Option<TypeKind>
        ensures { Found (λ k. Fields self.now.bytes.now (type_kind k ∷ [])) result }
    {
        match self.bytes {
            [b' ', b's'] => Some(TypeKind::Subject),
            [b' ', b'o'] => Some(TypeKind::Object),
            _ => None,
        }
    }

    // The numbers of the fields, up to the end.
    pub(crate) fn all_numbers(&self) -> Option<Numbers>
        ensures { Found (NumberFields self.now.bytes.now) (option_map numbers_of result) }
    {
        let mut numbers = Numbers::new();
        let mut rest = self.bytes;
        while !rest.is_empty() {
            let (n, more) = next_number(rest)?;
            numbers.push(n);
            rest = more;
        }
        Some(numbers)
    }

    // The number of the only field.
    pub(crate) fn one_number(&self) -> Option<u16>
        ensures { Found (λ n. NumberFields self.now.bytes.now (n ∷ [])) result }
    {
        match self.all_numbers()?.as_slice() {
            [a] => Some(*a),
            _ => None,
        }
    }

    // The numbers of two fields that are all.
    pub(crate) fn two_numbers(&self) -> Option<(u16, u16)>
        ensures { MatchOption result ((a b : ℕ) → NumberFields self.now.bytes.now (a ∷ b ∷ []) → ⊥) (λ p. NumberFields self.now.bytes.now (p.0 ∷ p.1 ∷ [])) }
    {
        match self.all_numbers()?.as_slice() {
            [a, b] => Some((*a, *b)),
            _ => None,
        }
    }

    // The right, row and column of three fields that are all.
    pub(crate) fn access(&self) -> Option<Access>
        ensures { MatchOption result ((right row column : ℕ) → NumberFields self.now.bytes.now (right ∷ row ∷ column ∷ []) → ⊥) (λ a. NumberFields self.now.bytes.now (a.right ∷ a.row ∷ a.column ∷ [])) }
    {
        match self.all_numbers()?.as_slice() {
            [right, row, column] => Some(Access {
                right: *right,
                row: *row,
                column: *column,
            }),
            _ => None,
        }
    }

    // The number of the first field, and those of the others.
    pub(crate) fn number_and_others(&self) -> Option<(u16, Numbers)>
        ensures { MatchOption result ((n : ℕ) (ns : List ℕ) → NumberFields self.now.bytes.now (n ∷ ns) → ⊥) (λ p. NumberFields self.now.bytes.now (p.0 ∷ numbers_of p.1)) }
    {
        let (first, rest) = next_number(self.bytes)?;
        let others = FieldBytes { bytes: rest }.all_numbers()?;
        Some((first, others))
    }
}
