//! Names of files.
ghost use Rattle.std.specs.Prelude.{◌≡◌, ℕ, ◌+◌, ◌<◌, ◌≤◌, true, false, length, MatchOption};
ghost use Rattle.numbers.specs.Names.{letter, letter_digit_dot, good_name, name_field, name_in, is_name_field};
ghost use Rattle.numbers.specs.Order.{cmp};

use std::cmp::Ordering;

/// The longest name, and the bytes of the field that holds one.
pub const LONGEST_NAME: usize = 31;

pub const NAME_SIZE: usize = 32;

/// A name as it is stored: its bytes, zero-filled to 32. Names rise by their first differing byte.
#[derive(Clone, Copy, Debug, Default, PartialEq, Eq, PartialOrd, Ord)]
pub struct Name {
    pub bytes: [u8; NAME_SIZE],
}

fn is_letter(b: u8) -> bool
    ensures { result ≡ letter b }
{
    // a rule of the project, here and below: a byte of a name is matched as a char
    matches!(b as char, 'A'..='Z' | 'a'..='z')
}

fn is_name_byte(b: u8) -> bool
    ensures { result ≡ letter_digit_dot b }
{
    is_letter(b) || matches!(b as char, '0'..='9' | '.')
}

/// Has the name 1 to 31 bytes, a letter first, then letters, digits or dots?
pub fn is_good_name(text: &[u8]) -> bool
    ensures { result ≡ good_name text.now }
{
    match text {
        [first, rest @ ..] if is_letter(*first) && text.len() <= LONGEST_NAME => {
            rest.iter().all(|b| is_name_byte(*b))
        }
        _ => false,
    }
}

/// The bytes of a field before its first 0.
fn text_in(field: &[u8]) -> &[u8]
    ensures { result.now ≡ name_in field.now }
{
    match field.iter().position(|b| *b == 0) {
        Some(end) => &field[..end],
        None => field,
    }
}

impl Name {
    /// The name of these bytes, if it is a good one.
    // no `TryFrom`, here and below: 32 bytes can be a text or a field, and `try_from` would not say which
    pub fn new(text: &[u8]) -> Option<Name>
        ensures { MatchOption result (good_name text.now ≡ false) (λ n. (good_name text.now ≡ true) × (n.bytes ≡ name_field text.now)) }
    {
        if !is_good_name(text) {
            return None;
        }
        let mut bytes = [0u8; NAME_SIZE];
        bytes[..text.len()].copy_from_slice(text);
        Some(Name { bytes })
    }

    /// The name in a field of 32 bytes, if the field holds a good one, zero-filled.
    pub fn from_field(field: [u8; NAME_SIZE]) -> Option<Name>
        ensures { MatchOption result (is_name_field field ≡ false) (λ n. (is_name_field field ≡ true) × (n.bytes ≡ field)) }
    {
        let name = Name::new(text_in(&field))?;
        (name.bytes == field).then_some(name)
    }

    /// The bytes of the name, without its zeros.
    pub fn text(&self) -> &[u8]
        ensures { result.now ≡ name_in self.now.bytes }
    {
        text_in(&self.bytes)
    }

    /// Is this name below the other, the same, or above it?
    // the derived order; kept beside it for its contract, which says the order in the words of the format
    pub fn compare(&self, other: &Name) -> Ordering
        ensures { result ≡ cmp self.now.bytes other.now.bytes }
    {
        self.cmp(other)
    }
}
