ghost use Rattle.std.specs.Prelude.{◌≡◌};
ghost use Rattle.plan.specs.Lines.{word_of, put_of, size_of, said, told};

use crate::fault::LineFault;

/// A line of a plan, with its text as a part of the line.
#[derive(Clone, Copy, PartialEq, Eq, Debug)]
pub enum Line<'a> {
    Size(u32),
    Put { sector: u32, text: &'a [u8] },
    Settle,
}

/// The first word of a line.
#[derive(Clone, Copy, PartialEq, Eq, Debug)]
pub enum Word {
    Size,
    Put,
    Settle,
}

impl<'a> TryFrom<&'a [u8]> for Word {
    type Error = LineFault;

    ghost try_from_gives = { λ s r. r ≡ word_of s.now };

    fn try_from(s: &'a [u8]) -> Result<Word, LineFault> {
        match s {
            b"SIZE" => Ok(Word::Size),
            b"PUT" => Ok(Word::Put),
            b"SETTLE" => Ok(Word::Settle),
            _ => Err(LineFault::Word),
        }
    }
}

/// What follows `SIZE,`.
fn size_line<'a>(s: &'a [u8]) -> Result<Line<'a>, LineFault>
    ensures { told result ≡ size_of s.now }
{
    let n = fields::number(s).ok_or(LineFault::Number)?;
    Ok(Line::Size(n))
}

/// What follows `PUT,`.
fn put_line<'a>(s: &'a [u8]) -> Result<Line<'a>, LineFault>
    ensures { told result ≡ put_of s.now }
{
    let (first, text) = fields::split(s).ok_or(LineFault::Fields)?;
    let sector = fields::number(first).ok_or(LineFault::Number)?;
    Ok(Line::Put { sector, text })
}

/// What a line says.
pub fn parse<'a>(line: &'a [u8]) -> Result<Line<'a>, LineFault>
    ensures { told result ≡ said line.now }
{
    match fields::split(line) {
        Some((first, more)) => match Word::try_from(first)? {
            Word::Size => size_line(more),
            Word::Put => put_line(more),
            Word::Settle => Err(LineFault::Fields),
        },
        None => match Word::try_from(line)? {
            Word::Size | Word::Put => Err(LineFault::Fields),
            Word::Settle => Ok(Line::Settle),
        },
    }
}
