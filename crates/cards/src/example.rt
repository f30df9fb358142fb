//! Example cards, by their names.
ghost use Rattle.std.specs.Prelude.{◌≡◌, Some, MatchOption};
ghost use Rattle.cards.specs.Texts.{example_text, Unnamed};
ghost use Rattle.cards.specs.Examples.{example_sectors};

use crate::card::Card;
use crate::fault::CardFault;
use crate::files::{Plan, name_of};
use crate::tree::{Level, Tree};
use layout::entry::Entry;
use layout::page::Page;
use numbers::length::Length;
use numbers::sector::Sector;
use std::fmt;

/// The sector of the root page.
const ROOT: Sector = Sector(1);

/// A card that is built for a test or a trial; each is sound. Byte p of a file is p mod 251, and file k of a directory of several levels
/// has k mod 500 bytes.
#[derive(Clone, Copy, PartialEq, Eq, Debug)]
pub enum Example {
    /// no file
    Empty,
    /// Foyer.IR of 5 bytes in sector 2, and Hall.IR of 1,000 bytes in sectors 3 and 4
    TwoFiles,
    /// Nave.IR of 66,000 bytes in sectors 2 to 66 with its table in 67, and Wing.IR of 10 bytes in sector 68; each byte that is left free
    /// holds something
    Odd,
    /// Long.IR of 327,329 bytes in sectors 2 to 322, with its tables in 323 and 324
    Long,
    /// a root of one entry over leaves of 12 in sectors 2 and 3, and files F0000 to F0024 from sector 4 on
    TwoLevels,
    /// a root of one entry over pages of 12 in sectors 2 and 3, over leaves of 12 in sectors 4 to 29, and files F0000 to F0336 from sector 30 on
    ThreeLevels,
    /// the same with one level more: leaves of 12 in sectors 30 to 367, and files F0000 to F4392 from sector 368 on
    FourLevels,
}

/// The directory of `TwoLevels`.
static TWO_LEVELS: [Level; 2] = [
    Level {
        at: ROOT,
        pages: 1,
        entries: 1,
        below: 12,
        child: Some(Sector(2)),
    },
    Level {
        at: Sector(2),
        pages: 2,
        entries: 12,
        below: 0,
        child: None,
    },
];

/// The directory of `ThreeLevels`: below a page of its second level are 13 leaves and 12 entries, 168 names.
static THREE_LEVELS: [Level; 3] = [
    Level {
        at: ROOT,
        pages: 1,
        entries: 1,
        below: 168,
        child: Some(Sector(2)),
    },
    Level {
        at: Sector(2),
        pages: 2,
        entries: 12,
        below: 12,
        child: Some(Sector(4)),
    },
    Level {
        at: Sector(4),
        pages: 26,
        entries: 12,
        below: 0,
        child: None,
    },
];

/// The directory of `FourLevels`: below a page of its second level are 13 pages of its third and 12 entries, 2,196 names.
static FOUR_LEVELS: [Level; 4] = [
    Level {
        at: ROOT,
        pages: 1,
        entries: 1,
        below: 2196,
        child: Some(Sector(2)),
    },
    Level {
        at: Sector(2),
        pages: 2,
        entries: 12,
        below: 168,
        child: Some(Sector(4)),
    },
    Level {
        at: Sector(4),
        pages: 26,
        entries: 12,
        below: 12,
        child: Some(Sector(30)),
    },
    Level {
        at: Sector(30),
        pages: 338,
        entries: 12,
        below: 0,
        child: None,
    },
];

/// A file that lies whole in sectors that follow one another.
fn plan(text: &[u8], length: u32, first: u16, table: u16) -> Result<Plan, CardFault> {
    Ok(Plan {
        name: name_of(text)?,
        length: Length(length),
        first: Sector(first),
        table: Sector(table),
    })
}

/// Puts a root that is a leaf, and its files.
fn put_files(card: &mut Card<'_>, files: &[Plan]) -> Result<(), CardFault> {
    let mut root = Page::new(None);
    for file in files {
        root.push(Entry {
            name: file.name,
            file: file.first,
            below: None,
        })?;
        file.put(card)?;
    }
    card.put_page(ROOT, &root)
}

/// Puts a directory of several levels, and its files, which follow one another from a sector on.
fn put_tree(
    card: &mut Card<'_>,
    levels: &[Level],
    files_at: Sector,
    files: u16,
) -> Result<(), CardFault> {
    let tree = Tree { files_at, files };
    for level in levels {
        tree.put_level(card, level)?;
    }
    tree.put_files(card)
}

/// Two files, and something wherever the format leaves it free what a byte holds.
fn put_odd(card: &mut Card<'_>) -> Result<(), CardFault> {
    let nave = plan(b"Nave.IR", 66_000, 2, 67)?;
    let wing = plan(b"Wing.IR", 10, 68, 0)?;
    put_files(card, &[nave, wing])?;
    card.put_bytes(Sector(0), 0, &[0xFF; 1024])?; // sector 0 is unused
    card.put_bytes(ROOT, 144, &[0xFF; 880])?; // the entries from 2 on
    card.put_bytes(Sector(2), 44, b"2013")?; // the date
    card.put_bytes(Sector(66), 816, &[0xFF; 208])?; // behind the last byte
    card.put_bytes(Sector(67), 4, &[0xFF; 1020])?; // past the end of the table
    card.put_bytes(Sector(68), 4, &[0xFF; 32])?; // the file's own name
    card.put_bytes(Sector(68), 362, &[0xFF; 662])?;
    card.put_bytes(Sector(70), 0, &[0xFF; 1024]) // free
}

impl Example {
    /// The example of this name.
    pub fn named(text: &str) -> Option<Example>
        ensures { MatchOption result (Unnamed text.now) (λ e. example_text e ≡ text.now) }
    {
        match text {
            "empty" => Some(Example::Empty),
            "two-files" => Some(Example::TwoFiles),
            "odd" => Some(Example::Odd),
            "long" => Some(Example::Long),
            "two-levels" => Some(Example::TwoLevels),
            "three-levels" => Some(Example::ThreeLevels),
            "four-levels" => Some(Example::FourLevels),
            _ => None,
        }
    }

    /// The number of sectors of its image.
    pub fn sectors(self) -> usize
        ensures { result ≡ example_sectors self }
    {
        match self {
            Example::Empty | Example::TwoFiles => 10,
            Example::Odd => 80,
            Example::Long => 330,
            Example::TwoLevels => 40,
            Example::ThreeLevels => 400,
            Example::FourLevels => 4800,
        }
    }

    /// Builds the card over a blank image.
    pub fn build(self, card: &mut Card<'_>) -> Result<(), CardFault> {
        match self {
            Example::Empty => put_files(card, &[]),
            Example::TwoFiles => {
                let foyer = plan(b"Foyer.IR", 5, 2, 0)?;
                let hall = plan(b"Hall.IR", 1000, 3, 0)?;
                put_files(card, &[foyer, hall])
            }
            Example::Odd => put_odd(card),
            Example::Long => put_files(card, &[plan(b"Long.IR", 327_329, 2, 323)?]),
            Example::TwoLevels => put_tree(card, &TWO_LEVELS, Sector(4), 25),
            Example::ThreeLevels => put_tree(card, &THREE_LEVELS, Sector(30), 337),
            Example::FourLevels => put_tree(card, &FOUR_LEVELS, Sector(368), 4393),
        }
    }
}

impl fmt::Display for Example {
    ghost output = { λ example. Some (example_text example) };

    fn fmt<W: fmt::Write>(&self, f: &mut fmt::Formatter<W>) -> fmt::Result {
        f.write_str(match self {
            Example::Empty => "empty",
            Example::TwoFiles => "two-files",
            Example::Odd => "odd",
            Example::Long => "long",
            Example::TwoLevels => "two-levels",
            Example::ThreeLevels => "three-levels",
            Example::FourLevels => "four-levels",
        })
    }
}
