//! Directories of several levels.
ghost use Rattle.std.specs.Prelude.{◌<◌};

use crate::card::Card;
use crate::fault::CardFault;
use crate::files::{Plan, name_of, nth};
use layout::entry::Entry;
use layout::page::Page;
use numbers::length::Length;
use numbers::name::Name;
use numbers::sector::Sector;

/// A level of a directory: so many pages that follow one another from sector `at` on, each with so many entries. Below each child of a
/// page are so many names, and the children of the level follow one another from `child` on.
#[derive(Clone, Copy)]
pub(crate) struct Level {
    pub at: Sector,
    pub pages: usize,
    pub entries: usize,
    pub below: usize,
    pub child: Option<Sector>,
}

/// The files of a directory of several levels: so many that follow one another from sector `files_at` on in the order of names.
/// File k has the name F and four digits of k, and k mod 500 bytes.
#[derive(Clone, Copy)]
pub(crate) struct Tree {
    pub files_at: Sector,
    pub files: u16,
}

/// The decimal digit of a number at a place.
fn digit(number: usize, place: usize) -> u8
    requires { 0 < place }
{
    b'0' + (number / place % 10) as u8
}

/// The name of file `number`: F and four digits.
fn name_at(number: usize) -> Result<Name, CardFault> {
    name_of(&[
        b'F',
        digit(number, 1000),
        digit(number, 100),
        digit(number, 10),
        digit(number, 1),
    ])
}

/// How far a level is written: the number of the next name, and the next child.
#[derive(Clone, Copy)]
struct Walk {
    number: usize,
    child: Option<Sector>,
}

impl Walk {
    /// Passes a child, with so many names below it.
    fn pass(&mut self, below: usize) -> Option<Sector> {
        let child = self.child;
        self.child = child.map(|sector| nth(sector, 1));
        self.number = self.number.saturating_add(below);
        child
    }

    /// Takes the next name.
    fn take(&mut self) -> usize {
        let number = self.number;
        self.number = number.saturating_add(1);
        number
    }
}

impl Tree {
    /// The next page of a level.
    fn page(&self, level: &Level, walk: &mut Walk) -> Result<Page, CardFault> {
        let mut page = Page::new(walk.pass(level.below));
        for _ in 0..level.entries {
            let number = walk.take();
            page.push(Entry {
                name: name_at(number)?,
                file: nth(self.files_at, number),
                below: walk.pass(level.below),
            })?;
        }
        let _ = walk.take(); // the name above, between this page and the next
        Ok(page)
    }

    /// Puts the pages of a level to a card.
    pub fn put_level(&self, card: &mut Card<'_>, level: &Level) -> Result<(), CardFault> {
        let mut walk = Walk {
            number: 0,
            child: level.child,
        };
        for k in 0..level.pages {
            let page = self.page(level, &mut walk)?;
            card.put_page(nth(level.at, k), &page)?;
        }
        Ok(())
    }

    /// Puts the files to a card.
    pub fn put_files(&self, card: &mut Card<'_>) -> Result<(), CardFault> {
        for number in 0..self.files {
            let file = Plan {
                name: name_at(usize::from(number))?,
                length: Length(u32::from(number % 500)),
                first: nth(self.files_at, usize::from(number)),
                table: Sector(0),
            };
            file.put(card)?;
        }
        Ok(())
    }
}
