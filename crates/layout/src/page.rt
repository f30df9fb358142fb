//! The directory page as the program holds it.
use crate::entries::Entries;
use crate::entry::MOST_ENTRIES;
use numbers::sector::Sector;
use std::marker::Model;

/// The most entries that a page holds: while it is edited, one more than it stores.
pub const MOST_HELD: usize = MOST_ENTRIES + 1;

/// A directory page: the page of the names below its first entry, unless it is a leaf, and its entries.
#[derive(Clone, Copy, Debug, PartialEq, Eq)]
pub struct Page {
    pub first: Option<Sector>,
    pub entries: Entries,
}

/// A contract sees what the page holds.
impl Model for Page {
    ghost use Rattle.layout.specs.Pages.{PageData};

    ghost Value = { PageData };

    ghost view = { λ p. record { first = p.first; rows = p.entries } };

    ghost inverse = { λ d. record { first = d.first; entries = d.rows } };
}
