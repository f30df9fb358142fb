//! The listing of a volume.
use numbers::length::Length;
use numbers::name::Name;
use numbers::sector::Sector;

/// A line of a listing: a name, and the first sector and the length of its file.
#[derive(Clone, Copy, Debug, Default, PartialEq, Eq)]
pub struct FileRow {
    pub name: Name,
    pub first: Sector,
    pub length: Length,
}
