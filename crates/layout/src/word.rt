//! Values stored in a sector.
ghost use Rattle.std.specs.Prelude.{◌≡◌, ℕ, ◌+◌, ◌*◌, ◌<◌, ◌≤◌, List, [], ◌∷◌, length, MatchOption, MatchResult, Some, codes};
ghost use Rattle.numbers.specs.Names.{name_size};
ghost use Rattle.layout.specs.Words.{Contents, blank, word, stored, stored_all, part, written, sector_size, word_size, numbers, addresses_in};

use numbers::length;
use numbers::name::{NAME_SIZE, Name};
use numbers::sector::Address;
use std::error::Error;
use std::{array, fmt};

/// The bytes of a sector, and of a stored number.
pub const SECTOR_SIZE: usize = length::SECTOR_SIZE as usize;

pub(crate) const WORD_SIZE: usize = 4;

/// The bytes of one sector.
pub type SectorBytes = [u8; SECTOR_SIZE];

/// A new sector, every byte 0.
pub fn blank_sector() -> SectorBytes
    ensures { result ≡ blank }
{
    [0u8; SECTOR_SIZE]
}

/// A value that stands in a sector: so many bytes from some byte on.
pub(crate) trait Stored: Sized {
    /// the number of its bytes, the bytes of a value, and the value that stands from a byte on
    ghost size: { ℕ };

    ghost bytes: { Self → List ℕ };

    ghost standing: { Contents → ℕ → Self };

    /// Writes the value from byte `at` on, and no other byte.
    fn store(&self, sector: &mut SectorBytes, at: usize)
        requires { at + size ≤ sector_size }
        ensures after { sector.new ≡ written sector.old at (bytes self.now) }
        ensures long { length (bytes self.now) ≡ size };

    /// Reads the value from byte `at` on.
    fn load(sector: &SectorBytes, at: usize) -> Self
        requires { at + size ≤ sector_size }
        ensures { result ≡ standing sector.now at };
}

impl<const N: usize> Stored for [u8; N] {
    ghost size = { N };

    ghost bytes = { λ b. b };

    ghost standing = { λ c i. part c i N };

    #[inline]
    fn store(&self, sector: &mut SectorBytes, at: usize) {
        sector[at..at + N].copy_from_slice(self);
    }

    fn load(sector: &SectorBytes, at: usize) -> [u8; N] {
        let mut bytes = [0u8; N];
        bytes.copy_from_slice(&sector[at..at + N]);
        bytes
    }
}

/// Least byte first.
impl Stored for u32 {
    ghost size = { word_size };

    ghost bytes = { stored };

    ghost standing = { word };

    #[inline]
    fn store(&self, sector: &mut SectorBytes, at: usize) {
        self.to_le_bytes().store(sector, at);
    }

    fn load(sector: &SectorBytes, at: usize) -> u32 {
        u32::from_le_bytes(<[u8; WORD_SIZE]>::load(sector, at))
    }
}

impl Stored for Address {
    ghost size = { word_size };

    ghost bytes = { λ a. stored a.0 };

    ghost standing = { λ c i. record { 0 = word c i } };

    #[inline]
    fn store(&self, sector: &mut SectorBytes, at: usize) {
        self.0.store(sector, at);
    }

    fn load(sector: &SectorBytes, at: usize) -> Address {
        Address(u32::load(sector, at))
    }
}

impl Stored for Name {
    ghost size = { name_size };

    ghost bytes = { λ n. n.bytes };

    ghost standing = { λ c i. record { bytes = part c i name_size } };

    #[inline]
    fn store(&self, sector: &mut SectorBytes, at: usize) {
        self.bytes.store(sector, at);
    }

    fn load(sector: &SectorBytes, at: usize) -> Name {
        Name {
            bytes: <[u8; NAME_SIZE]>::load(sector, at),
        }
    }
}

/// Writes addresses from byte `at` on, and no other byte.
// of a slice: over an array, whose length is known, the loop is unrolled and takes three times as long as a copy
fn store_addresses(list: &[Address], sector: &mut SectorBytes, at: usize)
    requires { at + word_size * length list.now ≤ sector_size }
    ensures { sector.new ≡ written sector.old at (stored_all (numbers list.now)) }
{
    for (i, address) in list.iter().enumerate() {
        address.store(sector, at + WORD_SIZE * i);
    }
}

impl<const N: usize> Stored for [Address; N] {
    ghost size = { word_size * N };

    ghost bytes = { λ list. stored_all (numbers list) };

    ghost standing = { λ c i. addresses_in c i N };

    #[inline]
    fn store(&self, sector: &mut SectorBytes, at: usize) {
        store_addresses(self, sector, at);
    }

    fn load(sector: &SectorBytes, at: usize) -> [Address; N] {
        array::from_fn(|i| Address::load(sector, at + WORD_SIZE * i))
    }
}

/// The offset leaves no room for a number in the sector.
#[derive(Clone, Copy, Debug, PartialEq, Eq)]
pub struct OutOfSector;

impl fmt::Display for OutOfSector {
    ghost output = { λ _. Some (codes "no room for a number there in the sector") };

    fn fmt<W: fmt::Write>(&self, f: &mut fmt::Formatter<W>) -> fmt::Result {
        f.write_str("no room for a number there in the sector")
    }
}

impl Error for OutOfSector {}

/// Writes a number from byte `at` on, and no other byte. A refusal changes nothing.
pub fn put_word(sector: &mut SectorBytes, at: usize, value: u32) -> Result<(), OutOfSector>
    ensures { MatchResult result
        (λ _. (at + word_size ≤ sector_size) × (sector.new ≡ written sector.old at (stored value)))
        (λ _. (sector_size < at + word_size) × (sector.new ≡ sector.old)) }
{
    if at > SECTOR_SIZE - WORD_SIZE {
        return Err(OutOfSector);
    }
    value.store(sector, at);
    Ok(())
}

/// Reads the number from byte `at` on, where its four bytes lie in the sector.
pub fn get_word(sector: &SectorBytes, at: usize) -> Option<u32>
    ensures { MatchOption result (sector_size < at + word_size) (λ v. (at + word_size ≤ sector_size) × (v ≡ word sector.now at)) }
{
    (at <= SECTOR_SIZE - WORD_SIZE).then(|| u32::load(sector, at))
}
