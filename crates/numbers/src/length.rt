//! Lengths of files and the sectors that hold them.
ghost use Rattle.std.specs.Prelude.{◌≡◌, ℕ, ◌+◌, ◌<◌, ◌≤◌, true, false, MatchOption, nat_le};
ghost use Rattle.numbers.specs.Lengths.{header_size, last_sector, last_bytes, length_of, good_end, place as place_of, tables as tables_of, sectors as sectors_of, longest};

/// The bytes of a sector, and those before the data in a file's first sector.
pub const SECTOR_SIZE: u32 = 1024;

pub const HEADER_SIZE: u32 = 352;

/// The file sectors whose addresses stand in the first sector, and in an extension table.
pub const NEAR_SECTORS: u32 = 64;

pub const TABLE_SECTORS: u32 = 256;

/// The longest file, and its last file sector.
pub const LONGEST: u32 = 3_210_912;

pub const LAST_OF_LONGEST: u32 = 3135;

/// So many bytes of a file with its header before them.
fn with_header(bytes: u32) -> u64
    ensures { result ≡ bytes + header_size }
{
    u64::from(bytes) + u64::from(HEADER_SIZE)
}

/// The length of a file in bytes.
#[derive(Clone, Copy, Debug, Default, PartialEq, Eq, PartialOrd, Ord)]
pub struct Length(pub u32);

impl Length {
    /// The length of a file whose last file sector is `last`, with `used` bytes in it, if the two are the end of a file.
    pub fn from_end(last: u32, used: u32) -> Option<Length>
        ensures { MatchOption result (good_end last used ≡ false) (λ l. (good_end last used ≡ true) × (l.0 ≡ length_of last used)) }
    {
        let least = if last == 0 { HEADER_SIZE } else { 1 };
        if last > LAST_OF_LONGEST || used < least || used > SECTOR_SIZE {
            return None;
        }
        Some(Length(SECTOR_SIZE * last + used - HEADER_SIZE))
    }

    /// Is it at most the length of the longest file?
    pub fn fits(self) -> bool
        ensures { result ≡ nat_le self.0 longest }
    {
        self.0 <= LONGEST
    }

    /// The last file sector.
    pub fn last_sector(self) -> u32
        ensures { result ≡ last_sector self.0 }
    {
        ((with_header(self.0) - 1) / u64::from(SECTOR_SIZE)) as u32
    }

    /// The bytes used in the last file sector.
    pub fn last_bytes(self) -> u32
        ensures { result ≡ last_bytes self.0 }
    {
        ((with_header(self.0) - 1) % u64::from(SECTOR_SIZE)) as u32 + 1
    }

    /// The number of sectors that a file of this length has, its extension tables among them.
    pub fn sectors(self) -> u32
        ensures { result ≡ sectors_of self.0 }
    {
        let last = self.last_sector();
        1 + last + tables(last)
    }
}

/// The number of extension tables of a file whose last file sector is `last`.
pub fn tables(last: u32) -> u32
    ensures { result ≡ tables_of last }
{
    if last < NEAR_SECTORS {
        0
    } else {
        (last - NEAR_SECTORS) / TABLE_SECTORS + 1
    }
}

/// The file sector that holds byte `p` of a file, and the offset there.
pub fn place(p: u32) -> (u32, usize)
    ensures { (result.0 ≡ (place_of p).0) × (result.1 ≡ (place_of p).1) }
{
    let q = with_header(p);
    (
        (q / u64::from(SECTOR_SIZE)) as u32,
        (q % u64::from(SECTOR_SIZE)) as usize,
    )
}
