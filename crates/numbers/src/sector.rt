//! Sector numbers and stored addresses.
ghost use Rattle.std.specs.Prelude.{◌≡◌, Bool, true, false, ◌==◌};
ghost use Rattle.numbers.specs.Sectors.{address, link_address, sector_at, as_due};

/// A sector's stored address is this times its number.
const ADDRESS_STEP: u32 = 29;

/// The first sector that an address may lead to: 0 is unused and 1 is the root page.
const FIRST_LINKED: u32 = 2;

/// The number of a sector. A disk has at most 16,384 sectors.
#[derive(Clone, Copy, Debug, Default, PartialEq, Eq, PartialOrd, Ord)]
pub struct Sector(pub u16);

/// A sector's number as it is stored: 29 times the number, and 0 for none.
#[derive(Clone, Copy, Debug, Default, PartialEq, Eq)]
pub struct Address(pub u32);

impl Sector {
    /// The address that stands for this sector.
    pub fn address(self) -> Address
        ensures { result.0 ≡ address self.0 }
    {
        Address::from(self)
    }
}

/// The address that stands for this sector.
impl From<Sector> for Address {
    ghost from_gives = { λ s a. a.0 ≡ address s.0 };

    fn from(sector: Sector) -> Address {
        Address(ADDRESS_STEP * u32::from(sector.0))
    }
}

/// The address that stands for a sector or for none.
impl From<Option<Sector>> for Address {
    ghost from_gives = { λ link a. a.0 ≡ link_address link };

    fn from(link: Option<Sector>) -> Address {
        link.map_or(Address(0), Address::from)
    }
}

impl Address {
    /// Does it stand for no sector?
    pub fn is_none(self) -> bool
        ensures { result ≡ (self.0 == 0) }
    {
        self.0 == 0
    }

    /// The sector that the address leads to on a disk of `size` sectors: a multiple of 29, its number from 2 to size - 1.
    // No `TryFrom`, since the size decides too.
    pub fn sector(self, size: u16) -> Option<Sector>
        ensures { result ≡ sector_at size self.0 }
    {
        let number = self.0 / ADDRESS_STEP;
        if self.0 % ADDRESS_STEP != 0 || number < FIRST_LINKED || number >= u32::from(size) {
            return None;
        }
        Some(Sector(number as u16))
    }

    /// Is it an address of a sector where one is due, and 0 elsewhere?
    pub fn is_as_due(self, due: bool, size: u16) -> bool
        ensures { result ≡ as_due size due self.0 }
    {
        if due {
            self.sector(size).is_some()
        } else {
            self.is_none()
        }
    }
}
