use crate::images::image_of;
use cards::card::Card;
use cards::example::Example;
use cards::example::Example::{Empty, FourLevels, Long, Odd, ThreeLevels, TwoFiles, TwoLevels};
use cards::fault::CardFault;
use catalog::fault::{LayoutFault, VolumeFault};
use disk::image::Image;
use numbers::sector::Sector;
use std::alloc::Global;
use std::process::Abort;
use std::test::Fail;
use survey::map::SectorMap;
use survey::survey::survey;

/// What is written over a part of a sector: its number, the offset there, and a number or bytes.
#[derive(Clone, Copy)]
enum Edit {
    Word(u16, usize, u32),
    Bytes(u16, usize, &'static [u8]),
}

use Edit::{Bytes, Word};

impl Edit {
    fn put(&self, card: &mut Card<'_>) -> Result<(), CardFault> {
        match self {
            Word(sector, offset, value) => card.put_word(Sector(*sector), *offset, *value),
            Bytes(sector, offset, bytes) => card.put_bytes(Sector(*sector), *offset, bytes),
        }
    }
}

/// An example, what is written over it, and the number and the sector of the refusal.
type Broken = (Example, &'static [Edit], u8, u16);

const PAGE: u32 = 0x9B1EA38D;

const FILE: u32 = 0x9BA71D86;

/// The stored address of a sector is 29 times its number.
static BROKEN: [Broken; 83] = [
    // 11: the mark of the root, of another page and of a first sector; bytes 12 and 63 of a page
    (Empty, &[Word(1, 0, PAGE - 1)], 11, 1),
    (TwoFiles, &[Word(1, 0, FILE)], 11, 1),
    (TwoFiles, &[Bytes(1, 12, &[1])], 11, 1),
    (TwoFiles, &[Bytes(1, 63, &[1])], 11, 1),
    (TwoLevels, &[Word(3, 0, FILE)], 11, 3),
    (ThreeLevels, &[Bytes(29, 40, &[255])], 11, 29),
    (TwoFiles, &[Word(3, 0, PAGE)], 11, 3),
    (ThreeLevels, &[Word(366, 0, 0)], 11, 366),
    // 12: a root that is a leaf, one with children, another page
    (TwoFiles, &[Word(1, 4, 25)], 12, 1),
    (TwoLevels, &[Word(1, 4, 0)], 12, 1),
    (TwoLevels, &[Word(1, 4, 25)], 12, 1),
    (TwoLevels, &[Word(2, 4, 11)], 12, 2),
    (TwoLevels, &[Word(3, 4, 25)], 12, 3),
    (ThreeLevels, &[Word(3, 4, 0)], 12, 3),
    // 13: p0 is no multiple of 29, sector 1, past the last sector; a root whose p0 is 0 is a leaf, so that p of its entry 0 has to be 0
    (TwoLevels, &[Word(1, 8, 29 * 2 + 1)], 13, 1),
    (TwoLevels, &[Word(1, 8, 29)], 13, 1),
    (TwoLevels, &[Word(1, 8, 29 * 40)], 13, 1),
    (TwoLevels, &[Word(1, 8, 0)], 13, 1),
    (ThreeLevels, &[Word(2, 8, 0)], 13, 2),
    // an entry's file: none, no multiple, sector 1, past the last sector
    (TwoLevels, &[Word(1, 96, 0)], 13, 1),
    (TwoFiles, &[Word(1, 136, 29 * 3 - 1)], 13, 1),
    (TwoLevels, &[Word(2, 96, 29)], 13, 2),
    (TwoLevels, &[Word(3, 536, 29 * 40)], 13, 3),
    // an entry's p: in a leaf, and none, no multiple or past the last sector in another page
    (TwoFiles, &[Word(1, 100, 29 * 5)], 13, 1),
    (TwoLevels, &[Word(2, 100, 29 * 30)], 13, 2),
    (TwoLevels, &[Word(1, 100, 0)], 13, 1),
    (TwoLevels, &[Word(1, 100, 29 * 3 + 1)], 13, 1),
    (ThreeLevels, &[Word(3, 540, 29 * 400)], 13, 3),
    // sector address 0: another sector's, none
    (TwoFiles, &[Word(3, 96, 29 * 5)], 13, 3),
    (TwoFiles, &[Word(2, 96, 0)], 13, 2),
    // sector addresses in use: none, no multiple, past the last sector; those past the end, up to the last
    (TwoFiles, &[Word(3, 100, 0)], 13, 3),
    (TwoFiles, &[Word(3, 100, 29 * 4 + 28)], 13, 3),
    (TwoFiles, &[Word(3, 100, 29 * 10)], 13, 3),
    (TwoFiles, &[Word(3, 104, 29 * 5)], 13, 3),
    (TwoFiles, &[Word(2, 100, 1)], 13, 2),
    (TwoFiles, &[Word(2, 348, 29 * 5)], 13, 2),
    // extension addresses in use, and those past the last table
    (Long, &[Word(2, 48, 0)], 13, 2),
    (Long, &[Word(2, 52, 29 * 330)], 13, 2),
    (Long, &[Word(2, 56, 29 * 325)], 13, 2),
    (TwoFiles, &[Word(2, 48, 29 * 5)], 13, 2),
    (TwoFiles, &[Word(3, 92, 1)], 13, 3),
    // a table's entries
    (Long, &[Word(323, 0, 0)], 13, 323),
    (Long, &[Word(323, 1020, 29 * 330)], 13, 323),
    (Long, &[Word(324, 0, 1)], 13, 324),
    (Odd, &[Word(67, 0, 29)], 13, 67),
    // 14: p0 of a page that leads to itself, and to a page met before
    (ThreeLevels, &[Word(2, 8, 29 * 2)], 14, 2),
    (ThreeLevels, &[Word(3, 8, 29 * 4)], 14, 3),
    // an entry's file: the file of the entry before, the page itself, a file sector
    (TwoFiles, &[Word(1, 136, 29 * 2)], 14, 1),
    (TwoLevels, &[Word(2, 96, 29 * 2)], 14, 2),
    (Odd, &[Word(1, 136, 29 * 66)], 14, 1),
    // an entry's p
    (TwoLevels, &[Word(1, 100, 29 * 2)], 14, 1),
    (ThreeLevels, &[Word(3, 540, 29 * 28)], 14, 3),
    // a sector address: the file's own, another file's
    (TwoFiles, &[Word(3, 100, 29 * 3)], 14, 3),
    (TwoFiles, &[Word(3, 100, 29 * 2)], 14, 3),
    // an extension address: the file's own, the table before
    (Long, &[Word(2, 48, 29 * 2)], 14, 2),
    (Long, &[Word(2, 52, 29 * 323)], 14, 2),
    // a table's entries: the table itself, the entry before, an entry of the table before
    (Long, &[Word(323, 0, 29 * 323)], 14, 323),
    (Long, &[Word(323, 4, 29 * 66)], 14, 323),
    (Long, &[Word(324, 0, 29 * 66)], 14, 324),
    // 15: a leaf above the first leaf, one below it, and a fifth level
    (ThreeLevels, &[Word(3, 8, 0)], 15, 3),
    (
        TwoLevels,
        &[Word(3, 8, 29 * 30), Word(30, 0, PAGE), Word(30, 4, 12)],
        15,
        30,
    ),
    (
        FourLevels,
        &[
            Word(30, 8, 29 * 4799),
            Word(4799, 0, PAGE),
            Word(4799, 4, 12),
        ],
        15,
        4799,
    ),
    // 16: no name, no letter first, a byte that no name has, something behind the first zero, no zero at all
    (TwoFiles, &[Bytes(1, 64, &[0])], 16, 1),
    (TwoFiles, &[Bytes(1, 64, b"1")], 16, 1),
    (TwoFiles, &[Bytes(1, 68, b"-")], 16, 1),
    (TwoFiles, &[Bytes(1, 95, b"R")], 16, 1),
    (
        TwoFiles,
        &[Bytes(1, 64, b"Foyer.IR.from.the.left.hand.side")],
        16,
        1,
    ),
    // the same name as the last one, or a lower one, in a page and from page to page
    (TwoFiles, &[Bytes(1, 104, b"Foyer.IR")], 16, 1),
    (TwoFiles, &[Bytes(1, 104, b"Aall.IR")], 16, 1),
    (TwoLevels, &[Bytes(1, 64, b"F0011")], 16, 1),
    (TwoLevels, &[Bytes(3, 64, b"F0010")], 16, 3),
    (ThreeLevels, &[Bytes(29, 64, b"F0000")], 16, 29),
    // 17: past the longest file, no byte in the last sector, more than a sector has, and less than the header in a first sector
    (TwoFiles, &[Word(2, 36, 3136)], 17, 2),
    (TwoFiles, &[Word(3, 40, 0)], 17, 3),
    (TwoFiles, &[Word(3, 40, 1025)], 17, 3),
    (TwoFiles, &[Word(2, 40, 351)], 17, 2),
    // the first no counts: the order of the questions to a page, to a file, and from part to part
    (TwoFiles, &[Word(3, 40, 0), Word(3, 96, 0)], 17, 3),
    (TwoFiles, &[Bytes(1, 64, b"1"), Word(1, 96, 0)], 16, 1),
    (TwoFiles, &[Bytes(1, 104, b"1"), Word(2, 0, 0)], 11, 2),
    (TwoLevels, &[Bytes(1, 64, b"1"), Word(2, 4, 11)], 12, 2),
    (TwoLevels, &[Word(1, 100, 0), Word(16, 0, 0)], 11, 16),
    (Long, &[Word(2, 52, 0), Word(323, 0, 0)], 13, 323),
    (Long, &[Word(2, 48, 0), Word(2, 100, 29 * 2)], 14, 2),
];

/// A root of one entry, and pages of twelve in sectors 2 to 4, each the first child of the one above; the last one's is sector 5.
static FOUR_LEVELS: [Edit; 11] = [
    Word(1, 4, 1),
    Word(1, 8, 29 * 2),
    Word(2, 0, PAGE),
    Word(2, 4, 12),
    Word(2, 8, 29 * 3),
    Word(3, 0, PAGE),
    Word(3, 4, 12),
    Word(3, 8, 29 * 4),
    Word(4, 0, PAGE),
    Word(4, 4, 12),
    Word(4, 8, 29 * 5),
];

/// A page on the fifth level is refused once its mark and its number of entries are right, be it a leaf or not.
static FIFTH_LEVEL: [Broken; 4] = [
    (Empty, &[], 11, 5),
    (Empty, &[Word(5, 0, PAGE)], 12, 5),
    (Empty, &[Word(5, 0, PAGE), Word(5, 4, 12)], 15, 5),
    (
        Empty,
        &[Word(5, 0, PAGE), Word(5, 4, 12), Word(5, 8, 29 * 6)],
        15,
        5,
    ),
];

/// Writes over an example, and compares the refusal.
fn check(
    rt: &impl Abort,
    heap: Global,
    before: &[Edit],
    (example, edits, number, sector): Broken,
) -> Result<(), Fail> {
    let mut image = image_of(heap, example)?;
    for edit in before.iter().chain(edits) {
        edit.put(&mut Card::new(&mut image))?;
    }
    let told = survey(&mut Image::new(&mut image), &mut SectorMap::new(), &mut []);
    let Err(VolumeFault::Layout(fault)) = told else {
        return Err(Fail::from("a broken card was not refused"));
    };
    assert_eq!(rt; fault.number(), number, "sector {sector} of {example}");
    assert_eq!(rt;
        fault.sector(),
        Some(Sector(sector)),
        "{number} of {example}"
    );
    Ok(())
}

#[test]
fn broken_cards(rt: HostRuntime) -> Result<(), Fail> {
    for row in &BROKEN {
        check(&rt, rt.alloc(), &[], *row)?;
    }
    for row in &FIFTH_LEVEL {
        check(&rt, rt.alloc(), &FOUR_LEVELS, *row)?;
    }
    Ok(())
}

#[test]
fn sizes(rt: HostRuntime) -> Result<(), Fail> {
    let mut image = image_of(rt.alloc(), Empty)?;
    image.resize(1024 * 16_385, 0)?;
    for (length, told) in [
        (1024 * 16_385, Err(LayoutFault::BadSize)),
        (1024 * 16_384 + 1023, Ok(16_382)), // what is left behind the last whole sector is no sector
        (1024 * 3, Ok(1)),
        (1024 * 3 - 1, Err(LayoutFault::BadSize)),
        (0, Err(LayoutFault::BadSize)),
    ] {
        image.truncate(length);
        let mut disk = Image::new(&mut image);
        let free = match survey(&mut disk, &mut SectorMap::new(), &mut []) {
            Ok(counts) => Ok(counts.free),
            Err(VolumeFault::Layout(fault)) => Err(fault),
            Err(VolumeFault::Disk(fault)) => return Err(Fail::from(fault)),
        };
        assert_eq!(rt; free, told, "{length} bytes");
    }
    Ok(())
}
