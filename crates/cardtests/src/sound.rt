use crate::images::image_of;
use cards::card::Card;
use cards::example::Example;
use disk::image::Image;
use numbers::length::Length;
use numbers::name::Name;
use numbers::sector::Sector;
use std::process::Abort;
use std::test::Fail;
use survey::map::SectorMap;
use survey::row::FileRow;
use survey::survey::{Counts, read_file, survey};

fn row(text: &[u8], first: u16, length: u32) -> Result<FileRow, Fail> {
    Ok(FileRow {
        name: Name::new(text).ok_or("a bad name")?,
        first: Sector(first),
        length: Length(length),
    })
}

/// The row of file `number` of a tree of files that follow one another from sector `first` on.
fn tree_row(first: u16, number: u16) -> Result<FileRow, Fail> {
    let digit = |place: u16| b'0' + (number / place.max(1) % 10) as u8;
    let text = [b'F', digit(1000), digit(100), digit(10), digit(1)];
    row(&text, first.saturating_add(number), u32::from(number % 500))
}

/// Surveys a card, and compares the counts and the listing, as far as the rows reach.
fn check(
    rt: &impl Abort,
    image: &mut [u8],
    found: &mut [FileRow],
    counts: Counts,
    rows: &[FileRow],
) -> Result<(), Fail> {
    let mut map = SectorMap::new();
    assert_eq!(rt; survey(&mut Image::new(image), &mut map, found)?, counts);
    assert_eq!(rt; &*found, rows);
    assert_eq!(rt;
        map.count(),
        counts.pages.saturating_add(counts.file_sectors)
    );
    for row in rows.iter().take(counts.names) {
        assert_eq!(rt; map.is_met(row.first), true);
    }
    assert_eq!(rt; map.is_met(Sector(0)), false);
    Ok(())
}

#[test]
fn a_root_alone(rt: HostRuntime) -> Result<(), Fail> {
    let counts = Counts {
        names: 0,
        pages: 1,
        file_sectors: 0,
        free: 8,
    };
    let mut image = image_of(rt.alloc(), Example::Empty)?;
    check(&rt, &mut image, &mut [], counts, &[])?;
    let counts = Counts {
        names: 2,
        pages: 1,
        file_sectors: 3,
        free: 5,
    };
    let foyer = row(b"Foyer.IR", 2, 5)?;
    let hall = row(b"Hall.IR", 3, 1000)?;
    let none = FileRow::default();
    let mut image = image_of(rt.alloc(), Example::TwoFiles)?;
    check(&rt, &mut image, &mut [none], counts, &[foyer])?;
    check(
        &rt,
        &mut image,
        &mut [none; 3],
        counts,
        &[foyer, hall, none],
    )
}

/// Where the format leaves it free what a byte holds, and the odd card holds something.
static ODD_AT: [usize; 8] = [0, 1168, 2092, 68400, 68612, 69636, 69994, 71680];

#[test]
fn extension_tables(rt: HostRuntime) -> Result<(), Fail> {
    let counts = Counts {
        names: 2,
        pages: 1,
        file_sectors: 67,
        free: 11,
    };
    let rows = [row(b"Nave.IR", 2, 66_000)?, row(b"Wing.IR", 68, 10)?];
    let mut image = image_of(rt.alloc(), Example::Odd)?;
    for at in ODD_AT {
        assert_ne!(rt; image.get(at).copied(), Some(0), "byte {at}");
    }
    check(&rt, &mut image, &mut [FileRow::default(); 2], counts, &rows)?;
    let counts = Counts {
        names: 1,
        pages: 1,
        file_sectors: 323,
        free: 5,
    };
    let rows = [row(b"Long.IR", 2, 327_329)?];
    let mut image = image_of(rt.alloc(), Example::Long)?;
    check(&rt, &mut image, &mut [FileRow::default()], counts, &rows)
}

#[test]
fn levels(rt: HostRuntime) -> Result<(), Fail> {
    let two = Counts {
        names: 25,
        pages: 3,
        file_sectors: 25,
        free: 11,
    };
    let three = Counts {
        names: 337,
        pages: 29,
        file_sectors: 337,
        free: 33,
    };
    let four = Counts {
        names: 4393,
        pages: 367,
        file_sectors: 4393,
        free: 39,
    };
    for (example, first, files, counts) in [
        (Example::TwoLevels, 4, 25, two),
        (Example::ThreeLevels, 30, 337, three),
        (Example::FourLevels, 368, 4393, four),
    ] {
        let mut rows = Vec::new(rt.alloc());
        for number in 0..files {
            rows.push(tree_row(first, number)?)?;
        }
        let mut found = vec![in rt.alloc(); FileRow::default(); rows.len()]?;
        let mut image = image_of(rt.alloc(), example)?;
        check(&rt, &mut image, &mut found, counts, &rows)?;
    }
    Ok(())
}

#[test]
fn bytes_of_files(rt: HostRuntime) -> Result<(), Fail> {
    for (example, first, length, wanted) in [
        (Example::TwoFiles, 2, 5, 8), // the buffer is longer than the file
        (Example::TwoFiles, 3, 1000, 1000),
        (Example::TwoFiles, 3, 1000, 673), // one byte beyond the first sector
        (Example::Odd, 2, 66_000, 66_000),
        (Example::Long, 2, 327_329, 327_329), // up to the first byte that the second table leads to
        (Example::FourLevels, 4760, 392, 392), // the last file, F4392
    ] {
        let mut image = image_of(rt.alloc(), example)?;
        let mut bytes = vec![in rt.alloc(); 0xFFu8; wanted]?;
        let told = read_file(&mut Image::new(&mut image), Sector(first), &mut bytes)?;
        assert_eq!(rt; told, Length(length), "{example}");
        for (p, byte) in bytes.iter().enumerate() {
            let is = if p < length as usize {
                (p % 251) as u8
            } else {
                0xFF
            };
            assert_eq!(rt; *byte, is, "byte {p} of {example}");
        }
    }
    Ok(())
}

#[test]
fn lengths(rt: HostRuntime) -> Result<(), Fail> {
    for (at, last, used, length) in [
        (2, 0, 352, 0),
        (2, 0, 1024, 672),
        (3, 1, 1, 673),
        (3, 1, 1024, 1696),
    ] {
        let mut image = image_of(rt.alloc(), Example::TwoFiles)?;
        let mut card = Card::new(&mut image);
        card.put_word(Sector(at), 36, last)?;
        card.put_word(Sector(at), 40, used)?;
        let mut rows = [FileRow::default(); 2];
        survey(
            &mut Image::new(&mut image),
            &mut SectorMap::new(),
            &mut rows,
        )?;
        let row = rows.iter().find(|row| row.first == Sector(at));
        assert_eq!(rt; row.map(|row| row.length), Some(Length(length)));
    }
    Ok(())
}
