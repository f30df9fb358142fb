//! The questions of a file.
ghost use Rattle.std.specs.Prelude.{◌≡◌, ◌<◌, ◌≤◌, true, List, IfOk};
ghost use Rattle.disk.specs.Meaning.{Contents};
ghost use Rattle.numbers.specs.Lengths.{longest, most_tables};
ghost use Rattle.catalog.specs.Questions.{◌▸◌, length_at, ask_table as table_questions, ask_file as file_questions};
ghost use Rattle.survey.specs.declared.row.FileRow.{FileRow};
ghost use Rattle.survey.specs.Asks.{World, Memory, Tells, Surveyed, told, told_layout, HeadFault, head_fault, head_asks, near_asks, table_asks, HeaderOf, memory};

use crate::findings::Findings;
use catalog::fault::{LayoutFault, VolumeFault};
use disk::Disk;
use layout::header::{Header, HeaderFault, MOST_TABLES, NEAR_ADDRESSES};
use layout::table::Table;
use layout::word::{SectorBytes, blank_sector};
use numbers::length::{Length, NEAR_SECTORS, TABLE_SECTORS, tables};
use numbers::sector::{Address, Sector};

/// What is wrong with a first sector that was not read.
fn head_fault(fault: HeaderFault, first: Sector) -> LayoutFault
    ensures { result ≡ head_fault fault first }
{
    match fault {
        HeaderFault::Mark => LayoutFault::BadMark(first),
        HeaderFault::End => LayoutFault::BadLength(first),
        HeaderFault::Link => LayoutFault::BadAddress(first),
    }
}

/// Asks a first sector for its mark, its length and its own address.
fn ask_head(bytes: &SectorBytes, first: Sector) -> Result<Header, LayoutFault>
    ensures told { (x : Memory) → Tells x (λ w. head_asks bytes.now first.0) (told_layout result) x }
    ensures head { IfOk result (HeaderOf bytes.now) }
{
    let header = match Header::read(bytes) {
        Ok(header) => header,
        Err(fault) => return Err(head_fault(fault, first)),
    };
    if header.sectors[0] != Address::from(first) {
        return Err(LayoutFault::BadAddress(first));
    }
    Ok(header)
}

/// Asks the addresses of file sectors 1 to 63.
fn ask_near(findings: &mut Findings, header: &Header, first: Sector) -> Result<(), LayoutFault>
    ensures { (c : Contents) (rows : List FileRow) → HeaderOf c header.now → Tells (memory findings.old rows)
        (near_asks c first.0) (told_layout result) (memory findings.new rows) }
{
    let last = header.length.last_sector();
    for i in 1..NEAR_ADDRESSES {
        findings.link(first, header.sectors[i], i as u32 <= last)?;
    }
    Ok(())
}

/// Asks table `k`, in sector `table`, of a file whose last file sector is `last`, for the addresses in use.
fn ask_table<D: Disk>(
    disk: &mut D,
    findings: &mut Findings,
    last: u32,
    k: u32,
    table: Sector,
) -> Result<(), VolumeFault>
    requires few { k < most_tables }
    requires inside { table.0 < findings.old.size }
    ensures { (rows : List FileRow) → Surveyed D.Disk.meaning D.Disk.does disk.old (memory findings.old rows)
        (λ w. table_questions w.size w.shown last k table.0) (told result) disk.new (memory findings.new rows) }
{
    let mut bytes = blank_sector();
    disk.get(usize::from(table.0), &mut bytes)?;
    let addresses = Table::decode(&bytes).sectors;
    for j in 0..TABLE_SECTORS {
        if NEAR_SECTORS + TABLE_SECTORS * k + j <= last {
            findings.follow(table, addresses[j as usize])?;
        }
    }
    Ok(())
}

/// Asks each address of an extension table, with its table.
fn ask_tables<D: Disk>(
    disk: &mut D,
    findings: &mut Findings,
    header: &Header,
    first: Sector,
) -> Result<(), VolumeFault>
    ensures { (c : Contents) (rows : List FileRow) → HeaderOf c header.now → Surveyed D.Disk.meaning D.Disk.does disk.old (memory findings.old rows)
        (table_asks c first.0) (told result) disk.new (memory findings.new rows) }
{
    let last = header.length.last_sector();
    for k in 0..MOST_TABLES {
        let due = (k as u32) < tables(last);
        if let Some(table) = findings.link(first, header.tables[k], due)? {
            ask_table(disk, findings, last, k as u32, table)?;
        }
    }
    Ok(())
}

/// Reads a first sector, and asks it for its mark, its length and its own address.
pub(crate) fn read_head<D: Disk>(disk: &mut D, first: Sector) -> Result<Header, VolumeFault>
    ensures told { (x : Memory) → first.0 < x.found.size → Surveyed D.Disk.meaning D.Disk.does disk.old x (λ w. head_asks (w.shown first.0) first.0) (told result) disk.new x }
    ensures head { IfOk result (λ h. HeaderOf ((D.Disk.meaning disk.old).shown first.0) h × (first.0 < (D.Disk.meaning disk.old).size) × ((D.Disk.meaning disk.old).live ≡ true)) }
    ensures fits { IfOk result (λ h. h.length.0 ≤ longest) }
    ensures fault { HeadFault D.Disk.meaning D.Disk.does disk.old first.0 (told result) disk.new }
{
    let mut bytes = blank_sector();
    disk.get(usize::from(first.0), &mut bytes)?;
    let header = ask_head(&bytes, first)?;
    Ok(header)
}

/// Asks a file's addresses.
pub(crate) fn ask_links<D: Disk>(
    disk: &mut D,
    findings: &mut Findings,
    header: &Header,
    first: Sector,
) -> Result<(), VolumeFault>
    ensures { (c : Contents) (rows : List FileRow) → HeaderOf c header.now → Surveyed D.Disk.meaning D.Disk.does disk.old (memory findings.old rows)
        (λ w. near_asks c first.0 w ▸ table_asks c first.0 w) (told result) disk.new (memory findings.new rows) }
{
    ask_near(findings, header, first)?;
    ask_tables(disk, findings, header, first)
}

/// Asks a file at its first sector, and tells its length.
pub(crate) fn ask_file<D: Disk>(
    disk: &mut D,
    findings: &mut Findings,
    first: Sector,
) -> Result<Length, VolumeFault>
    requires { first.0 < findings.old.size }
    ensures told { (rows : List FileRow) → Surveyed D.Disk.meaning D.Disk.does disk.old (memory findings.old rows)
        (λ w. file_questions w.size w.shown first.0) (told result) disk.new (memory findings.new rows) }
    ensures length { IfOk result (λ l. (l.0 ≡ length_at (D.Disk.meaning disk.old).size (D.Disk.meaning disk.old).shown first.0) × (l.0 ≤ longest) × (first.0 < (D.Disk.meaning disk.old).size)) }
{
    let header = read_head(disk, first)?;
    ask_links(disk, findings, &header, first)?;
    Ok(header.length)
}
