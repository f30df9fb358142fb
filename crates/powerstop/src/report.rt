use anyhow::Context;
use disk::{Disk, SECTOR_SIZE, SectorBytes};
use plan::step::Step;
use std::fmt;
use trial::ending::Ending;

/// A step as its line in the plan says it, but for its text.
#[derive(Clone, Copy)]
struct Asked<'a>(&'a Step);

impl fmt::Display for Asked<'_> {
    fn fmt<W: fmt::Write>(&self, f: &mut fmt::Formatter<W>) -> fmt::Result {
        match self.0 {
            Step::Put { sector, .. } => write!(f, "PUT {sector}"),
            Step::Settle => f.write_str("SETTLE"),
        }
    }
}

/// Where a run stopped, and the answer that it got there: the plan's line 1 is its size, so step 0 is line 2.
#[derive(Clone, Copy)]
pub(crate) struct Stopped<'a> {
    pub(crate) ending: &'a Ending,
    pub(crate) steps: &'a [Step],
}

impl fmt::Display for Stopped<'_> {
    fn fmt<W: fmt::Write>(&self, f: &mut fmt::Formatter<W>) -> fmt::Result {
        let Err(stop) = self.ending else {
            return f.write_str("end,ok");
        };
        let number = stop.step.saturating_add(2);
        write!(f, "{number}:")?;
        if let Some(step) = self.steps.get(stop.step) {
            let asked = Asked(step);
            write!(f, "{asked}")?;
        }
        write!(f, ",{}", stop.fault)
    }
}

/// The text of a sector, up to its first zero.
// `numbers` ends a name at its first zero too, and has nothing in common with a report
#[derive(Clone, Copy)]
struct Text<'a>(&'a SectorBytes);

impl fmt::Display for Text<'_> {
    fn fmt<W: fmt::Write>(&self, f: &mut fmt::Formatter<W>) -> fmt::Result {
        let bytes = self.0;
        let end = bytes.iter().position(|b| *b == 0).unwrap_or(SECTOR_SIZE);
        let shown = &bytes[..end];
        // a plan's text at once: char by char took three times as long
        if shown.is_ascii() {
            if let Ok(text) = str::from_utf8(shown) {
                return f.write_str(text);
            }
        }
        for b in shown {
            f.write_char(char::from(*b))?;
        }
        Ok(())
    }
}

/// Whether a step puts anything to this sector.
// a pattern, as the judge of `trial` has it among others: a method of a step would be no shorter
fn names(step: &Step, k: usize) -> bool {
    matches!(step, Step::Put { sector, .. } if *sector == k)
}

/// Adds what each sector shows that the plan names.
// no Display: it asks the disk as it goes
pub(crate) fn show_sectors<D: Disk>(
    disk: &mut D,
    steps: &[Step],
    line: &mut String,
) -> anyhow::Result<()> {
    for k in 0..disk.size() {
        if steps.iter().any(|step| names(step, k)) {
            let mut bytes = [0u8; SECTOR_SIZE];
            disk.get(k, &mut bytes)
                .ok()
                .context("the disk is gone after its restart")?;
            let text = Text(&bytes);
            write!(line, ",{k}=\"{text}\"")?;
        }
    }
    Ok(())
}
