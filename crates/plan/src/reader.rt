ghost use Rattle.std.specs.Prelude.{◌≡◌, ◌≤◌, [], length, None, ok_or};
ghost use Rattle.plan.specs.Lines.{printable, said};
ghost use Rattle.plan.specs.Lines.Said.{size, put, settle};
ghost use Rattle.plan.specs.Plans.{filled, took, Reads, Adds};

use crate::fault::LineFault;
use crate::line::{Line, parse};
use crate::step::Step;
use std::alloc::Global;

/// A plan as far as it was read: how many sectors its disk has, and what is asked of it.
#[derive(Drop)]
pub struct Plan {
    size: Option<usize>,
    steps: Vec<Step>,
}

/// The most sectors that a plan's disk may have.
const MOST_SECTORS: u32 = 16384;

/// Whether all bytes are from space to tilde.
fn is_printable(s: &[u8]) -> bool
    ensures { result ≡ printable s.now }
{
    s.iter().all(|b| (b' '..=b'~').contains(b))
}

/// A sector that starts with this text and is zero after it.
// a name is filled up so too, in `numbers`, which has nothing in common with a plan
fn fill(text: &[u8]) -> [u8; 1024]
    requires { length text.now ≤ 1024 }
    ensures { result ≡ filled text.now }
{
    let mut sector = [0u8; 1024];
    sector[..text.len()].copy_from_slice(text);
    sector
}

impl Plan {
    /// A plan of no line.
    pub fn new(heap: Global) -> Plan
        ensures size { result.size ≡ None }
        ensures steps { result.steps.items ≡ [] }
    {
        Plan {
            size: None,
            steps: Vec::new(heap),
        }
    }

    /// The number of sectors, once SIZE was read.
    pub fn size(&self) -> Option<usize>
        ensures { result ≡ self.now.size }
    {
        self.size // none before SIZE
    }

    /// What is asked of the disk, in order.
    pub fn steps(&self) -> &[Step]
        ensures { result.now ≡ self.now.steps.items }
    {
        self.steps.as_slice()
    }

    /// Adds a step, if there is memory for it.
    fn add(&mut self, step: Step) -> Result<(), LineFault>
        ensures { Adds self.old step result self.new }
    {
        self.steps.push(step)?;
        Ok(())
    }

    /// The number of sectors, which a step needs.
    fn known_size(&self) -> Result<usize, LineFault>
        ensures { result ≡ ok_or self.now.size LineFault.SizeMissing }
    {
        self.size.ok_or(LineFault::SizeMissing)
    }

    fn read_size(&mut self, n: u32) -> Result<(), LineFault>
        ensures { Reads (took self.old.size (size n)) self.old result self.new }
    {
        if self.size.is_some() {
            return Err(LineFault::SizeAgain);
        }
        if !(1..=MOST_SECTORS).contains(&n) {
            return Err(LineFault::SizeRange);
        }
        self.size = Some(n as usize);
        Ok(())
    }

    fn read_put(&mut self, sector: u32, text: &[u8]) -> Result<(), LineFault>
        ensures { Reads (took self.old.size (put sector text.now)) self.old result self.new }
    {
        let size = self.known_size()?;
        let sector = sector as usize;
        if sector >= size {
            return Err(LineFault::Sector);
        }
        if text.len() > 1024 || !is_printable(text) {
            return Err(LineFault::Text);
        }
        self.add(Step::Put {
            sector,
            bytes: fill(text),
        })
    }

    fn read_settle(&mut self) -> Result<(), LineFault>
        ensures { Reads (took self.old.size settle) self.old result self.new }
    {
        self.known_size()?;
        self.add(Step::Settle)
    }

    /// Reads one line more. A line that is refused changes nothing.
    pub fn read(&mut self, line: &[u8]) -> Result<(), LineFault>
        ensures { Reads (took self.old.size (said line.now)) self.old result self.new }
    {
        match parse(line)? {
            Line::Size(n) => self.read_size(n),
            Line::Put { sector, text } => self.read_put(sector, text),
            Line::Settle => self.read_settle(),
        }
    }
}
