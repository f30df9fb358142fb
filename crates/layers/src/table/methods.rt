ghost use Rattle.std.specs.Prelude.{◌≡◌, ◌-◌, ◌<◌, ◌⊎◌, true, [], length, take, position, slice_get, option_copied, is_some, None, OnOk, OnErr, ◌==◌};
ghost use Rattle.layers.specs.Rows.{at, With};

use crate::kept::Kept;
use crate::table::{Full, Table};
use arrayvec::ArrayVec;
use disk::SectorBytes;

impl Table {
    pub(crate) fn new() -> Table
        ensures { result.rows.items ≡ [] }
    {
        Table {
            rows: ArrayVec::new(),
        }
    }

    /// Keeps nothing more.
    pub(crate) fn clear(&mut self)
        ensures { self.new.rows.items ≡ [] }
    {
        self.rows.clear();
    }

    /// Whether nothing is kept.
    pub(crate) fn is_empty(&self) -> bool
        ensures { result ≡ (length self.now.rows.items == 0) }
    {
        self.rows.is_empty()
    }

    /// Where sector `n` stands, if it is kept.
    fn position(&self, n: usize) -> Option<usize>
        ensures { result ≡ position (λ k. k.sector == n) self.now.rows.items }
    {
        self.rows.iter().position(|kept| kept.sector == n)
    }

    /// What is kept of sector `n`, if it is kept.
    pub(crate) fn get(&self, n: usize) -> Option<&SectorBytes>
        ensures { option_copied result ≡ at self.now.rows.items n }
    {
        self.rows
            .iter()
            .find(|kept| kept.sector == n)
            .map(|kept| &kept.bytes)
    }

    /// Keeps `bytes` as sector `n`, if that is kept already or there is room.
    pub(crate) fn keep(&mut self, n: usize, bytes: &SectorBytes) -> Result<(), Full>
        ensures kept { OnOk result (With self.old.rows.items n bytes.now self.new.rows.items) }
        ensures room { OnOk result ((is_some (at self.old.rows.items n) ≡ true) ⊎ (length self.old.rows.items < 16)) }
        ensures full { OnErr result (length self.old.rows.items ≡ 16) }
        ensures other { OnErr result (at self.old.rows.items n ≡ None) }
        ensures same { OnErr result (self.new.rows.items ≡ self.old.rows.items) }
    {
        let row = Kept {
            sector: n,
            bytes: *bytes,
        };
        match self.position(n) {
            Some(i) => {
                self.rows[i] = row;
                Ok(())
            }
            // `try_push` and `map_err` were checked once in place of these two arms; three goals stayed open, and their answers are not written
            None if self.rows.is_full() => Err(Full),
            None => {
                self.rows.push(row);
                Ok(())
            }
        }
    }

    /// The sector kept last, if any is.
    pub(crate) fn last(&self) -> Option<&Kept>
        ensures { option_copied result ≡ slice_get self.now.rows.items (length self.now.rows.items - 1) }
    {
        self.rows.last()
    }

    /// Keeps the sector kept last no more.
    pub(crate) fn pop(&mut self)
        ensures { self.new.rows.items ≡ take (length self.old.rows.items - 1) self.old.rows.items }
    {
        let _ = self.rows.pop();
    }
}
