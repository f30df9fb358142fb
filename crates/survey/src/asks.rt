//! The questions that go by what was found so far.
ghost use Rattle.std.specs.Prelude.{◌≡◌, ℕ, ◌+◌, ◌<◌, ◌≤◌, true, List, Some, IfOk, OnOk};
ghost use Rattle.numbers.specs.Names.{Key, is_name_field, name_in};
ghost use Rattle.numbers.specs.Order.{cmp};
ghost use Rattle.numbers.specs.Lengths.{longest};
ghost use Rattle.catalog.specs.Questions.{most_sectors, begin, is_above, rise as rise_asks, list as list_asks};
ghost use Rattle.survey.specs.declared.row.FileRow.{FileRow};
ghost use Rattle.survey.specs.Lines.{met_count};
ghost use Rattle.survey.specs.Asks.{World, Stands, Asked, Tells, LastIs, address_asks, Led, told_layout, yes, memory};

use crate::findings::Findings;
use crate::map::SectorMap;
use crate::row::FileRow;
use catalog::fault::LayoutFault;
use numbers::name::{NAME_SIZE, Name};
use numbers::sector::{Address, Sector};

/// Is the name above the last one, if there was one?
fn is_above_last(name: &Name, last: Option<Name>) -> bool
    ensures { (k : Key) → LastIs last k → is_name_field name.now.bytes ≡ true → result ≡ is_above (cmp (name_in name.now.bytes) k) }
{
    match last {
        Some(last) => name.compare(&last).is_gt(),
        None => true,
    }
}

impl Findings {
    /// Nothing but that the first sector asked was met.
    pub(crate) fn new(size: u16, leaf_level: u32, first: Sector) -> Findings
        requires few { size ≤ most_sectors }
        requires inside { first.0 < size }
        ensures size { result.size ≡ size }
        ensures stands { (w : World) (t : List FileRow) → size ≡ w.size → leaf_level ≡ w.deep → Stands w t (memory result t) (begin w.size w.shown first.0) }
    {
        let mut map = SectorMap::new();
        map.meet(first);
        Findings {
            size,
            leaf_level,
            map,
            last: None,
            names: 0,
            file_sectors: 0,
        }
    }

    /// Asks an address that is due whether it leads to a sector, and that sector whether it is met for the first time.
    pub(crate) fn follow(&mut self, holder: Sector, address: Address) -> Result<Sector, LayoutFault>
        ensures told { (rows : List FileRow) → Tells (memory self.old rows)
            (address_asks true holder.0 address.0) (told_layout result) (memory self.new rows) }
        ensures led { IfOk result (λ n. Led true address.0 self.new (Some n)) }
        ensures more { OnOk result ((self.new.names ≡ self.old.names) × (met_count self.new.map.met ≡ met_count self.old.map.met + 1)) }
    {
        let Some(sector) = address.sector(self.size) else {
            return Err(LayoutFault::BadAddress(holder));
        };
        if !self.map.meet(sector) {
            return Err(LayoutFault::MetBefore(holder));
        }
        Ok(sector)
    }

    /// Asks an address whether it leads to a sector where one is due, and is 0 elsewhere.
    pub(crate) fn link(
        &mut self,
        holder: Sector,
        address: Address,
        due: bool,
    ) -> Result<Option<Sector>, LayoutFault>
        ensures told { (rows : List FileRow) → Tells (memory self.old rows)
            (address_asks due holder.0 address.0) (told_layout result) (memory self.new rows) }
        ensures led { IfOk result (Led due address.0 self.new) }
    {
        if due {
            let sector = self.follow(holder, address)?;
            return Ok(Some(sector));
        }
        if !address.is_none() {
            return Err(LayoutFault::BadAddress(holder));
        }
        Ok(None)
    }

    /// Asks whether the field holds a good name that is above the last one. It is the last one then.
    pub(crate) fn rise(
        &mut self,
        holder: Sector,
        field: [u8; NAME_SIZE],
    ) -> Result<Name, LayoutFault>
        ensures told { (rows : List FileRow) → Tells (memory self.old rows)
            (λ w. rise_asks holder.0 field) (told_layout result) (memory self.new rows) }
        ensures name { IfOk result (λ n. (n.bytes ≡ field) × (is_name_field field ≡ true)) }
    {
        let Some(name) = Name::from_field(field) else {
            return Err(LayoutFault::BadEntry(holder));
        };
        if !is_above_last(&name, self.last) {
            return Err(LayoutFault::BadEntry(holder));
        }
        self.last = Some(name);
        Ok(name)
    }

    /// Lists a file that passed its questions, as far as there is a row for it.
    pub(crate) fn list(&mut self, rows: &mut [FileRow], row: FileRow)
        requires room { self.old.names < met_count self.old.map.met }
        requires name { is_name_field row.name.bytes ≡ true }
        requires fits { row.length.0 ≤ longest }
        ensures told { (w : World) → Asked w (memory self.old rows.old)
            (list_asks (record { name = name_in row.name.bytes; first = row.first.0; long = row.length.0 })) yes (memory self.new rows.new) }
        ensures counted { self.new.names ≡ self.old.names + 1 }
        ensures same { self.new.map.met ≡ self.old.map.met }
    {
        if self.names < rows.len() {
            rows[self.names] = row; // what a write through `get_mut` leaves did not come out of its clause
        }
        self.names += 1;
        self.file_sectors += row.length.sectors() as usize;
    }
}
