//! Where a name stands in a page.
ghost use Rattle.std.specs.Prelude.{◌≡◌};
ghost use Rattle.std.specs.List.{position};
ghost use Rattle.directory.specs.Places.{Stands, reaches};

use layout::entry::Entry;
use layout::page::Page;
use numbers::name::Name;

/// The place of a name in a page whose names rise: it is that of entry `i`, or it is none's and `i` entries are below it.
// not `binary_search_by`, though it answers in the same words: what is promised holds of a page whose names do not rise too
pub fn find(page: &Page, name: &Name) -> Result<usize, usize>
    ensures { Stands name.now.bytes page.now.rows result }
{
    let entries = page.entries.as_slice();
    match first_reached(entries, name) {
        Some(i) if name.compare(&entries[i].name).is_eq() => Ok(i),
        Some(i) => Err(i),
        None => Err(entries.len()),
    }
}

/// The first entry that is not below the name.
fn first_reached(entries: &[Entry], name: &Name) -> Option<usize>
    ensures { result ≡ position (reaches name.now.bytes) entries.now }
{
    entries
        .iter()
        .position(|entry| name.compare(&entry.name).is_le())
}
