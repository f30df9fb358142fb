//! Putting in, taking out and replacing an entry of a page.
ghost use Rattle.std.specs.Prelude.{◌≡◌, ◌<◌, ◌≤◌, ◌⊎◌, [], length, MatchOption, MatchResult};
ghost use Rattle.directory.specs.Rows.{most_held, HasRoom, IsRow, IsLast, put_in, without, replaced};

use crate::kind::Misfit;
use layout::entry::Entry;
use layout::page::Page;
use numbers::name::Name;
use numbers::sector::Sector;

/// Puts an entry in as entry `i`, before the one that stood there.
pub fn insert(page: &mut Page, i: usize, entry: Entry) -> Result<(), Misfit>
    ensures value { MatchResult result
        (λ _. HasRoom page.old.rows i × (page.new ≡ put_in page.old i entry))
        (λ _. (page.new ≡ page.old) × ((length page.old.rows ≡ most_held) ⊎ (length page.old.rows < i))) }
    ensures fits { length page.new.rows ≤ most_held }
{
    page.entries.try_insert(i, entry).map_err(|_| Misfit)
}

/// Takes entry `i` out.
pub fn remove(page: &mut Page, i: usize) -> Option<Entry>
    ensures value { MatchOption result
        ((page.new ≡ page.old) × (length page.old.rows ≤ i))
        (λ e. IsRow page.old.rows i e × (page.new ≡ without page.old i)) }
    ensures fits { length page.new.rows ≤ most_held }
{
    page.entries.pop_at(i)
}

/// Takes the largest entry out, which is the last one; none if the page has none.
pub fn take_largest(page: &mut Page) -> Option<Entry>
    ensures value { MatchOption result
        ((page.new ≡ page.old) × (page.old.rows ≡ []))
        (λ e. IsLast page.old.rows page.new.rows e × (page.new.first ≡ page.old.first)) }
    ensures fits { length page.new.rows ≤ most_held }
{
    page.entries.pop()
}

/// Gives entry `i` another name and file, and keeps the page below it. The answer is the entry as it was.
pub fn replace(page: &mut Page, i: usize, name: Name, file: Sector) -> Option<Entry>
    ensures value { MatchOption result
        ((page.new ≡ page.old) × (length page.old.rows ≤ i))
        (λ e. IsRow page.old.rows i e × (page.new ≡ replaced page.old i e name file)) }
    ensures fits { length page.new.rows ≤ most_held }
{
    let entry = page.entries.get(i)?;
    let renamed = Entry {
        name,
        file,
        ..*entry
    };
    page.entries.replace(i, renamed)
}
