//! Splitting a page, evening out two neighbours through the entry between them, and joining them with it.
ghost use Rattle.std.specs.Prelude.{◌≡◌, ◌<◌, ◌≤◌, ◌==◌, ◌&&◌, ◌||◌, nat_lt, true, false, length, Some, MatchOption, MatchResult, IfSome, IfOk};
ghost use Rattle.layout.specs.Entries.{least_entries, most_entries};
ghost use Rattle.directory.specs.Rows.{most_held};
ghost use Rattle.directory.specs.Lines.{over, line, joined, short, Cut, Shared, uneven, lent, share};

use crate::kind::Misfit;
use arrayvec::ArrayVec;
use layout::entries::Entries;
use layout::entry::{Entry, LEAST_ENTRIES, MOST_ENTRIES};
use layout::page::{MOST_HELD, Page};
use numbers::sector::Sector;

/// A page left with so many entries turns to a neighbour.
const SHORT: usize = LEAST_ENTRIES - 1;

/// The most entries of two neighbours and the one between them.
const MOST_IN_LINE: usize = 2 * MOST_HELD + 1;

/// Two neighbours and the entry between them, which stands over the right page.
#[derive(Clone, Copy, Debug, PartialEq, Eq)]
pub struct Neighbours {
    pub left: Page,
    pub middle: Entry,
    pub right: Page,
}

/// Splits a page of 25 entries: it keeps 12, and the answer is the middle one, over the right page that is to stand at sector `at`, and the right page with the other 12.
pub fn split(page: &mut Page, at: Sector) -> Option<(Entry, Page)>
    ensures value { MatchOption result
        ((page.new ≡ page.old) × (length page.old.rows < most_held))
        (λ t. (length page.old.rows ≡ most_held) × Cut least_entries page.old.first page.old.rows (record { left = page.new; middle = t.0; right = t.1 }) × (t.0.below ≡ Some at)) }
    ensures fits { (length page.new.rows ≤ most_held) × IfSome result (λ t. length t.1.rows ≤ most_held) }
{
    if page.entries.len() < MOST_HELD {
        return None;
    }
    let middle = page.entries[LEAST_ENTRIES];
    let mut right = Page::new(middle.below);
    right
        .entries
        .try_extend_from_slice(&page.entries[LEAST_ENTRIES + 1..])
        .unwrap();
    page.entries.truncate(LEAST_ENTRIES);
    let risen = Entry {
        below: Some(at),
        ..middle
    };
    Some((risen, right))
}

/// What a page of `count` entries lends to a neighbour left with 11: half of what it has beyond 11.
fn loan(count: usize) -> usize
    requires { least_entries < count }
    ensures { result ≡ lent count }
{
    (count - SHORT) / 2
}

/// The entry between two neighbours as it comes down: over the first page below the right one.
fn come_down(middle: &Entry, right: &Page) -> Entry
    ensures { result ≡ over middle.now right.now.first }
{
    Entry {
        below: right.first,
        ..*middle
    }
}

/// The entries of both pages in a line: the entry between them comes down, over the first page below the right one.
fn line(left: &Page, middle: &Entry, right: &Page) -> ArrayVec<Entry, MOST_IN_LINE>
    ensures { result.items ≡ line (record { left = left.now; middle = middle.now; right = right.now }) }
{
    let mut all = ArrayVec::new();
    all.try_extend_from_slice(&left.entries).unwrap();
    all.push(come_down(middle, right));
    all.try_extend_from_slice(&right.entries).unwrap();
    all
}

/// How many entries the left of two pages with so many ends with, if one is left with 11 and the other has more than 12.
fn fair_share(left: usize, right: usize) -> Option<usize>
    requires { (left ≤ most_held) × (right ≤ most_held) }
    ensures { MatchOption result (((left == short && nat_lt least_entries right) || (nat_lt least_entries left && right == short)) ≡ false)
        (λ m. (((left == short && nat_lt least_entries right) || (nat_lt least_entries left && right == short)) ≡ true) × (m ≡ share left right) × (m ≤ most_held)) }
{
    match (left, right) {
        (SHORT, right) if right > LEAST_ENTRIES => Some(SHORT + loan(right)),
        (left, SHORT) if left > LEAST_ENTRIES => Some(left - loan(left)),
        _ => None,
    }
}

impl Neighbours {
    /// Evens out the two, one left with 11 entries and the other with more than 12, through the entry between them, which stays over the right page.
    pub fn even_out(&mut self) -> Result<(), Misfit>
        ensures value { MatchResult result
            (λ _. (uneven self.old ≡ true) × Shared (share (length self.old.left.rows) (length self.old.right.rows)) self.old self.new)
            (λ _. (uneven self.old ≡ false) × (self.new ≡ self.old)) }
        ensures fits { (length self.new.left.rows ≤ most_held) × (length self.new.right.rows ≤ most_held) }
    {
        even_out(&mut self.left, &mut self.middle, &mut self.right)
    }

    /// The left page with the entry between the two and all of the right one's behind its own, if they are 24 at most.
    pub fn join(&self) -> Result<Page, Misfit>
        ensures value { MatchResult result
            (λ page. (length (line self.now) ≤ most_entries) × (page ≡ joined self.now))
            (λ _. most_entries < length (line self.now)) }
        ensures fits { IfOk result (λ page. length page.rows ≤ most_held) }
    {
        let mut page = self.left;
        join(&mut page, self.middle, &self.right)?;
        Ok(page)
    }
}

/// Evens out two neighbours, one left with 11 entries and the other with more than 12, through the entry between them, which stays over the right page. A refusal changes nothing.
pub fn even_out(left: &mut Page, middle: &mut Entry, right: &mut Page) -> Result<(), Misfit>
    ensures value { MatchResult result
        (λ _. (uneven (record { left = left.old; middle = middle.old; right = right.old }) ≡ true)
        × Shared (share (length left.old.rows) (length right.old.rows)) (record { left = left.old; middle = middle.old; right = right.old }) (record { left = left.new; middle = middle.new; right = right.new }))
        (λ _. (uneven (record { left = left.old; middle = middle.old; right = right.old }) ≡ false)
        × (left.new ≡ left.old) × (middle.new ≡ middle.old) × (right.new ≡ right.old)) }
    ensures fits { (length left.new.rows ≤ most_held) × (length right.new.rows ≤ most_held) }
{
    let kept = fair_share(left.count(), right.count()).ok_or(Misfit)?;
    let all = line(left, middle, right);
    let risen = all[kept];
    left.entries = Entries::try_from(&all[..kept]).unwrap();
    *right = Page {
        first: risen.below,
        entries: Entries::try_from(&all[kept + 1..]).unwrap(),
    };
    middle.name = risen.name;
    middle.file = risen.file;
    Ok(())
}

/// Puts the entry between two neighbours and all of the right one's behind the left one's, if they are 24 at most. A refusal changes nothing.
pub fn join(left: &mut Page, middle: Entry, right: &Page) -> Result<(), Misfit>
    ensures value { MatchResult result
        (λ _. (length (line (record { left = left.old; middle = middle; right = right.now })) ≤ most_entries)
        × (left.new ≡ joined (record { left = left.old; middle = middle; right = right.now })))
        (λ _. (most_entries < length (line (record { left = left.old; middle = middle; right = right.now }))) × (left.new ≡ left.old)) }
    ensures fits { length left.new.rows ≤ most_held }
{
    if left.count() + right.count() >= MOST_ENTRIES {
        return Err(Misfit);
    }
    left.entries.try_push(come_down(&middle, right)).unwrap();
    left.entries.try_extend_from_slice(&right.entries).unwrap();
    Ok(())
}
