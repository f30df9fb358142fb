ghost use Rattle.std.specs.Prelude.{◌≤◌, length};
ghost use Rattle.layers.specs.Rows.{Tidy};

use crate::kept::Kept;
use arrayvec::ArrayVec;

mod methods;

/// There is no room: 16 other sectors are kept.
#[derive(Clone, Copy, Debug, PartialEq, Eq)]
pub struct Full;

/// Up to 16 kept sectors, each sector at most once.
// ghost fields, and no `impl Model`: `Hold::size` and `live` have to show that kept sectors are whole, and without a call of
// the table only a ghost field tells them
#[derive(Drop)]
pub struct Table {
    rows: ArrayVec<Kept, 16>,
    ghost small: { length rows.items ≤ 16 },
    ghost tidy: { Tidy rows.items },
}
