//! The refusal of page editing.
ghost use Rattle.std.specs.Prelude.{codes, Some};

use std::error::Error;
use std::fmt;

/// The page or the two neighbours have not the entries that the edit asks for. Nothing was changed.
#[derive(Clone, Copy, Debug, PartialEq, Eq)]
pub struct Misfit;

impl fmt::Display for Misfit {
    ghost output = { λ _. Some (codes "the entries do not fit") };

    fn fmt<W: fmt::Write>(&self, f: &mut fmt::Formatter<W>) -> fmt::Result {
        f.write_str("the entries do not fit")
    }
}

impl Error for Misfit {}
