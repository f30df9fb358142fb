//! Laws of the numbers and names of the format, each stated by the contract of a function.
ghost use Rattle.std.specs.Prelude.{◌≡◌};
ghost use Rattle.numbers.specs.declared.name.Name.{Name};
ghost use Rattle.numbers.specs.Lengths.{Lengths, Figures};
ghost use Rattle.numbers.specs.Names.{NameFields};
ghost use Rattle.numbers.specs.Order.{NameOrder, cmp};
ghost use Rattle.numbers.specs.Sectors.{Addresses};

/// What holds of addresses.
pub fn addresses_stand()
    ensures { Addresses }
{}

/// What holds of names, their fields and their order, which is that of the type.
pub fn names_stand()
    ensures fields { NameFields }
    ensures order { NameOrder }
    ensures derived { (a b : Name) → ⟦<crate::name::Name as Ord>⟧.cmp a b ≡ cmp a.bytes b.bytes }
{}

/// What holds of lengths, and the worked figures.
pub fn lengths_stand()
    ensures { (Lengths) × (Figures) }
{}
