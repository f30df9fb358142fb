//! Laws of the format, each stated by the contract of a function.
ghost use Rattle.layout.specs.Entries.{StoredValues};
ghost use Rattle.layout.specs.Headers.{FirstSectors};
ghost use Rattle.layout.specs.Pages.{DirectoryPages};
ghost use Rattle.layout.specs.Tables.{ExtensionTables};
ghost use Rattle.layout.specs.Words.{StoredNumbers};

/// What holds of stored numbers, and of the other values that are stored.
pub fn numbers_stand()
    ensures numbers { StoredNumbers }
    ensures values { StoredValues }
{}

/// What holds of first sectors and extension tables.
pub fn headers_stand()
    ensures { (FirstSectors) × (ExtensionTables) }
{}

/// What holds of directory pages.
pub fn pages_stand()
    ensures { DirectoryPages }
{}
