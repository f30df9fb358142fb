//! What holds of a volume's layout, each law named by the contract of a function.

ghost use Rattle.catalog.specs.Laws.{FoundLaid, Unique, RefusedNone, Frame, FoundFrame};
ghost use Rattle.catalog.specs.Laws.{MetSectors, Divides, Listed, LastLevel, FileAlone};
ghost use Rattle.catalog.specs.Laws.{PageWritten, HeaderTyped, HeadWritten};
ghost use Rattle.catalog.specs.Examples.{Examples};

/// What is found is what is laid: a catalog is found exactly when the contents hold it, they hold no other, and where a question has a
/// no they hold none.
pub fn layout_stands()
    ensures laid { FoundLaid }
    ensures unique { Unique }
    ensures refused { RefusedNone }
{}

/// Contents that differ only where no catalog is read hold the same one, and it is found in them.
pub fn frame_stands()
    ensures lays { Frame }
    ensures found { FoundFrame }
{}

/// The sectors met are the catalog's, each met once; with the free ones they are all from 1 up, each in one list.
pub fn sectors_stand()
    ensures met { MetSectors }
    ensures divides { Divides }
{}

/// The files found are the lines of the catalog, in their order.
pub fn listing_stands()
    ensures { Listed }
{}

/// The level at which p0 leads to no sector any more serves as well as the first leaf's.
pub fn first_leaf_stands()
    ensures { LastLevel }
{}

/// A file of a catalog passes its questions when it is asked alone.
pub fn file_stands()
    ensures { FileAlone }
{}

/// A page as it is written is laid, and so is a file whose first sector begins with its header.
pub fn written_stands()
    ensures page { PageWritten }
    ensures header { HeaderTyped }
    ensures head { HeadWritten }
{}

/// Small disks: four on which a catalog is found, and each refusal at each kind of place.
pub fn examples_stand()
    ensures { Examples }
{}
