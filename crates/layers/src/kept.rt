use disk::SectorBytes;

/// A put sector that a hold keeps in memory.
#[derive(Clone, Copy, Debug, Default, PartialEq, Eq)]
pub struct Kept {
    pub sector: usize,
    pub bytes: SectorBytes,
}
