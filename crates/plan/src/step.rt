/// What a plan asks of a disk.
// 1,024 bytes by number: a plan knows no disk, which has a name for it
#[derive(Clone, Copy, PartialEq, Eq, Debug)]
pub enum Step {
    Put { sector: usize, bytes: [u8; 1024] },
    Settle,
}
