use cards::card::Card;
use cards::example::Example;
use disk::SECTOR_SIZE;
use std::alloc::Global;
use std::test::Fail;

/// The image of an example.
pub(crate) fn image_of(heap: Global, example: Example) -> Result<Vec<u8>, Fail> {
    let mut bytes = vec![in heap; 0u8; SECTOR_SIZE * example.sectors()]?;
    example.build(&mut Card::new(&mut bytes))?;
    Ok(bytes)
}
