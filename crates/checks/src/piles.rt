use disk::Disk;
use disk::fault::{DiskFault, Layer};
use disk::image::Image;
use layers::fuse::Fuse;
use layers::hold::Hold;
use std::test::Fail;

/// Puts a sector of sevens to each of the first 16 sectors.
fn fill<D: Disk>(disk: &mut D) -> Result<(), DiskFault> {
    for n in 0..16 {
        disk.put(n, &[7; 1024])?;
    }
    Ok(())
}

#[test]
fn a_full_hold_puts_one_sector_down(rt: HostRuntime) -> Result<(), Fail> {
    let mut bytes = [0u8; 20480];
    let mut disk = Hold::new(Fuse::new(Image::new(&mut bytes), 1));
    fill(&mut disk)?;
    disk.put(16, &[8; 1024])?; // the one put that the fuse lets pass
    assert_eq!(rt;
        disk.put(17, &[9; 1024]),
        Err(DiskFault::gone(Layer::Fuse, 16))
    );
    Ok(())
}

#[test]
fn a_full_hold_replaces_what_it_keeps(rt: HostRuntime) -> Result<(), Fail> {
    let mut bytes = [0u8; 20480];
    let mut disk = Hold::new(Fuse::new(Image::new(&mut bytes), 0));
    fill(&mut disk)?;
    disk.put(3, &[8; 1024])?; // nothing is asked below
    let mut seen = [0u8; 1024];
    disk.get(3, &mut seen)?;
    assert_eq!(rt; seen[0], 8);
    Ok(())
}

#[test]
fn a_restart_loses_what_is_kept(rt: HostRuntime) -> Result<(), Fail> {
    let mut bytes = [0u8; 20480];
    let mut disk = Hold::new(Image::new(&mut bytes));
    disk.put(1, &[7; 1024])?;
    disk.settle()?;
    disk.put(1, &[8; 1024])?;
    disk.restart()?;
    let mut seen = [0u8; 1024];
    disk.get(1, &mut seen)?;
    assert_eq!(rt; seen[0], 7);
    Ok(())
}

#[test]
fn a_blown_fuse_answers_until_its_restart(rt: HostRuntime) -> Result<(), Fail> {
    let mut bytes = [0u8; 2048];
    let mut disk = Fuse::new(Image::new(&mut bytes), 0);
    let mut seen = [5u8; 1024];
    assert_eq!(rt;
        disk.put(1, &[7; 1024]),
        Err(DiskFault::gone(Layer::Fuse, 1))
    );
    assert_eq!(rt;
        disk.get(1, &mut seen),
        Err(DiskFault::gone(Layer::Fuse, 1))
    );
    assert_eq!(rt;
        disk.get(2, &mut seen),
        Err(DiskFault::outside(Layer::Fuse, 2))
    );
    assert_eq!(rt; disk.settle(), Err(DiskFault::gone(Layer::Fuse, 0)));
    assert_eq!(rt; seen[0], 5);
    disk.restart()?;
    disk.put(1, &[7; 1024])?;
    disk.get(1, &mut seen)?;
    assert_eq!(rt; seen[0], 7);
    Ok(())
}
