use plan::fault::LineFault;
use plan::reader::Plan;
use std::test::Fail;

#[test]
fn bad_lines_are_refused(rt: HostRuntime) -> Result<(), Fail> {
    let mut plan = Plan::new(rt.alloc());
    assert_eq!(rt; plan.read(b"PUT,1,early"), Err(LineFault::SizeMissing));
    assert_eq!(rt; plan.read(b"SIZE,0"), Err(LineFault::SizeRange));
    assert_eq!(rt; plan.read(b"SIZE,16385"), Err(LineFault::SizeRange));
    assert_eq!(rt; plan.read(b"SIZE"), Err(LineFault::Fields));
    assert_eq!(rt; plan.read(b"SIZE,4,4"), Err(LineFault::Number));
    plan.read(b"SIZE,4")?;
    assert_eq!(rt; plan.read(b"SIZE,4"), Err(LineFault::SizeAgain));
    assert_eq!(rt; plan.read(b""), Err(LineFault::Word));
    assert_eq!(rt; plan.read(b"SETTLE,"), Err(LineFault::Fields));
    assert_eq!(rt; plan.read(b"PUT,1"), Err(LineFault::Fields));
    assert_eq!(rt; plan.read(b"PUT,12345678,x"), Err(LineFault::Number));
    assert_eq!(rt; plan.read(b"PUT,4,x"), Err(LineFault::Sector));
    assert_eq!(rt; plan.read(b"PUT,3,\x07"), Err(LineFault::Text));
    assert_eq!(rt; plan.steps().len(), 0);
    Ok(())
}

#[test]
fn good_lines_are_steps(rt: HostRuntime) -> Result<(), Fail> {
    let mut plan = Plan::new(rt.alloc());
    plan.read(b"SIZE,16384")?;
    plan.read(b"PUT,16383,a text, with a comma")?;
    plan.read(b"PUT,0,")?;
    plan.read(b"SETTLE")?;
    assert_eq!(rt; plan.size(), Some(16384));
    assert_eq!(rt; plan.steps().len(), 3);
    Ok(())
}
