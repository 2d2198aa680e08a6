//! The text of a made file.
use nz_input::write;
use nz_make::made;
use std::test::Fail;

#[test]
fn writes_the_made_file(rt: HostRuntime) -> Result<(), Fail> {
    let file = made(rt.alloc(), 20)?;
    let text = write(rt.alloc(), &file)?;
    assert_eq!(rt;
        text.as_slice(),
        b"amb_space 3\ncone 4\n0 0 1\n20 0 1\n0 20 1\n20 20 1\n".as_slice()
    );
    Ok(())
}
