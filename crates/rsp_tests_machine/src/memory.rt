use rsp_memory::Rdram;
use std::alloc::AllocError;

#[test]
fn images_have_whole_sizes(rt: HostRuntime) -> Result<(), AllocError> {
    let mut bytes = Vec::new(rt.alloc());
    for i in 1u8..=60 {
        bytes.push(i)?;
    }
    let Err(refused) = Rdram::from_bytes(bytes) else {
        assert!(rt; false, "60 bytes are refused");
        return Ok(());
    };
    bytes = refused.bytes;
    assert!(rt; bytes.len() == 60);
    bytes.extend_from_slice(&[0; 4])?;
    let image = Rdram::from_bytes(bytes).ok();
    let mut image = image.expect(&rt, "64 bytes are an image");
    image.set_byte(0x100_0001, 0xaa);
    image.set_byte(64, 0xbb);
    let is_held = image.byte(1) == 0xaa && image.byte(64) == 0 && image.len() == 64;
    assert!(rt; is_held && image.into_bytes()[59] == 60);
    Ok(())
}
