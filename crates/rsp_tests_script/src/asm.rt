use rsp_asm::{AsmFault, AsmFaultKind, assemble};
use std::test::Fail;

#[test]
fn a_text_at_4_has_room_for_1023_words(rt: HostRuntime) -> Result<(), Fail> {
    let text = "nop\n".repeat(rt.alloc(), 1024)?;
    let made = assemble(rt.alloc(), 4, &text);
    let is_past_end = matches!(
        made,
        Err(AsmFault {
            line: 1024,
            kind: AsmFaultKind::PastEnd
        })
    );
    assert!(rt; is_past_end);
    Ok(())
}
