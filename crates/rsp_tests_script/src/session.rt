use rsp_bench::{Session, parse_line};
use rsp_memory::Rdram;
use std::test::Fail;

/// A line, whether it is read as one of a block, its reply, and the last reply of a script that ends after it, which is empty if no
/// block is open.
type Line = (&'static str, bool, &'static str, &'static str);

const LINES: &[Line] = &[
    ("load rdram 62 0102", false, "ok\n", ""),
    ("asm 8", false, "", "fault 10 BadLine line 1\n"),
    ("nop", true, "", "fault 10 BadLine line 2\n"),
    // It is no line of the block, and leaves it open.
    (
        "step",
        false,
        "fault 30 BadCommand\n",
        "fault 10 BadLine line 2\n",
    ),
    ("end", true, "ok 1 words\n", ""),
];

/// A session over 64 zeros.
fn first_session(rt: &HostRuntime) -> Result<Session, Fail> {
    let Ok(image) = Rdram::from_bytes(vec![in rt.alloc(); 0; 64]?) else {
        return Err(Fail::new("the image is refused"));
    };
    match Session::try_new(rt.alloc(), image) {
        Ok(session) => Ok(session),
        Err(_) => Err(Fail::new("there is no memory for a session")),
    }
}

/// Carries out a line. Fails if the session answers otherwise.
fn carry_out(rt: &HostRuntime, session: &mut Session, line: Line) -> Result<(), Fail> {
    let (text, is_in_block, expected, at_end) = line;
    let Ok(command) = parse_line(text.as_bytes(), is_in_block) else {
        return Err(Fail::new("a line is no command"));
    };
    let reply = session.exec(rt.alloc(), &command)?;
    let is_replied = reply.bytes() == expected.as_bytes();
    let is_ended = session.finish().bytes() == at_end.as_bytes();
    if is_replied && is_ended && session.in_block() != at_end.is_empty() {
        Ok(())
    } else {
        Err(Fail::new(text))
    }
}

#[test]
fn keeps_a_block_open_and_hands_back_the_image(rt: HostRuntime) -> Result<(), Fail> {
    let mut session = first_session(&rt)?;
    assert!(rt; !session.in_block());
    for &line in LINES {
        carry_out(&rt, &mut session, line)?;
    }
    let bytes = session.into_rdram().into_bytes();
    assert!(rt; bytes.len() == 64 && bytes.as_slice().ends_with(&[1, 2]));
    Ok(())
}
