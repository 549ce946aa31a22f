use crate::{Outcome, line, session_bytes};
use std::test::Fail;

// The first twelve requests that are drawn from the seed 1, a frame a line: counts, names, modifiers, a
// string and a get.
const DRAWN: &str = "\
    0100000009\
    05000000046e363039\
    0d000000020a0001100c1000003800f2f1\
    0d000000020a000110261000001500f2f1\
    05000000046e333439\
    0d000000020a000110331000002000f2f1\
    0d000000020a0001101a1000002d00f2f1\
    0d000000020a000110361000001400f2f1\
    0d000000030a0005160000000036360000\
    05000000053a100000\
    0100000009\
    0d000000020a000110321000001a00f2f1";

#[test]
fn first_requests_of_a_seed(rt: HostRuntime) -> Result<(), Fail> {
    let alloc = rt.alloc();
    let bytes = session_bytes(alloc, 1, 1)?;
    let text = hex::encode(alloc, bytes.as_slice())?;
    let first = "0d000000020a000110740000000000f2f10d000000020a000110740000000100f2f1";
    assert!(rt; text.as_str().starts_with(first));
    let rest = text.as_str().get(2 * 64 * 17..).ok_or("64 frames")?;
    assert!(rt; rest.starts_with(DRAWN));
    assert!(rt; rest.ends_with("010000000a"));
    Ok(())
}

#[test]
fn the_line_of_a_session(rt: HostRuntime) -> Result<(), Fail> {
    let outcome = Outcome {
        types: 4160,
        items: 1000,
        names: 999,
        hash: 0x0C03_358E,
    };
    let line = line(rt.alloc(), 2000, outcome)?;
    let want =
        b"gen units=2000 requests=400085 types=4160 items=1000 names=999 commits=20 replies=0c03358e\n";
    assert_eq!(rt; line.as_slice(), want.as_slice());
    Ok(())
}
