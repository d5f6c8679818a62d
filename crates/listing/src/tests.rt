// The manifest of images at the edges of what the rules allow, by a table: an image's length, what differs in it from a card of blank sectors, and its lines.
use crate::manifest;
use poly::Wide;
use std::alloc::{AllocError, Global};
use std::test::Fail;

#[derive(Clone, Copy)]
struct Case {
    length: usize,
    changes: &'static [(usize, u8)],
    lines: &'static str,
}

fn put(image: &mut Vec<u8>, at: usize, byte: u8) {
    if let Some(place) = image.get_mut(at) {
        *place = byte;
    }
}

// The image of a case; a byte past its end is left out.
fn image_of(heap: Global, case: Case) -> Result<Vec<u8>, AllocError> {
    let mut image = vec![in heap; 0u8; case.length]?;
    put(&mut image, 0, 0x43);
    put(&mut image, 1, 16);
    for (at, byte) in case.changes {
        put(&mut image, *at, *byte);
    }
    Ok(image)
}

#[test]
fn edges(rt: HostRuntime) -> Result<(), Fail> {
    let cases = [
        Case {
            length: 532,
            changes: &[],
            lines: "card 16 sectors 1\n0 blank\n",
        },
        Case {
            length: 1046,
            changes: &[(532, 0x4b), (533, 3)],
            lines: "card 16 sectors 2\n0 blank\n1 key 3\n",
        },
        Case {
            length: 1046,
            changes: &[(532, 0x4b), (533, 7)],
            lines: "card 16 sectors 2\n0 blank\n1 key 7\n",
        },
        // lengths, looked at before the beginning
        Case {
            length: 531,
            changes: &[],
            lines: "refused 2\n",
        },
        Case {
            length: 533,
            changes: &[(0, 0x42)],
            lines: "refused 2\n",
        },
        Case {
            length: 18,
            changes: &[],
            lines: "refused 2\n",
        },
        Case {
            length: 16,
            changes: &[],
            lines: "refused 2\n",
        },
        Case {
            length: 0,
            changes: &[],
            lines: "refused 2\n",
        },
        Case {
            length: 65536,
            changes: &[],
            lines: "refused 2\n",
        },
        Case {
            length: 65537,
            changes: &[],
            lines: "refused 2\n",
        },
        // beginnings
        Case {
            length: 532,
            changes: &[(0, 0x44)],
            lines: "refused 3\n",
        },
        Case {
            length: 532,
            changes: &[(1, 8)],
            lines: "refused 3\n",
        },
        // marks of the last sector: a key that no ring has, another first byte, a second byte alone
        Case {
            length: 1046,
            changes: &[(532, 0x4b), (533, 8)],
            lines: "refused 7 1\n",
        },
        Case {
            length: 1046,
            changes: &[(532, 0x4c), (533, 1)],
            lines: "refused 7 1\n",
        },
        Case {
            length: 1046,
            changes: &[(533, 1)],
            lines: "refused 7 1\n",
        },
        // the last byte of a blank, the first one, and a refusal before another
        Case {
            length: 1046,
            changes: &[(1045, 1)],
            lines: "refused 8 1\n",
        },
        Case {
            length: 1046,
            changes: &[(20, 255), (532, 1)],
            lines: "refused 8 0\n",
        },
    ];
    for case in cases {
        let image = image_of(rt.alloc(), case)?;
        let text = manifest::<Wide>(rt.alloc(), image.as_slice())?;
        assert_eq!(rt; text.as_str(), case.lines);
    }
    Ok(())
}

// The largest lawful image that is not too long has 127 sectors, and the last is told.
#[test]
fn largest(rt: HostRuntime) -> Result<(), Fail> {
    let case = Case {
        length: 65296,
        changes: &[(64782, 0x4b), (64783, 5)],
        lines: "125 blank\n126 key 5\n",
    };
    let image = image_of(rt.alloc(), case)?;
    let text = manifest::<Wide>(rt.alloc(), image.as_slice())?;
    assert!(rt;
        text.as_str()
            .starts_with("card 16 sectors 127\n0 blank\n1 blank\n")
    );
    assert!(rt; text.as_str().ends_with(case.lines));
    Ok(())
}
