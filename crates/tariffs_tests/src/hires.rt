// Hires from plain numbers.
use hire::{HIRE_TEXT_BYTES, HireRefusal, Terms, read_hire, write_hire, write_quote};
use refusals::Refusal;
use std::test::Fail;
use tariffs::Tariff;
use texts::TooShort;

#[test]
fn quotes_come_in_the_order_of_the_terms(rt: HostRuntime) -> Result<(), Fail> {
    let hire = read_hire(
        1_000_000,
        &[
            Terms {
                speed: 694,
                rate: 100,
            },
            Terms {
                speed: 695,
                rate: 100,
            },
        ],
    )
    .map_err(|_| Fail::new("refused"))?;
    let mut memory = [b'.'; 13];
    assert_eq!(rt; hire.card.machines(), 2);
    assert_eq!(rt; write_quote(&hire.card, 0, hire.work, &mut memory), Ok(7));
    assert!(rt; memory == *b"0 none\n......");
    assert_eq!(rt; write_quote(&hire.card, 1, hire.work, &mut memory), Ok(12));
    assert!(rt; memory == *b"1 1439 2399\n.");
    assert_eq!(rt;
        write_quote(&hire.card, 1, hire.work, &mut memory[0..11]),
        Err(TooShort)
    );
    assert!(rt; memory == *b"1 1439 2399\n.");
    Ok(())
}

#[test]
fn a_refusal_names_its_argument(rt: HostRuntime) {
    let fine = Terms {
        speed: 10,
        rate: 600,
    };
    let idle = Terms {
        speed: 0,
        rate: 600,
    };
    assert_eq!(rt; read_hire(0, &[idle]), Err(HireRefusal::Work));
    assert_eq!(rt; read_hire(1_000_001, &[fine]), Err(HireRefusal::Work));
    let dear = Terms {
        speed: 10,
        rate: 1_000_001,
    };
    let idle_and_dear = Terms {
        speed: 0,
        rate: 1_000_001,
    };
    for (terms, argument) in [
        ([fine, idle, idle], 4),
        ([fine, dear, idle], 5),
        ([fine, fine, idle_and_dear], 6),
        ([dear, idle, idle], 3),
    ] {
        assert_eq!(rt;
            read_hire(1, &terms),
            Err(HireRefusal::OutOfRange(argument))
        );
    }
    assert!(rt; read_hire(1, &[fine; 32]).is_ok());
    assert_eq!(rt; read_hire(1, &[fine; 33]), Err(HireRefusal::FullCard(66)));
}

#[test]
fn refusals_have_numbers(rt: HostRuntime) {
    for (refusal, number, argument) in [
        (HireRefusal::Work, 3, 1),
        (HireRefusal::FullCard(66), 4, 66),
        (HireRefusal::OutOfRange(4), 5, 4),
    ] {
        assert_eq!(rt; refusal.number(), number);
        assert_eq!(rt; refusal.carried(), Some(argument));
    }
}

// The text of a hire, and that the memory behind it is as it was.
fn writes(work: u32, terms: &[Terms], expected: &[u8]) -> bool {
    let mut memory = [b'.'; HIRE_TEXT_BYTES];
    let written = write_hire(work, terms, &mut memory);
    &memory[..written] == expected && memory[written..].iter().all(|byte| *byte == b'.')
}

#[test]
fn a_hire_is_answered_by_all_lines_or_by_its_refusal(rt: HostRuntime) {
    let slow = Terms {
        speed: 694,
        rate: 100,
    };
    let enough = Terms {
        speed: 695,
        rate: 100,
    };
    let dear = Terms {
        speed: 10_000,
        rate: 1_000_001,
    };
    assert!(rt; writes(1_000_000, &[slow, enough], b"0 none\n1 1439 2399\n"));
    assert!(rt; writes(1_000_000, &[], b""));
    assert!(rt; writes(0, &[dear], b"refused 3 1\n"));
    assert!(rt; writes(1, &[slow; 33], b"refused 4 66\n"));
    assert!(rt; writes(1, &[slow, dear], b"refused 5 5\n"));
}
