// Cents, grades, and texts in memory of the caller.
use costs::{Cents, Cost, Grade, WrittenCost};
use refusals::Refusal;
use texts::{TooShort, Word, read_number, write_line, write_number, write_refusal};

#[test]
fn cents_are_held_at_the_greatest(rt: HostRuntime) {
    const MOST: u64 = 1_000_000_000_000_000;
    for (amount, next, joined) in [
        (0, 0, 0),
        (7, 5, 12),
        (MOST - 1, 1, MOST),
        (MOST, 1, MOST),
        (u64::MAX, u64::MAX, MOST),
    ] {
        assert_eq!(rt; Cents::new(amount).join(Cents::new(next)).amount(), joined);
    }
    assert!(rt; <Cents as Cost>::neutral().at_most(Cents::new(0)));
    assert!(rt; !Cents::new(8).at_most(Cents::new(7)));
}

#[test]
fn grades_join_to_the_greater(rt: HostRuntime) {
    for (number, next, joined) in [(0, 0, 0), (4, 9, 9), (9, 4, 9), (3, 3, 3), (16, 1, 15)] {
        assert_eq!(rt; Grade::new(number).join(Grade::new(next)).number(), joined);
    }
    assert_eq!(rt; <Grade as Cost>::neutral().number(), 0);
    assert!(rt; !Grade::new(4).at_most(Grade::new(3)));
}

#[test]
fn a_text_fills_memory_of_its_length(rt: HostRuntime) {
    let mut memory = [b'.'; 6];
    assert_eq!(rt; Cents::new(2399).write(&mut memory), Ok(4));
    assert!(rt; memory == *b"2399..");
    assert_eq!(rt; Cents::new(0).write(&mut memory[0..1]), Ok(1));
    assert!(rt; memory == *b"0399..");
    assert_eq!(rt; Grade::new(15).write(&mut memory[0..1]), Err(TooShort));
    assert!(rt; memory == *b"0399..");
    assert_eq!(rt; write_number(1_000_000, &mut memory), Err(TooShort));
    assert_eq!(rt; write_number(999_999, &mut memory), Ok(6));
    assert_eq!(rt; TooShort.number(), 8);
}

#[test]
fn lines_of_words_and_refusals(rt: HostRuntime) {
    let mut memory = [b'.'; 12];
    assert_eq!(rt;
        write_line(&[Word::Number(3), Word::NoQuote], &mut memory),
        Ok(7)
    );
    assert!(rt; memory == *b"3 none\n.....");
    assert_eq!(rt;
        write_line(
            &[Word::Number(12), Word::Number(0), Word::Number(12345)],
            &mut memory,
        ),
        Ok(11)
    );
    assert!(rt; memory == *b"12 0 12345\n.");
    assert_eq!(rt;
        write_line(
            &[Word::Refused, Word::Number(12), Word::Number(9)],
            &mut memory,
        ),
        Err(TooShort)
    );
    assert!(rt; memory == *b"12 0 12345\n.");
    assert_eq!(rt; write_refusal(&TooShort, &mut memory), Ok(10));
    assert!(rt; memory == *b"refused 8\n\n.");
}

#[test]
fn numbers_as_users_write_them(rt: HostRuntime) {
    for (text, number) in [
        ("0", 0),
        ("00695", 695),
        ("4294967295", u32::MAX),
        ("4294967296", u32::MAX),
        ("99999999999999999999", u32::MAX),
    ] {
        assert_eq!(rt; read_number(text.as_bytes()), Some(number));
    }
    for text in ["", "+5", "1,000", "12a"] {
        assert_eq!(rt; read_number(text.as_bytes()), None);
    }
}
