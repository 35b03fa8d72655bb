// Charges, rate cards, and the tariff that never quotes.
use costs::Cents;
use refusals::Refusal;
use tariffs::{CardRefusal, NeverQuotes, Quote, RateCard, Tariff, charge_for};

fn quote(minutes: u32, cents: u64) -> Option<Quote<Cents>> {
    Some(Quote {
        minutes,
        cost: Cents::new(cents),
    })
}

#[test]
fn seven_minutes_at_a_hundred_cents_cost_twelve(rt: HostRuntime) {
    assert_eq!(rt; charge_for(100, 7).amount(), 12);
    // a single minute is rounded up too, so that seven of them by themselves cost 14
    assert_eq!(rt; charge_for(100, 1).amount(), 2);
    let mut card = RateCard::new();
    assert_eq!(rt; card.add(10, 100), Ok(0));
    assert_eq!(rt; card.quote(0, 70), quote(7, 12));
}

#[test]
fn charges_at_the_limits(rt: HostRuntime) {
    let cases = [
        (0, 1440, 0),
        (1, 1, 1),
        (60, 1, 1),
        (61, 1, 2),
        (1_000_000, 1440, 24_000_000),
        (u32::MAX, u32::MAX, 1_000_000_000_000_000),
    ];
    for (rate, minutes, cents) in cases {
        assert_eq!(rt; charge_for(rate, minutes).amount(), cents);
    }
}

#[test]
fn a_day_is_the_longest_hire(rt: HostRuntime) {
    let mut card = RateCard::new();
    for (speed, rate) in [(694, 100), (695, 100), (10_000, 1_000_000), (1, 0)] {
        assert!(rt; card.add(speed, rate).is_ok());
    }
    let cases = [
        (0, 1_000_000, None),
        (1, 1_000_000, quote(1439, 2399)),
        (2, 1_000_000, quote(100, 1_666_667)),
        (3, 1440, quote(1440, 0)),
        (3, 1441, None),
        (2, 0, None),
        (2, 1, quote(1, 16_667)),
        (2, 1_000_001, None),
        (4, 1, None),
        (usize::MAX, 1, None),
    ];
    for (machine, work, expected) in cases {
        assert_eq!(rt; card.quote(machine, work), expected);
    }
}

#[test]
fn a_line_out_of_range_leaves_the_card(rt: HostRuntime) {
    let mut card = RateCard::new();
    assert_eq!(rt; card.add(20, 1500), Ok(0));
    for (speed, rate) in [
        (0, 100),
        (10_001, 100),
        (10, 1_000_001),
        (u32::MAX, u32::MAX),
    ] {
        assert_eq!(rt; card.add(speed, rate), Err(CardRefusal::OutOfRange));
        assert_eq!(rt; card.machines(), 1);
        assert_eq!(rt; card.quote(0, 100), quote(5, 125));
    }
    assert_eq!(rt; CardRefusal::OutOfRange.number(), 5);
}

#[test]
fn a_full_card_takes_no_line(rt: HostRuntime) {
    let mut card = RateCard::new();
    for machine in 0..32usize {
        assert_eq!(rt; card.add(10, machine as u32), Ok(machine));
    }
    assert_eq!(rt; card.add(10, 100), Err(CardRefusal::Full));
    assert_eq!(rt; card.add(0, 100), Err(CardRefusal::Full));
    assert_eq!(rt; card.machines(), 32);
    assert_eq!(rt; card.quote(31, 600), quote(60, 31));
    assert_eq!(rt; CardRefusal::Full.number(), 4);
    assert_eq!(rt; CardRefusal::Full.carried(), None);
}

#[test]
fn nothing_is_quoted_by_the_tariff_that_never_quotes(rt: HostRuntime) {
    let never: NeverQuotes<Cents> = NeverQuotes::new();
    assert_eq!(rt; never.machines(), 32);
    assert_eq!(rt; never.quote(0, 1), None);
    assert_eq!(rt; never.quote(31, 1_000_000), None);
}
