// The class of a number: the first rule that fits.
use code::Refusal;
use plural::Locale;

// One, few and many: a modulus and the range of what it leaves, the exceptions first.
const SLAVIC: [[u64; 6]; 4] = [
    [100, 11, 14, 0, u64::MAX, 2],
    [10, 1, 1, 0, u64::MAX, 0],
    [10, 2, 4, 0, u64::MAX, 1],
    [1, 0, 0, 0, u64::MAX, 2],
];

const CLASSES: [(u64, usize); 12] = [
    (0, 2),
    (1, 0),
    (2, 1),
    (4, 1),
    (5, 2),
    (11, 2),
    (14, 2),
    (21, 0),
    (22, 1),
    (111, 2),
    (4294967301, 0),
    (u64::MAX, 2),
];

#[test]
fn classes(rt: HostRuntime) -> Result<(), Refusal> {
    let locale = Locale::try_new(SLAVIC.as_flattened())?;
    for (n, class) in CLASSES {
        assert_eq!(rt; locale.class(n), class);
    }
    Ok(())
}

// The class of a number by one rule, or by two.
fn class_by(rules: &[u64], n: u64) -> Result<usize, Refusal> {
    Ok(Locale::try_new(rules)?.class(n))
}

#[test]
fn rules_in_order(rt: HostRuntime) {
    assert_eq!(rt; class_by(&[], 1), Ok(5));
    assert_eq!(rt; class_by(&[1, 0, 0, 2, 4, 3], 1), Ok(5));
    assert_eq!(rt; class_by(&[1, 0, 0, 2, 4, 3], 2), Ok(3));
    assert_eq!(rt; class_by(&[1, 0, 0, 2, 4, 3], 4), Ok(3));
    assert_eq!(rt; class_by(&[1, 0, 0, 4, 2, 3], 3), Ok(5));
    assert_eq!(rt; class_by(&[10, 4, 2, 0, 99, 3], 3), Ok(5));
    assert_eq!(rt; class_by(&[1, 0, 0, 1, 1, 0, 1, 0, 0, 1, 1, 1], 1), Ok(0));
}
