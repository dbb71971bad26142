// What is turned away, by the first number that applies; and its places.
use crate::helpers::refusal;
use code::Refusal;
use render::try_say;

const ARG: [u8; 3] = [2, 0, 0];

const RULE: [u64; 6] = [1, 0, 0, 1, 1, 0];

#[test]
fn each_alone(rt: HostRuntime) {
    assert_eq!(rt; refusal(&rt, &[0; 4097], &[], &[], &[], b""), Some(1));
    assert_eq!(rt; refusal(&rt, &[0], &[0; 17], &[], &[0; 51], b""), Some(1));
    assert_eq!(rt; refusal(&rt, &[0], &[2], &[], &[1, 5, 0], b""), Some(2));
    assert_eq!(rt; refusal(&rt, &[9], &[], &[], &[], b""), Some(3));
    assert_eq!(rt; refusal(&rt, &[], &[], &[], &[], b""), Some(3));
    assert_eq!(rt;
        refusal(&rt, &[0], &[], &[1, 0, 0, 1, 1], &[], b""),
        Some(4)
    );
    assert_eq!(rt;
        refusal(&rt, &[0], &[], &[1, 0, 0, 1, 1, 6], &[], b""),
        Some(4)
    );
    assert_eq!(rt;
        refusal(&rt, &[0], &[], &[0, 0, 0, 1, 1, 0], &[], b""),
        Some(4)
    );
    assert_eq!(rt; refusal(&rt, &[0], &[], &[1; 126], &[], b""), Some(4));
    assert_eq!(rt; refusal(&rt, &ARG, &[1], &[], &[], b""), Some(5));
}

#[test]
fn rules_that_pass(rt: HostRuntime) {
    assert_eq!(rt; refusal(&rt, &[0], &[], &RULE, &[], b""), None);
    assert_eq!(rt; refusal(&rt, &[0], &[], &[1; 120], &[], b""), None);
    assert_eq!(rt;
        refusal(&rt, &[0], &[], &[1, 9, 0, 9, 0, 5], &[], b""),
        None
    );
}

#[test]
fn things_told(rt: HostRuntime) {
    assert_eq!(rt; refusal(&rt, &ARG, &[1], &[], &[1, 5], b""), Some(5));
    assert_eq!(rt; refusal(&rt, &ARG, &[1], &[], &[1, 5, 0, 1], b""), Some(5));
    assert_eq!(rt;
        refusal(&rt, &ARG, &[1], &[], &[1, 5, 0, 1, 5, 0], b""),
        Some(5)
    );
    assert_eq!(rt; refusal(&rt, &ARG, &[1], &[], &[0, 0, 0], b""), Some(5));
    assert_eq!(rt; refusal(&rt, &ARG, &[0], &[], &[1, 0, 0], b""), Some(5));
    assert_eq!(rt; refusal(&rt, &ARG, &[0], &[], &[2, 0, 0], b""), Some(5));
}

#[test]
fn within_the_letters(rt: HostRuntime) {
    assert_eq!(rt; refusal(&rt, &ARG, &[0], &[], &[0, 1, 2], b"abc"), None);
    assert_eq!(rt; refusal(&rt, &ARG, &[0], &[], &[0, 1, 3], b"abc"), Some(5));
    assert_eq!(rt; refusal(&rt, &ARG, &[0], &[], &[0, 3, 0], b"abc"), None);
    assert_eq!(rt; refusal(&rt, &ARG, &[0], &[], &[0, 4, 0], b"abc"), Some(5));
    assert_eq!(rt;
        refusal(&rt, &ARG, &[0], &[], &[0, 1, 18446744073709551615], b"abc"),
        Some(5)
    );
}

#[test]
fn two_at_once(rt: HostRuntime) {
    assert_eq!(rt; refusal(&rt, &[9; 4097], &[2], &[9], &[9], b""), Some(1));
    assert_eq!(rt; refusal(&rt, &[9], &[2], &[9], &[9], b""), Some(2));
    assert_eq!(rt; refusal(&rt, &[9], &[1], &[9], &[9], b""), Some(3));
    assert_eq!(rt; refusal(&rt, &ARG, &[1], &[9], &[9], b""), Some(4));
    assert_eq!(rt; refusal(&rt, &ARG, &[1], &RULE, &[9], b""), Some(5));
}

// The place of a refusal, if there is one.
fn place(kinds: &[u8], rules: &[u64], told: &[u64]) -> Option<usize> {
    let said = try_say(&[0], kinds, rules, told, b"abc", &mut [0; 4]);
    said.err().map(|refusal| refusal.place())
}

#[test]
fn places(rt: HostRuntime) {
    assert_eq!(rt; place(&[], &[1; 126], &[]), Some(20));
    assert_eq!(rt; place(&[], &[1, 0, 0, 1, 1, 0, 1], &[]), Some(1));
    assert_eq!(rt;
        place(&[], &[1, 0, 0, 1, 1, 0, 0, 0, 0, 1, 1, 0], &[]),
        Some(1)
    );
    assert_eq!(rt; place(&[1, 0], &[], &[1, 5, 0]), Some(1));
    assert_eq!(rt; place(&[1, 0], &[], &[1, 5, 0, 0, 2, 2]), Some(1));
    assert_eq!(rt; place(&[1], &[], &[1, 5, 0, 1]), Some(1));
    assert_eq!(rt; place(&[0, 1], &[], &[0, 0, 3, 1, 2, 0]), None);
}

#[test]
fn number_and_place(rt: HostRuntime) {
    let said = try_say(&[0], &[], &[5], &[], b"", &mut [0; 1]);
    assert_eq!(rt; said, Err(Refusal::Rule(0)));
    assert_eq!(rt; Refusal::Rule(3).number(), 4);
    assert_eq!(rt; Refusal::Argument(7).place(), 7);
}
