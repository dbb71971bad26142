// Good code, bad code and the limits.
use crate::helpers::BOATS;
use code::{Refusal, Said};
use verifier::{Flaw, check as check_code, explain, verify};

#[test]
fn cut_at_every_place(rt: HostRuntime) {
    for len in 0..BOATS.len() {
        assert_eq!(rt; check_code(&BOATS[0..len], &[0, 1]), Said::Bad);
    }
    assert_eq!(rt; check_code(&BOATS, &[0, 1]), Said::Good);
}

#[test]
fn looked_at_whether_one_comes_to_it_or_not(rt: HostRuntime) {
    assert_eq!(rt; check_code(&[0, 9], &[]), Said::Bad);
    assert_eq!(rt; check_code(&[0, 2, 0, 0], &[]), Said::Bad);
    assert_eq!(rt; check_code(&[0, 2, 0, 0], &[1]), Said::Good);
}

#[test]
fn as_long_as_it_may_be(rt: HostRuntime) {
    assert_eq!(rt; check_code(&[0; 4096], &[0; 16]), Said::Good);
    assert_eq!(rt; check_code(&[0; 4097], &[0; 16]), Said::Refused(1));
    assert_eq!(rt; check_code(&[0; 4096], &[0; 17]), Said::Refused(1));
    assert_eq!(rt; check_code(&[0; 4097], &[7; 17]), Said::Refused(1));
}

#[test]
fn kinds(rt: HostRuntime) {
    assert_eq!(rt; check_code(&[0], &[0, 1]), Said::Good);
    assert_eq!(rt; check_code(&[0], &[0, 2]), Said::Refused(2));
    assert_eq!(rt; check_code(&[9], &[255]), Said::Refused(2));
}

// The place of a refusal, if there is one.
fn place(code: &[u8], kinds: &[u8]) -> Option<usize> {
    verify(code, kinds).err().map(|refusal| refusal.place())
}

#[test]
fn places(rt: HostRuntime) {
    assert_eq!(rt; place(&[0; 4097], &[]), Some(0));
    assert_eq!(rt; place(&[0], &[0; 17]), Some(1));
    assert_eq!(rt; place(&[0], &[0, 1, 2, 3]), Some(2));
    assert_eq!(rt; place(&[], &[]), Some(0));
    assert_eq!(rt; place(&[1, 1, 97, 9, 9, 9], &[]), Some(3));
    assert_eq!(rt; place(&[2, 0, 2, 1, 0], &[0]), Some(2));
    assert_eq!(rt; place(&[0], &[]), None);
}

#[test]
fn flaws(rt: HostRuntime) {
    assert_eq!(rt; explain(&[], &[], 0), Some(Flaw::Empty));
    assert_eq!(rt; explain(&[0, 9], &[], 1), Some(Flaw::Unknown(9)));
    assert_eq!(rt; explain(&[1, 2, 97], &[], 0), Some(Flaw::Cut));
    assert_eq!(rt; explain(&[1], &[], 0), Some(Flaw::Cut));
    assert_eq!(rt; explain(&[2, 3, 0], &[0], 0), Some(Flaw::Untold(3)));
    assert_eq!(rt; explain(&[2, 0], &[0], 0), Some(Flaw::PastEnd));
    assert_eq!(rt; explain(&[1, 0, 0], &[], 0), None);
}

#[test]
fn first_refusal_first(rt: HostRuntime) {
    assert_eq!(rt; verify(&[0; 4097], &[7; 17]), Err(Refusal::LongCode));
    assert_eq!(rt; verify(&[9], &[7; 17]), Err(Refusal::ManyKinds));
    assert_eq!(rt; verify(&[9], &[7, 8]), Err(Refusal::Kind(0)));
    assert_eq!(rt; verify(&[9], &[1]), Err(Refusal::Step(0)));
}
