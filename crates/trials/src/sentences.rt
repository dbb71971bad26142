// The rows of the table, and numbers in figures.
use crate::helpers::{BOATS, says};

#[test]
fn rows(rt: HostRuntime) {
    says(&rt, &[0], &[], &[], b"", b"");
    says(&rt, &[1, 2, 104, 105, 0], &[], &[], b"", b"hi");
    says(&rt, &[1, 0, 0], &[], &[], b"", b"");
    says(&rt, &[2, 0, 0], &[0], &[0, 0, 4], b"Mara", b"Mara");
    says(
        &rt,
        &[2, 1, 2, 0, 2, 1, 0],
        &[0, 1],
        &[0, 0, 2, 1, 5, 0],
        b"ab",
        b"5ab5",
    );
}

#[test]
fn nothing_behind_the_end(rt: HostRuntime) {
    says(&rt, &[1, 1, 97, 0, 1, 1, 98, 0], &[], &[], b"", b"a");
}

#[test]
fn figures(rt: HostRuntime) {
    says(&rt, &[2, 0, 0], &[1], &[1, 0, 0], b"", b"0");
    says(&rt, &[2, 0, 0], &[1], &[1, 9, 0], b"", b"9");
    says(&rt, &[2, 0, 0], &[1], &[1, 10, 0], b"", b"10");
    says(&rt, &[2, 0, 0], &[1], &[1, 1000, 0], b"", b"1000");
    says(
        &rt,
        &[2, 0, 0],
        &[1],
        &[1, 18446744073709551615, 0],
        b"",
        b"18446744073709551615",
    );
}

#[test]
fn third_number_of_a_number(rt: HostRuntime) {
    says(&rt, &[2, 0, 0], &[1], &[1, 7, 99], b"", b"7");
}

#[test]
fn letters_that_look_like_steps(rt: HostRuntime) {
    says(&rt, &[1, 4, 0, 1, 2, 9, 0], &[], &[], b"", &[0, 1, 2, 9]);
}

#[test]
fn as_much_as_may_be(rt: HostRuntime) {
    says(&rt, &[0; 4096], &[0; 16], &[0; 48], b"", b"");
    says(&rt, &[2, 15, 0], &[0; 16], &[0; 48], b"", b"");
}

#[test]
fn boats(rt: HostRuntime) {
    says(
        &rt,
        &BOATS,
        &[0, 1],
        &[0, 0, 4, 1, 2, 0],
        b"Mara",
        b"Mara has 2 boats",
    );
}

#[test]
fn parts_of_the_letters(rt: HostRuntime) {
    says(&rt, &[2, 0, 0], &[0], &[0, 1, 2], b"abc", b"bc");
    says(&rt, &[2, 0, 0], &[0], &[0, 3, 0], b"abc", b"");
    says(
        &rt,
        &[2, 0, 2, 1, 0],
        &[0, 0],
        &[0, 0, 3, 0, 1, 1],
        b"abc",
        b"abcb",
    );
}
