// Rooms of exactly the length, shorter ones, and budgets of steps.
use crate::helpers::{BOATS, holds};
use code::{Refusal, Said};
use plural::Locale;
use render::{Answer, Told, render_within, say};
use verifier::Message;

const TOLD: [u64; 6] = [0, 0, 4, 1, 2, 0];

fn said(room: &mut [u8]) -> Said {
    say(&BOATS, &[0, 1], &[], &TOLD, b"Mara", room)
}

#[test]
fn exactly_as_long(rt: HostRuntime) {
    let mut room = [b'.'; 16];
    assert_eq!(rt; said(&mut room), Said::Spoken(16));
    assert!(rt; holds(&room, b"Mara has 2 boats"));
}

#[test]
fn one_less(rt: HostRuntime) {
    let mut room = [b'.'; 15];
    assert_eq!(rt; said(&mut room), Said::Short(16));
    assert!(rt; holds(&room, b""));
}

#[test]
fn none(rt: HostRuntime) {
    assert_eq!(rt; said(&mut [0; 0]), Said::Short(16));
}

// The message has five steps: with fewer it is unfinished, and the room is untouched.
#[test]
fn budgets(rt: HostRuntime) -> Result<(), Refusal> {
    let message = Message::try_new(&BOATS, &[0, 1])?;
    let locale = Locale::try_new(&[])?;
    let told = Told {
        things: &TOLD,
        letters: b"Mara",
    };
    for budget in 0..8 {
        let mut room = [b'.'; 20];
        let answer = render_within(&message, &locale, told, budget, &mut room)?;
        if budget < 5 {
            assert_eq!(rt; answer, Answer::Unfinished);
            assert!(rt; holds(&room, b""));
        } else {
            assert_eq!(rt; answer, Answer::Spoken(16));
        }
    }
    Ok(())
}
