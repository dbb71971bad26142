// What the trials share: a sentence said, and a refusal that leaves the room alone.
use code::Said;
use render::say;
use std::process::Abort;

// A text, " has ", a number and " boats".
pub(crate) const BOATS: [u8; 20] = [
    2, 0, 1, 5, 32, 104, 97, 115, 32, 2, 1, 1, 6, 32, 98, 111, 97, 116, 115, 0,
];

// Whether the room begins with a text and is untouched behind it.
pub(crate) fn holds(room: &[u8], text: &[u8]) -> bool {
    match room.strip_prefix(text) {
        Some(rest) => rest.iter().all(|byte| *byte == b'.'),
        None => false,
    }
}

// The message says this text, and nothing else in the room changes.
pub(crate) fn says(
    rt: &impl Abort,
    code: &[u8],
    kinds: &[u8],
    told: &[u64],
    letters: &[u8],
    text: &[u8],
) {
    let mut room = [b'.'; 64];
    let said = say(code, kinds, &[], told, letters, &mut room);
    assert_eq!(rt; said, Said::Spoken(text.len() as u64));
    assert!(rt; holds(&room, text));
}

// The number of the refusal, if there is one.
pub(crate) fn refusal(
    rt: &impl Abort,
    code: &[u8],
    kinds: &[u8],
    rules: &[u64],
    told: &[u64],
    letters: &[u8],
) -> Option<u64> {
    let mut room = [b'.'; 8];
    match say(code, kinds, rules, told, letters, &mut room) {
        Said::Refused(number) => {
            assert!(rt; holds(&room, b""));
            Some(number)
        }
        _ => None,
    }
}
