// What saying a message comes to.

#[derive(Clone, Copy, Debug, PartialEq, Eq)]
pub enum Answer {
    // It was put into the room; how long it is.
    Spoken(u64),
    // It doesn't fit, and the room is as it was; how long it is.
    Short(u64),
    // The budget of steps was too small, and the room is as it was. A case like the others: an `Option` around them would only be taken off at once.
    Unfinished,
}
