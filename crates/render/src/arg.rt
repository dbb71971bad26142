// One argument: a number, or a text as a part of the lent letters.

#[derive(Clone, Copy, Debug, PartialEq, Eq)]
pub(crate) enum Arg<'a> {
    Number(u64),
    Text(&'a [u8]),
}
