// What a message file holds.

#[derive(Debug, Drop)]
pub struct Source {
    // The kinds of what is told, 0 a text and 1 a number; as bytes, since the verifier's entry is lent them so.
    pub kinds: Vec<u8>,
    pub code: Vec<u8>,
}
