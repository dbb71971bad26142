// Text by its bytes: its longest front of one sort, and what is left behind it.
ghost use Rattle.std.specs.Prelude.{◌≡◌, ℕ, Bool};
ghost use Rattle.std.specs.List.{position, after_first};
ghost use Rattle.msgfile.specs.Text.{blank, space, wordy, lined, newline, unblanked, uncommented, SplitBy};

fn is_blank(byte: u8) -> bool
    ensures { result ≡ blank byte }
{
    matches!(byte, b' ' | b'\t' | b'\r')
}

// A blank or the end of a line.
pub(crate) fn is_space(byte: u8) -> bool
    ensures { result ≡ space byte }
{
    is_blank(byte) || byte == b'\n'
}

// Neither a space, a comma nor the beginning of a comment.
fn is_wordy(byte: u8) -> bool
    ensures { result ≡ wordy byte }
{
    !(is_space(byte) || byte == b',' || byte == b'#')
}

// The longest front whose bytes pass a test, and what is left behind it.
fn split_front<P: Fn(u8) -> bool>(text: &[u8], passes: P) -> (&[u8], &[u8])
    requires { P.IsAlwaysCallable passes }
    ensures { (p : ℕ → Bool) → ((b : ℕ) (r : Bool) → P.post passes b r → r ≡ p b) → SplitBy p text.now result.0.now result.1.now }
{
    let end = text.iter().take_while(|byte| passes(**byte)).count();
    text.split_at(end)
}

// What stands behind the blanks at the front.
pub(crate) fn unblanked(text: &[u8]) -> &[u8]
    ensures { result.now ≡ unblanked text.now }
{
    split_front(text, is_blank).1
}

// The word at the front, and what is left behind it.
pub(crate) fn split_word(text: &[u8]) -> (&[u8], &[u8])
    ensures { SplitBy wordy text.now result.0.now result.1.now }
{
    split_front(text, is_wordy)
}

// The line at the front, as far as a comment, and what is left behind it.
pub(crate) fn split_line(text: &[u8]) -> (&[u8], &[u8])
    ensures { SplitBy lined text.now result.0.now result.1.now }
{
    split_front(text, |byte| !(byte == b'\n' || byte == b'#'))
}

// Where the line at the front ends, if it does.
fn line_end(text: &[u8]) -> Option<usize>
    ensures { result ≡ position newline text.now }
{
    text.iter().position(|byte| *byte == b'\n')
}

// What stands behind the line at the front and its end.
fn skip_line(text: &[u8]) -> &[u8]
    ensures { result.now ≡ after_first newline text.now }
{
    match line_end(text) {
        Some(end) => &text[end + 1..],
        None => &[],
    }
}

// What stands behind the spaces and comments at the front.
pub(crate) fn skip_comments(text: &[u8]) -> &[u8]
    ensures { result.now ≡ uncommented text.now }
{
    let mut left = text;
    while let Some((byte, rest)) = left.split_first() {
        if *byte == b'#' {
            left = skip_line(rest);
        } else if is_space(*byte) {
            left = rest;
        } else {
            break;
        }
    }
    left
}
