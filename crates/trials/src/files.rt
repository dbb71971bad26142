// Message files: what is read, and where a text can't be; and things told by words.
use code::Kind;
use msgfile::{Expected, Position, ReadError, TellError, Things, position_of, read_message};
use plural::read_figures;
use std::test::Fail;

#[test]
fn told_and_code(rt: HostRuntime) -> Result<(), ReadError> {
    let source = read_message(
        rt.alloc(),
        b"# boats\ntold name text, count number # two\n 2 0\t255 # bytes\n7",
    )?;
    assert!(rt; source.kinds.as_slice() == [0, 1].as_slice());
    assert!(rt; source.code.as_slice() == [2, 0, 255, 7].as_slice());
    Ok(())
}

#[test]
fn nothing_told(rt: HostRuntime) -> Result<(), ReadError> {
    let source = read_message(rt.alloc(), b"told# nothing\n0")?;
    assert!(rt; source.kinds.is_empty() && source.code.as_slice() == [0].as_slice());
    Ok(())
}

// Which fault a text has, and where; none, if it can be read.
fn fault(rt: &HostRuntime, text: &[u8]) -> Option<(Expected, Position)> {
    match read_message(rt.alloc(), text) {
        Err(ReadError::Wrong(expected, left)) => Some((expected, position_of(text, left))),
        _ => None,
    }
}

fn at(expected: Expected, line: usize, column: usize) -> Option<(Expected, Position)> {
    Some((expected, Position { line, column }))
}

#[test]
fn faults(rt: HostRuntime) {
    assert_eq!(rt; fault(&rt, b"1 2 x"), at(Expected::Number, 1, 5));
    assert_eq!(rt; fault(&rt, b"1\n2 256"), at(Expected::Number, 2, 5));
    assert_eq!(rt; fault(&rt, b"told , a text"), at(Expected::Name, 1, 6));
    assert_eq!(rt; fault(&rt, b"told a text,\n0"), at(Expected::Name, 1, 13));
    assert_eq!(rt;
        fault(&rt, b"told a number, b texts\n0"),
        at(Expected::Kind, 1, 18)
    );
    assert_eq!(rt; fault(&rt, b"told a\n0"), at(Expected::Kind, 1, 7));
    assert_eq!(rt;
        fault(&rt, b"\ntold a text b text\n0"),
        at(Expected::Comma, 2, 13)
    );
    assert_eq!(rt;
        fault(&rt, "told \u{e9} txt".as_bytes()),
        at(Expected::Kind, 1, 8)
    );
}

#[test]
fn faults_in_words(rt: HostRuntime) -> Result<(), Fail> {
    let position = Position {
        line: 2,
        column: 13,
    };
    let number = Expected::Number;
    let name = Expected::Name;
    let kind = Expected::Kind;
    let comma = Expected::Comma;
    let fewer = Expected::Fewer;
    let words = format!(in rt.alloc(); "{position}: {number}; {name}; {kind}; {comma}; {fewer}")?;
    assert!(rt;
        words.as_str()
            == "2:13: expected a number from 0 to 255; expected the name of a thing told; expected `text` or `number` behind the name; expected a comma or the end of the line; expected fewer things: at most 256 are read, and a message is told at most 16"
    );
    Ok(())
}

#[test]
fn things_told(rt: HostRuntime) -> Result<(), TellError> {
    let mut things = Things::new(rt.alloc());
    things.thing(Kind::Text, b"Ida")?;
    things.thing(Kind::Number, b"007")?;
    things.text(b"Bo")?;
    assert_eq!(rt; things.number(b"seven"), Err(TellError::NoNumber));
    assert_eq!(rt; things.count(), 3);
    assert!(rt; things.told.as_slice() == [0, 0, 3, 1, 7, 0, 0, 3, 2].as_slice());
    assert!(rt; things.letters.as_slice() == b"IdaBo".as_slice());
    Ok(())
}

#[test]
fn figures_read(rt: HostRuntime) {
    assert_eq!(rt; read_figures(b"0"), Some(0));
    assert_eq!(rt; read_figures(b"007"), Some(7));
    assert_eq!(rt; read_figures(b"18446744073709551615"), Some(u64::MAX));
    assert_eq!(rt; read_figures(b"18446744073709551616"), None);
    assert_eq!(rt; read_figures(b""), None);
    assert_eq!(rt; read_figures(b"1x"), None);
    assert_eq!(rt; read_figures(b"+1"), None);
}
