//! Tests of the readers.

use pq_io::*;
use std::test::Fail;

#[test]
fn words_of_a_line(rt: HostRuntime) -> Result<(), Fail> {
    let mut text = TextReader::new(b"# seats\n\n\tseats 16  capacity 0042 \r\nleft 7");
    let mut head = text.next_line().ok().ok_or("a line")?;
    assert_eq!(rt; head.line(), 3);
    assert_eq!(rt; head.fixed(b"seats"), Ok(()));
    assert_eq!(rt; head.number(1, 16), Ok(16));
    assert_eq!(rt; head.fixed(b"capacity"), Ok(()));
    assert_eq!(rt; head.finish(), Err(Cause::Extra));
    assert_eq!(rt; head.number(1, 1_048_576), Ok(42));
    assert_eq!(rt; head.finish(), Ok(()));
    assert_eq!(rt; head.number(0, 9), Err(Cause::Missing));
    assert_eq!(rt;
        on_line(3, head.number(0, 9)),
        Err(BadInput {
            line: 3,
            cause: Cause::Missing
        })
    );
    assert_eq!(rt;
        text.finish(),
        Err(BadInput {
            line: 4,
            cause: Cause::Extra
        })
    );
    let mut last = text.next_line().ok().ok_or("a last line")?;
    assert_eq!(rt; last.fixed(b"lef"), Err(Cause::Word));
    let word = last.word().ok().ok_or("a word")?;
    assert_eq!(rt; digits(word, 0, 9), Ok(7));
    assert_eq!(rt; digits(word, 8, 9), Err(Cause::Range));
    assert_eq!(rt; digits(b"7 ", 0, 9), Err(Cause::Number));
    assert_eq!(rt; text.finish(), Ok(()));
    assert_eq!(rt;
        text.next_line().err(),
        Some(BadInput {
            line: 5,
            cause: Cause::Missing
        })
    );
    Ok(())
}

#[test]
fn numbers_in_decimal(rt: HostRuntime) -> Result<(), Fail> {
    let mut out = Vec::new(rt.alloc());
    for number in [0, 7, 10, 67_108_863, u64::MAX] {
        write_number(&mut out, number).ok().ok_or("memory")?;
        out.push(b' ')?;
    }
    assert_eq!(rt;
        out.as_slice(),
        b"0 7 10 67108863 18446744073709551615 ".as_slice()
    );
    Ok(())
}
