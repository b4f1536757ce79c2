use rows::{Rows, print_rows, read_rows};
use std::test::Fail;

#[test]
fn texts_are_read_and_printed(rt: HostRuntime) -> Result<(), Fail> {
    let alloc = rt.alloc();
    for (what, text, printed) in [
        ("no text", b"".as_slice(), b"".as_slice()),
        ("different lengths", b"a,b,c\nd\ne,f\n", b"a,b,c\nd\ne,f\n"),
        ("no line's end", b"a,b\nc", b"a,b\nc\n"),
        ("quotes", b"\"a,\"\"b\n\",\"c\"\n", b"\"a,\"\"b\n\",c\n"),
        ("no UTF-8", b"\xff,\xc3\n", b"\xff,\xc3\n"),
        ("a mark", b"\xef\xbb\xbfa,b\n", b"a,b\n"),
        (
            "two marks",
            b"\xef\xbb\xbf\xef\xbb\xbfa\n",
            b"\xef\xbb\xbfa\n",
        ),
        ("CR LF", b"a,b\r\nc\r\n", b"a,b\nc\n"),
        ("blank lines", b"\na\n\r\n\nb\n", b"a\nb\n"),
        ("spaces", b" a , b\t\n", b" a , b\t\n"),
        ("empty fields", b",\n\"\"\n", b",\n\"\"\n"),
    ] {
        assert!(rt; text.len() < 100);
        let rows = read_rows(alloc, text)?;
        assert_eq!(rt; print_rows(alloc, &rows)?.as_slice(), printed, "{what}");
    }
    Ok(())
}

#[test]
fn rows_are_built_field_by_field(rt: HostRuntime) -> Result<(), Fail> {
    let mut rows = Rows::new(rt.alloc());
    rows.field(b"a")?;
    rows.field(b"")?;
    rows.close()?;
    rows.field(b"b,\"c")?;
    rows.close()?;
    rows.field(b"open")?;
    assert!(rt; rows.len() == 2);
    assert!(rt; (rows.width(0), rows.width(1)) == (2, 1));
    assert!(rt; (rows.at(0, 0), rows.at(0, 1)) == (b"a".as_slice(), b"".as_slice()));
    assert!(rt; rows.at(1, 0) == b"b,\"c".as_slice());
    assert!(rt; print_rows(rt.alloc(), &rows)?.as_slice() == b"a,\n\"b,\"\"c\"\n".as_slice());
    Ok(())
}
