use rdl_tree::fault::RdlFault;
use rdl_tree::reserved::is_reserved;
use rdl_tree::scan::scan_rdl;
use std::alloc::Global;
use std::test::Fail;

/// What a scan answers: for each token its kind, its bytes, the number of a number, and line and column; then the end's
/// place; or the refusal.
fn shown(alloc: Global, text: &[u8]) -> Result<String, Fail> {
    let tokens = match scan_rdl(alloc, text) {
        Ok(tokens) => tokens,
        Err(RdlFault::NoMemory) => return Ok(String::from_str(alloc, "NoMemory")?),
        Err(RdlFault::At { code, place }) => {
            let (line, column) = (place.line, place.column);
            return Ok(format!(in alloc; "{code:?} {line}:{column}")?);
        }
    };
    let mut out = String::new(alloc);
    for token in tokens.list.as_slice() {
        let (kind, bytes, value) = (token.kind, token.text.as_bytes(), token.value);
        let (line, column) = (token.place.line, token.place.column);
        let text = std::str::from_utf8(bytes)?;
        write!(out, "{kind:?} {text} {value} {line}:{column}, ")?;
    }
    let (line, column) = (tokens.end.line, tokens.end.column);
    write!(out, "end {line}:{column}")?;
    Ok(out)
}

#[test]
fn tokens_are_the_longest_matches_with_their_places(rt: HostRuntime) -> Result<(), Fail> {
    let cases = [
        ("", "end 1:1"),
        ("a_1 _B9", "Word a_1 0 1:1, Word _B9 0 1:5, end 1:8"),
        (
            "0 007 1_000 1__0",
            "Num 0 0 1:1, Num 007 7 1:3, Num 1_000 1000 1:7, Num 1__0 10 1:13, end 1:17",
        ),
        (
            "18446744073709551615",
            "Num 18446744073709551615 18446744073709551615 1:1, end 1:21",
        ),
        (
            "0x1F 0XfF 0xa_B",
            "Num 0x1F 31 1:1, Num 0XfF 255 1:6, Num 0xa_B 171 1:11, end 1:16",
        ),
        (
            "8'd255 8'hFf",
            "Num 8'd255 255 1:1, Num 8'hFf 255 1:8, end 1:13",
        ),
        (
            "4'b10_10 6'o77",
            "Num 4'b10_10 10 1:1, Num 6'o77 63 1:10, end 1:15",
        ),
        (
            "64'hFFFF_FFFF_FFFF_FFFF",
            "Num 64'hFFFF_FFFF_FFFF_FFFF 18446744073709551615 1:1, end 1:24",
        ),
        (
            "1_6'hffff 01'b1",
            "Num 1_6'hffff 65535 1:1, Num 01'b1 1 1:11, end 1:16",
        ),
        (
            "12ab 0xg",
            "Num 12 12 1:1, Word ab 0 1:3, Num 0 0 1:6, Word xg 0 1:7, end 1:9",
        ),
        (
            "0x 1_",
            "Num 0 0 1:1, Word x 0 1:2, Num 1 1 1:4, Word _ 0 1:5, end 1:6",
        ),
        (
            "8'b12 0x_1",
            "Num 8'b1 1 1:1, Num 2 2 1:5, Num 0 0 1:7, Word x_1 0 1:8, end 1:11",
        ),
        (
            "8'd1_ 2'o3a",
            "Num 8'd1 1 1:1, Word _ 0 1:5, Num 2'o3 3 1:7, Word a 0 1:11, end 1:12",
        ),
        ("\"a b\"\"\"", "Str \"a b\" 0 1:1, Str \"\" 0 1:6, end 1:8"),
        (
            "\"\\\"\" \"a\\\\b\"",
            "Str \"\\\"\" 0 1:1, Str \"a\\\\b\" 0 1:6, end 1:12",
        ),
        ("\"a//\n\" b", "Str \"a//\n\" 0 1:1, Word b 0 2:3, end 2:4"),
        (
            "{}[];,=:@.",
            "Mark { 0 1:1, Mark } 0 1:2, Mark [ 0 1:3, Mark ] 0 1:4, Mark ; 0 1:5, Mark , 0 1:6, Mark = 0 1:7, Mark : 0 1:8, Mark @ 0 1:9, Mark . 0 1:10, end 1:11",
        ),
        ("a->b", "Word a 0 1:1, Mark -> 0 1:2, Word b 0 1:4, end 1:5"),
        (
            "+=%===",
            "Mark += 0 1:1, Mark %= 0 1:3, Mark = 0 1:5, Mark = 0 1:6, end 1:7",
        ),
        ("a // b\n c", "Word a 0 1:1, Word c 0 2:2, end 2:3"),
        ("a//", "Word a 0 1:1, end 1:4"),
        ("//*\na", "Word a 0 2:1, end 2:2"),
        ("/**/a/***/b", "Word a 0 1:5, Word b 0 1:11, end 1:12"),
        ("/*/*/a", "Word a 0 1:6, end 1:7"),
        ("/* * / ** */b", "Word b 0 1:13, end 1:14"),
        ("/*\n\n*/ a", "Word a 0 3:4, end 3:5"),
        (
            "a\n b\r\n\tc\n",
            "Word a 0 1:1, Word b 0 2:2, Word c 0 3:2, end 4:1",
        ),
    ];
    for (text, want) in cases {
        let answer = shown(rt.alloc(), text.as_bytes())?;
        assert_eq!(rt; answer.as_str(), want);
    }
    Ok(())
}

#[test]
fn refusals_stand_where_no_token_is(rt: HostRuntime) -> Result<(), Fail> {
    let cases = [
        ("addrmap a { ~", "RdlByte 1:13"),
        ("/* a", "RdlByte 1:1"),
        ("a\n /*/", "RdlByte 2:2"),
        ("/* a */ /* b", "RdlByte 1:9"),
        ("\"a", "RdlByte 1:1"),
        ("a \"a\\\"", "RdlByte 1:3"),
        ("18446744073709551616", "RdlByte 1:1"),
        (" 0x10000000000000000", "RdlByte 1:2"),
        ("99999999999999999999999999999999999999999", "RdlByte 1:1"),
        ("8'd256", "RdlByte 1:1"),
        ("a 1'b10", "RdlByte 1:3"),
        ("3'o10", "RdlByte 1:1"),
        ("64'h10000000000000000", "RdlByte 1:1"),
        ("8'D1", "RdlByte 1:2"),
        ("8'hG", "RdlByte 1:2"),
        ("8'h_F", "RdlByte 1:2"),
        ("0'h1", "RdlByte 1:2"),
        ("65'h1", "RdlByte 1:3"),
        ("'", "RdlByte 1:1"),
        ("a - > b", "RdlByte 1:3"),
        ("a + = b", "RdlByte 1:3"),
        ("a % b", "RdlByte 1:3"),
        ("a / b", "RdlByte 1:3"),
        ("a > b", "RdlByte 1:3"),
        ("a * b", "RdlByte 1:3"),
        ("a\n(", "RdlByte 2:1"),
        ("\r\n\t#", "RdlByte 2:2"),
        ("\u{e4}", "RdlByte 1:1"),
        ("4'd16 ~", "RdlByte 1:1"),
    ];
    for (text, want) in cases {
        let answer = shown(rt.alloc(), text.as_bytes())?;
        assert_eq!(rt; answer.as_str(), want);
    }
    Ok(())
}

/// So many `;` and these bytes.
fn marks(alloc: Global, count: usize, more: &[u8]) -> Result<Vec<u8>, Fail> {
    let mut text = vec![in alloc; b';'; count]?;
    text.extend_from_slice(more)?;
    Ok(text)
}

#[test]
fn large_descriptions_are_refused(rt: HostRuntime) -> Result<(), Fail> {
    let alloc = rt.alloc();
    let most = scan_rdl(alloc, marks(alloc, 100_000, b" // ")?.as_slice())?;
    assert_eq!(rt; most.list.len(), 100_000);
    assert_eq!(rt; most.end.column, 100_005);
    assert_eq!(rt;
        shown(alloc, marks(alloc, 100_001, b"")?.as_slice())?.as_str(),
        "RdlSize 0:0"
    );
    assert_eq!(rt;
        shown(alloc, marks(alloc, 100_001, b"~")?.as_slice())?.as_str(),
        "RdlSize 0:0"
    );
    assert_eq!(rt;
        shown(alloc, marks(alloc, 100_000, b"~")?.as_slice())?.as_str(),
        "RdlByte 1:100001"
    );
    let blanks = vec![in alloc; b' '; 1_048_576]?;
    assert_eq!(rt; shown(alloc, blanks.as_slice())?.as_str(), "end 1:1048577");
    let more = vec![in alloc; b'~'; 1_048_577]?;
    assert_eq!(rt; shown(alloc, more.as_slice())?.as_str(), "RdlSize 0:0");
    Ok(())
}

#[test]
fn tokens_tell_their_texts_and_names(rt: HostRuntime) -> Result<(), Fail> {
    let tokens = scan_rdl(rt.alloc(), b"reg regs ; 1")?;
    for (token, name) in tokens
        .list
        .as_slice()
        .iter()
        .zip([false, true, false, false].iter())
    {
        let copied = token.copy(rt.alloc())?;
        assert_eq!(rt; copied.text.as_bytes(), token.text.as_bytes());
        assert_eq!(rt; copied.is_name(), *name);
        assert_eq!(rt; copied.is_text(b";"), token.place.column == 10);
    }
    for word in ["addrmap", "nonsticky", "level", "abstract", "component"] {
        assert!(rt; is_reserved(word.as_bytes()));
    }
    assert!(rt; !is_reserved(b"address"));
    Ok(())
}
