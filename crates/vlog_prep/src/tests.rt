use crate::prepare::prepare;
use std::alloc::Global;
use std::test::Fail;
use vlog_tree::fault::VlogFault;

/// What preparing these files answers: for each token its kind, its bytes, and file, line and column; then the end's
/// place; or the refusal.
fn shown(alloc: Global, files: &[&[u8]]) -> Result<String, Fail> {
    let mut owned = Vec::new(alloc);
    for file in files {
        owned.push(file.to_vec(alloc)?)?;
    }
    if owned.len() > 9 {
        return Ok(String::from_str(alloc, "too many files")?);
    }
    let tokens = match prepare(alloc, owned.as_slice()) {
        Ok(tokens) => tokens,
        Err(VlogFault::NoMemory) => return Ok(String::from_str(alloc, "NoMemory")?),
        Err(VlogFault::At { code, place, .. }) => {
            let (file, line, column) = (place.file, place.line, place.column);
            return Ok(format!(in alloc; "{code:?} {file}:{line}:{column}")?);
        }
    };
    let mut out = String::new(alloc);
    for token in tokens.list.as_slice() {
        let (kind, bytes) = (token.kind, token.text.as_bytes());
        let (file, line, column) = (token.place.file, token.place.line, token.place.column);
        let text = std::str::from_utf8(bytes)?;
        write!(out, "{kind:?} {text} {file}:{line}:{column}, ")?;
    }
    let (file, line, column) = (tokens.end.file, tokens.end.line, tokens.end.column);
    write!(out, "end {file}:{line}:{column}")?;
    Ok(out)
}

#[test]
fn tokens_are_the_longest_matches_with_their_places(rt: HostRuntime) -> Result<(), Fail> {
    let cases = [
        ("", "end 0:1:1"),
        (
            "module m$1 _x casex\n",
            "Word module 0:1:1, Name m$1 0:1:8, Name _x 0:1:12, Name casex 0:1:15, end 0:2:1",
        ),
        (
            "$clog2 $module",
            "System $clog2 0:1:1, System $module 0:1:8, end 0:1:15",
        ),
        (
            "007 1__2 1_",
            "Number 007 0:1:1, Number 1__2 0:1:5, Number 1 0:1:10, Name _ 0:1:11, end 0:1:12",
        ),
        (
            "8'hFf 'b1xZ0 4'SdX 12'o7_7 'dx 3'B?z",
            "Number 8'hFf 0:1:1, Number 'b1xZ0 0:1:7, Number 4'SdX 0:1:14, Number 12'o7_7 0:1:20, Number 'dx 0:1:28, Number 3'B?z 0:1:32, end 0:1:37",
        ),
        (
            "0'h1 01'h1 1_0'sd9_",
            "Number 0 0:1:1, Number 'h1 0:1:2, Number 01'h1 0:1:6, Number 1_0'sd9 0:1:12, Name _ 0:1:19, end 0:1:20",
        ),
        (
            "4'dx1 4'd1x 12ab 8'b12",
            "Number 4'dx 0:1:1, Number 1 0:1:5, Number 4'd1 0:1:7, Name x 0:1:11, Number 12 0:1:13, Name ab 0:1:15, Number 8'b1 0:1:18, Number 2 0:1:22, end 0:1:23",
        ),
        (
            "<<<= >>>> ===== !==! **** ~^~ +:+ && &|||",
            "Mark <<< 0:1:1, Mark = 0:1:4, Mark >>> 0:1:6, Mark > 0:1:9, Mark === 0:1:11, Mark == 0:1:14, Mark !== 0:1:17, Mark ! 0:1:20, Mark ** 0:1:22, Mark ** 0:1:24, Mark ~^ 0:1:27, Mark ~ 0:1:29, Mark +: 0:1:31, Mark + 0:1:33, Mark && 0:1:35, Mark & 0:1:38, Mark || 0:1:39, Mark | 0:1:41, end 0:1:42",
        ),
        (
            "#(),;=[]:@*.{}?+ - / % ^~ ~& ~| <= >= !=",
            "Mark # 0:1:1, Mark ( 0:1:2, Mark ) 0:1:3, Mark , 0:1:4, Mark ; 0:1:5, Mark = 0:1:6, Mark [ 0:1:7, Mark ] 0:1:8, Mark : 0:1:9, Mark @ 0:1:10, Mark * 0:1:11, Mark . 0:1:12, Mark { 0:1:13, Mark } 0:1:14, Mark ? 0:1:15, Mark + 0:1:16, Mark - 0:1:18, Mark / 0:1:20, Mark % 0:1:22, Mark ^~ 0:1:24, Mark ~& 0:1:27, Mark ~| 0:1:30, Mark <= 0:1:33, Mark >= 0:1:36, Mark != 0:1:39, end 0:1:41",
        ),
        (
            "a//*\nb/*//*/c/**/d/***/e /*\n*/ f",
            "Name a 0:1:1, Name b 0:2:1, Name c 0:2:8, Name d 0:2:13, Name e 0:2:19, Name f 0:3:4, end 0:3:5",
        ),
        (
            "(* a, b = 1 *) c (**) d (***) e (*/*)*/ f",
            "Name c 0:1:16, Name d 0:1:23, Name e 0:1:31, Mark * 0:1:38, Mark / 0:1:39, Name f 0:1:41, end 0:1:42",
        ),
        (
            "@(*) ( * ) (*\t\n) x *)",
            "Mark @ 0:1:1, Mark ( 0:1:2, Mark * 0:1:3, Mark ) 0:1:4, Mark ( 0:1:6, Mark * 0:1:8, Mark ) 0:1:10, Mark ( 0:1:12, Mark * 0:1:13, Mark ) 0:2:1, Name x 0:2:3, Mark * 0:2:5, Mark ) 0:2:6, end 0:2:7",
        ),
        ("(* /* x */ ) *) y", "Name y 0:1:17, end 0:1:18"),
        ("a\r\n\tb", "Name a 0:1:1, Name b 0:2:2, end 0:2:3"),
    ];
    for (text, want) in cases {
        let answer = shown(rt.alloc(), [text.as_bytes()].as_slice())?;
        assert_eq!(rt; answer.as_str(), want);
    }
    Ok(())
}

#[test]
fn refusals_stand_where_no_token_is(rt: HostRuntime) -> Result<(), Fail> {
    let cases = [
        ("/*", "VlogByte 0:1:1"),
        ("a\n /* b", "VlogByte 0:2:2"),
        ("a (* b", "VlogByte 0:1:3"),
        ("(*)(* ", "VlogByte 0:1:4"),
        ("(*)*)(**", "VlogByte 0:1:6"),
        ("\"a\"", "VlogByte 0:1:1"),
        ("a\\b ", "VlogByte 0:1:2"),
        ("4'dz", "VlogByte 0:1:2"),
        ("8'h_F", "VlogByte 0:1:2"),
        ("8'", "VlogByte 0:1:2"),
        ("8 'h", "VlogByte 0:1:3"),
        ("$", "VlogByte 0:1:1"),
        ("$1", "VlogByte 0:1:1"),
        ("$$a", "VlogByte 0:1:1"),
        ("` define A", "VlogByte 0:1:1"),
        ("`1", "VlogByte 0:1:1"),
        ("a \u{e4}", "VlogByte 0:1:3"),
        ("`define A 1 \\\n 2\n\\\n", "VlogByte 0:3:1"),
        ("`define A 1 \\\r\n 2", "VlogByte 0:1:13"),
        ("`define A 1 \\ \n 2", "VlogByte 0:1:13"),
        ("`undef A \\\n", "VlogByte 0:1:10"),
        ("`timescale `define A \\\n", "VlogByte 0:1:22"),
        ("`define A /*\n*/ \\\n", "VlogByte 0:2:4"),
        ("`define A // \\\n \\\n", "VlogByte 0:2:2"),
        ("`ifdef A\n \"\n`endif", "VlogByte 0:2:2"),
        ("`define A \"", "VlogByte 0:1:11"),
        ("`timescale 1ns / 1ps \"", "VlogByte 0:1:22"),
        ("`B \"", "VlogByte 0:1:4"),
    ];
    for (text, want) in cases {
        let answer = shown(rt.alloc(), [text.as_bytes()].as_slice())?;
        assert_eq!(rt; answer.as_str(), want);
    }
    Ok(())
}

#[test]
fn macros_are_replaced_at_the_place_of_the_use(rt: HostRuntime) -> Result<(), Fail> {
    let cases = [
        ("`define A 8'h04\n`A", "Number 8'h04 0:2:1, end 0:2:3"),
        ("`define A\n`A b", "Name b 0:2:4, end 0:2:5"),
        (
            "`define A 1 \\\n + 2\n`A;",
            "Number 1 0:3:1, Mark + 0:3:1, Number 2 0:3:1, Mark ; 0:3:3, end 0:3:4",
        ),
        ("`define A /* a */ 1 // b\n`A", "Number 1 0:2:1, end 0:2:3"),
        (
            "`define A 1 /*\n*/ 2\n`A",
            "Number 2 0:2:4, Number 1 0:3:1, end 0:3:3",
        ),
        ("`define A (* \n *) 2\n`A", "Number 2 0:2:5, end 0:3:3"),
        (
            "`define A `B x\n`define B y\n  `A `A",
            "Name y 0:3:3, Name x 0:3:3, Name y 0:3:6, Name x 0:3:6, end 0:3:8",
        ),
        (
            "`define A 1\n`define A 2\n`A `undef A\n`define A 3\n`A",
            "Number 2 0:3:1, Number 3 0:5:1, end 0:5:3",
        ),
        (
            "`define D `define E 7\n`D 8\n`E",
            "Number 8 0:2:4, Number 7 0:3:1, end 0:3:3",
        ),
        ("`define A (x)\n`define B( x\n", "VlogDirective 0:2:1"),
        ("`define A(*x*) 1\n", "VlogDirective 0:1:1"),
        (
            "`define A/**/(1)\n`A",
            "Mark ( 0:2:1, Number 1 0:2:1, Mark ) 0:2:1, end 0:2:3",
        ),
        ("a `B", "VlogDirective 0:1:3"),
        ("`include x", "VlogDirective 0:1:1"),
        ("`define A `B\n x `A", "VlogDirective 0:2:4"),
        ("`define A 1\n`undef A `A", "VlogDirective 0:2:10"),
        ("`define A x `A\n\n `A", "VlogDirective 0:3:2"),
        ("`define\nA 1", "VlogDirective 0:1:1"),
        ("`define module 1", "VlogDirective 0:1:1"),
        ("`define 1", "VlogDirective 0:1:1"),
        ("`undef", "VlogDirective 0:1:1"),
        ("`undef `A", "VlogDirective 0:1:1"),
        ("`undef\n\nA", "end 0:3:2"),
    ];
    for (text, want) in cases {
        let answer = shown(rt.alloc(), [text.as_bytes()].as_slice())?;
        assert_eq!(rt; answer.as_str(), want);
    }
    Ok(())
}

#[test]
fn conditions_leave_parts_out(rt: HostRuntime) -> Result<(), Fail> {
    let cases = [
        (
            "`ifdef A x `else y `endif z",
            "Name y 0:1:18, Name z 0:1:27, end 0:1:28",
        ),
        ("`ifndef A x `else y `endif", "Name x 0:1:11, end 0:1:27"),
        (
            "`define A\n`ifdef A x `elsif A y `else z `endif",
            "Name x 0:2:10, end 0:2:37",
        ),
        (
            "`define B\n`ifdef A x `elsif B y `elsif B w `else z `endif",
            "Name y 0:2:21, end 0:2:48",
        ),
        (
            "`ifdef A x `elsif B y `else z `endif",
            "Name z 0:1:29, end 0:1:37",
        ),
        (
            "`ifdef A `ifdef B x `else y `elsif `endif `B `define `undef `else z `endif",
            "VlogDirective 0:1:29",
        ),
        (
            "`ifdef A `ifdef x `elsif `else y `endif `B `define\n `undef `else z `endif",
            "Name z 0:2:15, end 0:2:23",
        ),
        (
            "`ifdef A `define `endif\n `timescale `endif\n `endif w",
            "Name w 0:3:9, end 0:3:10",
        ),
        ("`ifdef\nA x `endif y", "Name y 0:2:12, end 0:2:13"),
        (
            "`define I `ifdef A x `else\n`I y `endif",
            "Name y 0:2:4, end 0:2:12",
        ),
        ("`ifdef A x", "VlogDirective 0:1:1"),
        ("`ifdef A `ifndef B", "VlogDirective 0:1:10"),
        ("`define I `ifdef A\n x `I y", "VlogDirective 0:2:4"),
        ("`endif", "VlogDirective 0:1:1"),
        ("a `else", "VlogDirective 0:1:3"),
        ("`elsif A", "VlogDirective 0:1:1"),
        ("`ifdef A `else `else `endif", "VlogDirective 0:1:16"),
        ("`ifdef A `else `elsif B `endif", "VlogDirective 0:1:16"),
        ("`ifdef A `endif `endif", "VlogDirective 0:1:17"),
        ("`ifdef `endif", "VlogDirective 0:1:1"),
        ("`ifndef 1 `endif", "VlogDirective 0:1:1"),
        ("`ifdef A `elsif `endif", "VlogDirective 0:1:10"),
        (
            "`timescale 1ns / 1ps x\n`default_nettype none\n`celldefine a `endcelldefine b",
            "Name a 0:3:13, Name b 0:3:30, end 0:3:31",
        ),
    ];
    for (text, want) in cases {
        let answer = shown(rt.alloc(), [text.as_bytes()].as_slice())?;
        assert_eq!(rt; answer.as_str(), want);
    }
    Ok(())
}

#[test]
fn files_are_read_in_order(rt: HostRuntime) -> Result<(), Fail> {
    let alloc = rt.alloc();
    assert_eq!(rt; shown(alloc, [].as_slice())?.as_str(), "end 0:1:1");
    let two = ["`define A 1".as_bytes(), "2 `A\n".as_bytes()];
    assert_eq!(rt;
        shown(alloc, two.as_slice())?.as_str(),
        "Number 2 1:1:1, Number 1 1:1:3, end 1:2:1"
    );
    let open = ["`ifdef A".as_bytes(), "x".as_bytes(), "`endif y".as_bytes()];
    assert_eq!(rt;
        shown(alloc, open.as_slice())?.as_str(),
        "Name y 2:1:8, end 2:1:9"
    );
    let comment = ["a /*".as_bytes(), "*/".as_bytes()];
    assert_eq!(rt;
        shown(alloc, comment.as_slice())?.as_str(),
        "VlogByte 0:1:3"
    );
    let later = ["`B".as_bytes(), "\"".as_bytes()];
    assert_eq!(rt; shown(alloc, later.as_slice())?.as_str(), "VlogByte 1:1:1");
    Ok(())
}

/// So many of these bytes, and more.
fn repeated(alloc: Global, front: &[u8], count: usize, more: &[u8]) -> Result<Vec<u8>, Fail> {
    let mut text = Vec::new(alloc);
    for _ in 0..count {
        text.extend_from_slice(front)?;
    }
    text.extend_from_slice(more)?;
    Ok(text)
}

/// How many tokens two files have, or the refusal.
fn answer_of_two(alloc: Global, first: &[u8], second: &[u8]) -> Result<String, Fail> {
    let mut owned = Vec::new(alloc);
    owned.push(first.to_vec(alloc)?)?;
    owned.push(second.to_vec(alloc)?)?;
    match prepare(alloc, owned.as_slice()) {
        Ok(tokens) => {
            let count = tokens.list.len();
            Ok(format!(in alloc; "{count} tokens")?)
        }
        Err(VlogFault::NoMemory) => Ok(String::from_str(alloc, "NoMemory")?),
        Err(VlogFault::At { code, place, .. }) => {
            let (file, line, column) = (place.file, place.line, place.column);
            Ok(format!(in alloc; "{code:?} {file}:{line}:{column}")?)
        }
    }
}

/// How many tokens a file has, or the refusal.
fn answer(alloc: Global, text: &[u8]) -> Result<String, Fail> {
    answer_of_two(alloc, text, b"")
}

#[test]
fn large_texts_are_refused(rt: HostRuntime) -> Result<(), Fail> {
    let alloc = rt.alloc();
    let macro_line = repeated(
        alloc,
        b"`define A ",
        1,
        repeated(alloc, b";", 49, b"\n")?.as_slice(),
    )?;
    let uses = repeated(
        alloc,
        macro_line.as_slice(),
        1,
        repeated(alloc, b"`A ", 4_000, b"")?.as_slice(),
    )?;
    let cases = [
        (repeated(alloc, b";", 200_000, b" // ")?, "200000 tokens"),
        (repeated(alloc, b";", 200_001, b"")?, "VlogSize 0:0:0"),
        (repeated(alloc, uses.as_slice(), 1, b"")?, "196000 tokens"),
        (
            repeated(alloc, uses.as_slice(), 1, b"`undef A\n`define B")?,
            "196000 tokens",
        ),
        (repeated(alloc, uses.as_slice(), 1, b";")?, "VlogSize 0:0:0"),
        (
            repeated(alloc, uses.as_slice(), 1, b"`A")?,
            "VlogSize 0:0:0",
        ),
        (
            repeated(alloc, uses.as_slice(), 1, b"`B")?,
            "VlogDirective 0:2:12001",
        ),
        (
            repeated(alloc, uses.as_slice(), 1, b"; `B")?,
            "VlogSize 0:0:0",
        ),
        (
            repeated(alloc, uses.as_slice(), 1, b"; \"")?,
            "VlogByte 0:2:12003",
        ),
        (repeated(alloc, b"/", 1_048_576, b"")?, "0 tokens"),
        (repeated(alloc, b"\"", 1_048_577, b"")?, "VlogSize 0:0:0"),
        (
            repeated(alloc, b"`define A `A `A\n", 1, b"`A")?,
            "VlogDirective 0:2:1",
        ),
    ];
    for (text, want) in cases {
        assert_eq!(rt; answer(alloc, text.as_slice())?.as_str(), want);
    }
    Ok(())
}

#[test]
fn macros_nest_64_levels_deep(rt: HostRuntime) -> Result<(), Fail> {
    let alloc = rt.alloc();
    let mut text = Vec::new(alloc);
    text.extend_from_slice(b"`define M0 x\n")?;
    for before in 0u32..64 {
        let level = before + 1;
        let line = format!(in alloc; "`define M{level} `M{before}\n")?;
        text.extend_from_slice(line.as_bytes())?;
    }
    let mut deep = text.to_vec(alloc)?;
    text.extend_from_slice(b"`M63")?;
    assert_eq!(rt; answer(alloc, text.as_slice())?.as_str(), "1 tokens");
    deep.extend_from_slice(b" `M64")?;
    assert_eq!(rt;
        answer(alloc, deep.as_slice())?.as_str(),
        "VlogDirective 0:66:2"
    );
    Ok(())
}

#[test]
fn uses_of_macros_go_over_few_pieces(rt: HostRuntime) -> Result<(), Fail> {
    let alloc = rt.alloc();
    let skipped = repeated(alloc, b";", 997, b" `endif\n`define E\n")?;
    let thousand = repeated(alloc, b"`define A `ifdef N ", 1, skipped.as_slice())?;
    let skipped = repeated(alloc, b";", 1_048_500, b" `endif\n")?;
    let million = repeated(alloc, b"`define A `ifdef N ", 1, skipped.as_slice())?;
    let cases = [
        (thousand.as_slice(), 4_000, "`E ;", "1 tokens"),
        (thousand.as_slice(), 4_001, "", "VlogSize 0:0:0"),
        (thousand.as_slice(), 4_000, "`B", "VlogDirective 1:1:12001"),
        (million.as_slice(), 200_000, "", "VlogSize 0:0:0"),
    ];
    for (macros, uses, more, want) in cases {
        let text = repeated(alloc, b"`A ", uses, more.as_bytes())?;
        assert_eq!(rt;
            answer_of_two(alloc, macros, text.as_slice())?.as_str(),
            want
        );
    }
    Ok(())
}

#[test]
fn conditions_are_open_in_1_024_others_at_most(rt: HostRuntime) -> Result<(), Fail> {
    let alloc = rt.alloc();
    let cases = [
        ("`ifdef A ", 1_024, "`else x ", "`endif ", 1_024, "0 tokens"),
        ("`ifndef A ", 1_024, "x ", "`endif ", 1_024, "1 tokens"),
        ("`ifdef A `endif ", 3_000, "", "", 0, "0 tokens"),
        ("`ifdef A ", 1_024, "", "", 0, "VlogDirective 0:1:9208"),
        ("`ifdef A ", 1_025, "", "`endif ", 1_025, "VlogSize 0:0:0"),
        ("`ifndef A ", 1_025, "", "`endif ", 1_025, "VlogSize 0:0:0"),
        (
            "`ifdef A ",
            1_024,
            "`ifdef ",
            "`endif ",
            1_025,
            "VlogSize 0:0:0",
        ),
        (
            "`ifndef A ",
            1_024,
            "`ifdef ",
            "`endif ",
            1_025,
            "VlogDirective 0:1:10241",
        ),
    ];
    for (opening, open, between, closing, closed, want) in cases {
        let text = repeated(alloc, closing.as_bytes(), closed, b"")?;
        let text = repeated(alloc, between.as_bytes(), 1, text.as_slice())?;
        let text = repeated(alloc, opening.as_bytes(), open, text.as_slice())?;
        assert_eq!(rt; answer(alloc, text.as_slice())?.as_str(), want);
    }
    Ok(())
}
