//! Descriptions from their text to their tree.

use rdl_parse::parse_rdl;
use rdl_tree::fault::RdlFault;
use rdl_tree::scan::scan_rdl;
use rdl_tree::tree::{RdlInsts, RdlItem};
use std::alloc::{AllocError, Global};
use std::test::Fail;

fn count(insts: &Option<RdlInsts>) -> usize {
    match insts {
        None => 0,
        Some(insts) => insts.more.len().saturating_add(1),
    }
}

/// Each item by a letter: a definition with its items and the number of its instances, a use, a default, a property, an
/// assignment to a path, an enumeration with the number of its entries.
fn outline(alloc: Global, items: &[RdlItem]) -> Result<String, AllocError> {
    let mut out = String::new(alloc);
    for item in items {
        match item {
            RdlItem::Def(definition) => {
                let inner = outline(alloc, definition.items.as_slice())?;
                let insts = count(&definition.insts);
                out.push_str(format!(in alloc; "D({inner}){insts}")?.as_str())?;
            }
            RdlItem::Use(_) => out.push_str("U")?,
            RdlItem::Default(..) => out.push_str("L")?,
            RdlItem::Prop(..) => out.push_str("P")?,
            RdlItem::Dynamic(..) => out.push_str("Y")?,
            RdlItem::Enum(enumeration) => {
                let entries = enumeration.entries.len();
                out.push_str(format!(in alloc; "E{entries}")?.as_str())?;
            }
        }
    }
    Ok(out)
}

/// The outline of the tree, or the refusal, of a text.
fn answer(alloc: Global, text: &str) -> Result<String, Fail> {
    let tokens = scan_rdl(alloc, text.as_bytes())?;
    match parse_rdl(alloc, &tokens) {
        Ok(file) => Ok(outline(alloc, file.items.as_slice())?),
        Err(RdlFault::NoMemory) => Ok(String::from_str(alloc, "NoMemory")?),
        Err(RdlFault::At { code, place }) => {
            let (line, column) = (place.line, place.column);
            Ok(format!(in alloc; "{code:?} {line}:{column}")?)
        }
    }
}

#[test]
fn texts_have_their_one_tree_or_the_first_refusal(rt: HostRuntime) -> Result<(), Fail> {
    let cases = [
        ("", ""),
        (
            "addrmap a { reg { regwidth=8; field { sw=rw; hw=r; } v[8]=0; } c; };",
            "D(D(PD(PP)1)1)0",
        ),
        ("addrmap a { reg {", "RdlSyntax 1:18"),
        ("addrmap { };", "RdlSyntax 1:12"),
        ("regfile f {} x, y[4], z @ 0x10;", "D()3"),
        ("field {} f[7:4]=2 @0 +=4 %=8;", "D()1"),
        ("reg r {};", "D()0"),
        ("reg r {} x;", "D()1"),
        ("r x; r y, z;", "UU"),
        ("default sw = rw;", "L"),
        ("default sw;", "L"),
        (
            "a = 1; b = \"s\"; c = true; d = false; e = x.y[2].z; f = x[1]->anded;",
            "PPPPPP",
        ),
        ("a.b[3].c -> we = x;", "Y"),
        ("a -> we;", "Y"),
        ("a[0] -> we; a.b->we;", "YY"),
        ("enum e { };", "E0"),
        (
            "enum e { a; b = 3; c { name = \"n\"; desc; }; d = 1 {}; };",
            "E4",
        ),
        (
            "addrmap a { regfile { reg { field {} f; } r; } s; } t;",
            "D(D(D(D()1)1)1)1",
        ),
        ("reg", "RdlSyntax 1:4"),
        ("reg r", "RdlSyntax 1:6"),
        ("reg r {}", "RdlSyntax 1:9"),
        ("reg r {} x", "RdlSyntax 1:11"),
        ("reg r {} x,", "RdlSyntax 1:12"),
        ("reg r {} x, ;", "RdlSyntax 1:13"),
        ("reg r {} x[;", "RdlSyntax 1:12"),
        ("reg r {} x[1;", "RdlSyntax 1:13"),
        ("reg r {} x[1:];", "RdlSyntax 1:14"),
        ("reg r {} x = y;", "RdlSyntax 1:14"),
        ("reg r {} x @ 1 = 2;", "RdlSyntax 1:16"),
        ("reg r {} x += 1 @ 2;", "RdlSyntax 1:17"),
        ("reg r {} x %= 1 += 2;", "RdlSyntax 1:17"),
        ("reg reg {};", "RdlSyntax 1:5"),
        ("};", "RdlSyntax 1:1"),
        ("reg r { };\n};", "RdlSyntax 2:1"),
        ("signal s;", "RdlSyntax 1:1"),
        ("a mem;", "RdlSyntax 1:3"),
        ("a = ;", "RdlSyntax 1:5"),
        ("a = b->;", "RdlSyntax 1:8"),
        ("a = b.;", "RdlSyntax 1:7"),
        ("a = b[c];", "RdlSyntax 1:7"),
        ("a.b = 1;", "RdlSyntax 1:5"),
        ("a[1] = 1;", "RdlSyntax 1:6"),
        ("a -> 1;", "RdlSyntax 1:6"),
        ("default a -> b;", "RdlSyntax 1:11"),
        ("default reg;", "RdlSyntax 1:9"),
        ("enum { };", "RdlSyntax 1:6"),
        ("enum e { a }; };", "RdlSyntax 1:12"),
        ("enum e { a = b; };", "RdlSyntax 1:14"),
        ("enum e { a { x -> y; }; };", "RdlSyntax 1:16"),
        ("enum e { } x;", "RdlSyntax 1:12"),
        ("1;", "RdlSyntax 1:1"),
        ("\"s\";", "RdlSyntax 1:1"),
        ("a 1;", "RdlSyntax 1:3"),
        ("a b", "RdlSyntax 1:4"),
        ("a = 1 2;", "RdlSyntax 1:7"),
    ];
    for (text, want) in cases {
        let answer = answer(rt.alloc(), text)?;
        assert_eq!(rt; answer.as_str(), want, "of {text}");
    }
    Ok(())
}

/// So many times the one text, then the other.
fn repeated(alloc: Global, times: usize, text: &str, end: &str) -> Result<String, Fail> {
    let mut out = String::new(alloc);
    for _turn in 0..times {
        out.push_str(text)?;
    }
    out.push_str(end)?;
    Ok(out)
}

#[test]
fn brackets_nest_to_sixty_four(rt: HostRuntime) -> Result<(), Fail> {
    let alloc = rt.alloc();
    let cases = [
        (65, "{", "", "RdlDeep 1:65"),
        (64, "{", "", "RdlSyntax 1:1"),
        (64, "reg a{", "", "RdlSyntax 1:385"),
        (65, "reg a{", "", "RdlDeep 1:390"),
        (64, "reg a{", "b[", "RdlDeep 1:386"),
        (64, "{", "}[", "RdlSyntax 1:1"),
        (64, "[", "}{[", "RdlDeep 1:67"),
        (70, "}", "{", "RdlSyntax 1:1"),
        (70, "{}", "", "RdlSyntax 1:1"),
        (66, "[ ", "", "RdlDeep 1:129"),
    ];
    for (times, text, end, want) in cases {
        let text = repeated(alloc, times, text, end)?;
        let answer = answer(alloc, text.as_str())?;
        assert_eq!(rt; answer.as_str(), want);
    }
    Ok(())
}

#[test]
fn a_text_that_is_cut_short_is_refused_at_its_end(rt: HostRuntime) -> Result<(), Fail> {
    let text = "addrmap a { reg { regwidth=8; field { sw=rw; hw=r; } v[8]=0; } c; };";
    assert_eq!(rt; text.len(), 68);
    for length in 1..68 {
        let front = std::str::from_utf8(&text.as_bytes()[..length])?;
        let answer = answer(rt.alloc(), front)?;
        let column = length + 1;
        let want = format!(in rt.alloc(); "RdlSyntax 1:{column}")?;
        assert_eq!(rt; answer.as_str(), want.as_str());
    }
    Ok(())
}
