//! Texts from their bytes to their tree, and to the module at their top.

use crate::outline::{show_fault, show_file};
use std::alloc::Global;
use std::test::Fail;
use vlog_parse::{parse_vlog, top_of};
use vlog_prep::prepare::prepare;
use vlog_tree::token::VTokens;

fn tokens_of(alloc: Global, text: &str) -> Result<VTokens, Fail> {
    let mut files = Vec::new(alloc);
    files.push(text.as_bytes().to_vec(alloc)?)?;
    if files.len() > 1 {
        return Ok(prepare(alloc, &[])?);
    }
    Ok(prepare(alloc, files.as_slice())?)
}

/// The tree, or the refusal, of a text.
fn answer(alloc: Global, text: &str) -> Result<String, Fail> {
    let tokens = tokens_of(alloc, text)?;
    match parse_vlog(alloc, &tokens) {
        Ok(file) => show_file(alloc, &file),
        Err(fault) => show_fault(alloc, &fault),
    }
}

#[test]
fn modules_have_their_one_tree(rt: HostRuntime) -> Result<(), Fail> {
    let cases = [
        ("", ""),
        ("module m; endmodule", "m[]"),
        ("module m(); endmodule module n; endmodule", "m[]n[]"),
        (
            "module m(a, b); input a; output [7:0] b; endmodule",
            "m[P0 .P0 .]",
        ),
        (
            "module m(input a, b, output reg signed [3:0] c); endmodule",
            "m[]",
        ),
        (
            "module m #(parameter P = 1, [3:0] Q = 2) (a); input wire a; endmodule",
            "m[P0 .]",
        ),
        (
            "module m; wire a = b - c - d; endmodule",
            "m[N0 ((b-c)-d).]",
        ),
        (
            "module m; wire [7:0] a, b = 1, c; reg signed r; endmodule",
            "m[N2 .N0 .]",
        ),
        (
            "module m; parameter A = 1, B = 2; localparam signed [3:0] C = A; endmodule",
            "m[C1 1.C0 A.]",
        ),
        ("module m; genvar i, j; endmodule", "m[G1 .]"),
        (
            "module m; assign a[3:0] = x, {b, c[i]} = y; endmodule",
            "m[A1 a[3:0]=x.]",
        ),
        (
            "module m; assign {a, b[1 +: 2], {c}} = x; endmodule",
            "m[A0 {a,b[1+:2],{c}}=x.]",
        ),
        (
            "module m; generate wire a; endgenerate endmodule",
            "m[[N0 .].]",
        ),
        (
            "module m; for (i = 0; i < 4; i = i + 1) begin : g wire a; end endmodule",
            "m[F (i<4)[N0 .].]",
        ),
        (
            "module m; if (A) wire a; else begin wire b; end endmodule",
            "m[?A{N0 }[N0 .].]",
        ),
        (
            "module m; if (A) if (B) wire a; else wire b; endmodule",
            "m[?A{?B{N0 }{N0 }}.]",
        ),
        (
            "module m; if (A) begin : g if (B) wire a; end else wire b; endmodule",
            "m[?A[?B{N0 }.]{N0 }.]",
        ),
        (
            "module m; n u(); n #(1, 2) v(a, b[1], 3); n #(.P(1)) w(.x(a), .y()); endmodule",
            "m[n(0).n#(3).n#(.2).]",
        ),
    ];
    for (text, want) in cases {
        let answer = answer(rt.alloc(), text)?;
        assert_eq!(rt; answer.as_str(), want, "of {text}");
    }
    Ok(())
}

#[test]
fn processes_have_their_one_tree(rt: HostRuntime) -> Result<(), Fail> {
    let cases = [
        ("always @* a = b;", "@0 a=b;"),
        (
            "always @(*) begin : n a = b; c <= d; ; end",
            "@0 n[a=b;c<=d;;]",
        ),
        ("always @(posedge c or negedge r, x) q <= d;", "@3 q<=d;"),
        ("initial begin end", "I []"),
        ("initial {a, b[2]} = c <= d;", "I {a,b[2]}=(c<=d);"),
        ("initial a <= b <= c;", "I a<=(b<=c);"),
        (
            "initial if (a) if (b) x = 1; else y = 2;",
            "I ?a{?b{x=1;}{y=2;}}",
        ),
        (
            "initial if (a) begin if (b) x = 1; end else y = 2;",
            "I ?a{[?b{x=1;}]}{y=2;}",
        ),
        (
            "initial if (a) x = 1; else if (b) y = 2; else z = 3;",
            "I ?a{x=1;}{?b{y=2;}{z=3;}}",
        ),
        (
            "initial case (s) 0, 1: a = 1; default b = 2; 2: ; endcase",
            "I case s[0,1:a=1;default:b=2;2:;]",
        ),
        (
            "initial casez (s) 4'b1??? : a = 1; default: ; endcase",
            "I casez s[4'b1???:a=1;default:;]",
        ),
        ("initial case (s) endcase", "I case s[]"),
        (
            "initial if (a) case (b) c: if (d) ; endcase else ;",
            "I ?a{case b[c:?d{;}]}{;}",
        ),
    ];
    for (item, want) in cases {
        let text = format!(in rt.alloc(); "module m; {item} endmodule")?;
        let want = format!(in rt.alloc(); "m[{want}.]")?;
        let answer = answer(rt.alloc(), text.as_str())?;
        assert_eq!(rt; answer.as_str(), want.as_str(), "of {item}");
    }
    Ok(())
}

#[test]
fn operators_bind_by_their_levels(rt: HostRuntime) -> Result<(), Fail> {
    let cases = [
        ("a + b * c", "(a+(b*c))"),
        ("a * b + c", "((a*b)+c)"),
        ("a ** b ** c", "((a**b)**c)"),
        ("-a ** b", "((-a)**b)"),
        ("a % b / c", "((a%b)/c)"),
        ("- -a - -b", "((-(-a))-(-b))"),
        ("a ? b : c ? d : e", "(a?b:(c?d:e))"),
        ("a ? b ? c : d : e", "(a?(b?c:d):e)"),
        ("a || b ? c : d", "((a||b)?c:d)"),
        ("a && b || c && d", "((a&&b)||(c&&d))"),
        ("a | b ^ c & d", "(a|(b^(c&d)))"),
        ("a == b < c << d + e", "(a==(b<(c<<(d+e))))"),
        ("a <= b", "(a<=b)"),
        ("a > b >= c", "((a>b)>=c)"),
        ("a !== b === c != d", "(((a!==b)===c)!=d)"),
        ("a ^~ b ~^ c ^ d", "(((a^~b)~^c)^d)"),
        ("~&a & ~|b ~^ ^c", "(((~&a)&(~|b))~^(^c))"),
        ("!a == ~b", "((!a)==(~b))"),
        ("$signed(a) >>> 2 >> 1", "(($signeda>>>2)>>1)"),
        (
            "$clog2(a + 1) <<< $unsigned(b)",
            "($clog2(a+1)<<<$unsignedb)",
        ),
        ("(a - (b - c))", "<(a-<(b-c)>)>"),
        ("{a, b, {2{c, d}}}", "{a,b,{2{c,d}}}"),
        ("{{2{a}}}", "{{2{a}}}"),
        ("a[3] + a[7:4] + a[i +: 2]", "((a[3]+a[7:4])+a[i+:2])"),
    ];
    for (expr, want) in cases {
        let text = format!(in rt.alloc(); "module m; assign y = {expr}; endmodule")?;
        let want = format!(in rt.alloc(); "m[A0 y={want}.]")?;
        let answer = answer(rt.alloc(), text.as_str())?;
        assert_eq!(rt; answer.as_str(), want.as_str(), "of {expr}");
    }
    Ok(())
}

#[test]
fn what_has_no_tree_is_refused_where_it_shows(rt: HostRuntime) -> Result<(), Fail> {
    let cases = [
        ("module", "VlogSyntax 1:7"),
        ("module m", "VlogSyntax 1:9"),
        ("module m;", "VlogSyntax 1:10"),
        ("endmodule", "VlogSyntax 1:1"),
        ("1", "VlogSyntax 1:1"),
        ("module m; endmodule ;", "VlogSyntax 1:21"),
        ("module m, n;", "VlogSyntax 1:9"),
        ("module reg; endmodule", "VlogSyntax 1:8"),
        ("module m #(); endmodule", "VlogSyntax 1:12"),
        ("module m(a,); endmodule", "VlogSyntax 1:12"),
        ("module m(a, input b); endmodule", "VlogSyntax 1:13"),
        ("module m(input a, output); endmodule", "VlogSyntax 1:25"),
        ("module m; 1", "VlogSyntax 1:11"),
        ("module m; or (a, b, c); endmodule", "VlogSyntax 1:11"),
        ("module m; wire; endmodule", "VlogSyntax 1:15"),
        ("module m; wire a b; endmodule", "VlogSyntax 1:18"),
        ("module m; wire a = ; endmodule", "VlogSyntax 1:20"),
        ("module m; wire a = 1 2; endmodule", "VlogSyntax 1:22"),
        ("module m; input reg; endmodule", "VlogSyntax 1:20"),
        ("module m; parameter A; endmodule", "VlogSyntax 1:22"),
        ("module m; genvar 1; endmodule", "VlogSyntax 1:18"),
        ("module m; assign 1 = a; endmodule", "VlogSyntax 1:18"),
        ("module m; assign a <= b; endmodule", "VlogSyntax 1:20"),
        ("module m; always a = b; endmodule", "VlogSyntax 1:18"),
        (
            "module m; always @(posedge) a = b; endmodule",
            "VlogSyntax 1:27",
        ),
        ("module m; initial a + b; endmodule", "VlogSyntax 1:21"),
        (
            "module m; initial begin a = b; endmodule",
            "VlogSyntax 1:32",
        ),
        ("module m; initial else ; endmodule", "VlogSyntax 1:19"),
        (
            "module m; initial if (a) b = c; else d = e; else f = g; endmodule",
            "VlogSyntax 1:45",
        ),
        (
            "module m; initial case (a) default: ; default: ; endcase endmodule",
            "VlogSyntax 1:39",
        ),
        (
            "module m; initial case (a) b endcase endmodule",
            "VlogSyntax 1:30",
        ),
        ("module m; initial {1} = d; endmodule", "VlogSyntax 1:20"),
        (
            "module m; for (i = 0; i < 1; i = i + 1) begin wire a; end endmodule",
            "VlogSyntax 1:47",
        ),
        (
            "module m; for (i = 0; i < 1; i = i + 1) wire a; endmodule",
            "VlogSyntax 1:41",
        ),
        ("module m; generate endmodule", "VlogSyntax 1:20"),
        ("module m; n (a); endmodule", "VlogSyntax 1:13"),
        ("module m; n u; endmodule", "VlogSyntax 1:14"),
        ("module m; n u(a, .b(c)); endmodule", "VlogSyntax 1:18"),
        ("module m; n u(.a(b), c); endmodule", "VlogSyntax 1:22"),
        ("module m; n u(); n #() v(); endmodule", "VlogSyntax 1:22"),
        ("module m; assign a = b ? c; endmodule", "VlogSyntax 1:27"),
        ("module m; assign a = {}; endmodule", "VlogSyntax 1:23"),
        ("module m; assign a = b[]; endmodule", "VlogSyntax 1:24"),
        ("module m; assign a = b[1:2:3];", "VlogSyntax 1:27"),
        ("module m; assign a = {2{b}; endmodule", "VlogSyntax 1:27"),
        (
            "module m; assign a = $clog2 b; endmodule",
            "VlogSyntax 1:29",
        ),
        ("module m; assign a = b + ; endmodule", "VlogSyntax 1:26"),
        ("module m; assign a = (b; endmodule", "VlogSyntax 1:24"),
        ("module m; assign a = -\n\n ;", "VlogSyntax 3:2"),
        ("$signed", "VlogSyntax 1:1"),
        ("casexx", "VlogSyntax 1:1"),
        ("module m; casex", "VlogLeftOut 1:11"),
        ("module m; assign a = $time; casex", "VlogLeftOut 1:22"),
        ("module m( ; tri1 a", "VlogLeftOut 1:13"),
        ("$display", "VlogLeftOut 1:1"),
    ];
    for (text, want) in cases {
        let answer = answer(rt.alloc(), text)?;
        assert_eq!(rt; answer.as_str(), want, "of {text}");
    }
    Ok(())
}

#[test]
fn words_that_are_left_out_are_refused(rt: HostRuntime) -> Result<(), Fail> {
    let words = [
        "casex",
        "while",
        "repeat",
        "forever",
        "wait",
        "fork",
        "join",
        "function",
        "task",
        "specify",
        "primitive",
        "table",
        "defparam",
        "inout",
        "tri",
        "tri0",
        "tri1",
        "triand",
        "trior",
        "trireg",
        "wand",
        "wor",
        "supply0",
        "supply1",
        "real",
        "realtime",
        "time",
        "integer",
        "event",
        "and",
        "nand",
        "nor",
        "xor",
        "xnor",
        "buf",
        "not",
        "bufif0",
        "bufif1",
        "notif0",
        "notif1",
        "force",
        "release",
        "deassign",
        "disable",
    ];
    for word in words {
        let text = format!(in rt.alloc(); "a {word}")?;
        let answer = answer(rt.alloc(), text.as_str())?;
        assert_eq!(rt; answer.as_str(), "VlogLeftOut 1:3", "of {word}");
    }
    Ok(())
}

/// The text, so many times another, and a third.
fn repeated(
    alloc: Global,
    start: &str,
    times: usize,
    text: &str,
    end: &str,
) -> Result<String, Fail> {
    let mut out = String::from_str(alloc, start)?;
    for _turn in 0..times {
        out.push_str(text)?;
    }
    out.push_str(end)?;
    Ok(out)
}

#[test]
fn what_nests_or_runs_on_too_long_is_refused(rt: HostRuntime) -> Result<(), Fail> {
    let alloc = rt.alloc();
    let cases = [
        ("module m; assign a = ", 65, "(", "", "VlogDeep 1:86"),
        ("module m; assign a = ", 64, "(", "", "VlogSyntax 1:86"),
        ("", 65, "begin ", "", "VlogDeep 1:385"),
        ("", 64, "begin ", "casez", "VlogDeep 1:385"),
        ("", 64, "case ", "casez", "VlogDeep 1:321"),
        ("", 65, "generate ", "", "VlogDeep 1:577"),
        ("", 70, ")", "(", "VlogSyntax 1:1"),
        ("", 64, "(", ")((", "VlogDeep 1:67"),
        ("", 64, "{", "end [ [", "VlogDeep 1:71"),
        ("", 64, "[", "endcase begin", "VlogSyntax 1:1"),
        ("", 200, "begin end ", "", "VlogSyntax 1:1"),
        ("", 2049, "a ", "", "VlogDeep 1:4097"),
        ("", 2048, "a ", ";a", "VlogSyntax 1:1"),
        ("module m(a", 3000, ",a", "); endmodule", "m[]"),
        ("module m; wire a", 3000, ",a", "", "VlogDeep 1:2063"),
        (
            "module m #(parameter A = {a",
            3000,
            ",a",
            "",
            "VlogDeep 1:2067",
        ),
        ("(a", 3000, ",a", "", "VlogDeep 1:2049"),
        ("", 1025, "else ", "", "VlogDeep 1:5121"),
        ("", 1024, "else ", "module else", "VlogSyntax 1:1"),
        (
            "module m; initial begin ",
            1025,
            "if (a) ; else ; ",
            "",
            "VlogDeep 1:16418",
        ),
        (
            "module m; initial begin ",
            1024,
            "if (a) ; else ; ",
            "end endmodule x",
            "VlogSyntax 1:16423",
        ),
        (
            "module m; initial ",
            500,
            "if (a) ; else ",
            "; endmodule x",
            "VlogSyntax 1:7031",
        ),
    ];
    for (start, times, text, end, want) in cases {
        let text = repeated(alloc, start, times, text, end)?;
        let answer = answer(alloc, text.as_str())?;
        assert_eq!(rt; answer.as_str(), want);
    }
    Ok(())
}

/// A start, so many times a text that is repeated and its end, and an end.
fn grouped(
    alloc: Global,
    start: &str,
    groups: usize,
    group: (usize, &str, &str),
    end: &str,
) -> Result<String, Fail> {
    let (times, text, group_end) = group;
    let group = repeated(alloc, "", times, text, group_end)?;
    repeated(alloc, start, groups, group.as_str(), end)
}

/// Whether the text has a tree, or the refusal.
fn is_read(alloc: Global, text: &str) -> Result<String, Fail> {
    let tokens = tokens_of(alloc, text)?;
    match parse_vlog(alloc, &tokens) {
        Ok(_) => Ok(String::from_str(alloc, "read")?),
        Err(fault) => show_fault(alloc, &fault),
    }
}

#[test]
fn what_nests_deep_is_read_or_refused(rt: HostRuntime) -> Result<(), Fail> {
    let alloc = rt.alloc();
    let brackets = repeated(alloc, "", 64, "(", "c")?;
    let brackets = repeated(alloc, brackets.as_str(), 64, ")", "; endmodule")?;
    let choices = repeated(alloc, "x = ", 475, "a ? b : ", brackets.as_str())?;
    let unary = repeated(alloc, "x = ", 2043, "~", "c; endmodule")?;
    let (stmt, item) = (
        (500, "if (a) ", "; else "),
        (500, "if (a) ", "wire b; else "),
    );
    let (else_stmt, else_item) = ((1, "if (a) ", "; else "), (1, "if (a) ", "wire b; else "));
    let last_stmt = repeated(alloc, "", 110, "if (a) ", "; endmodule")?;
    let last_item = repeated(alloc, "", 55, "if (a) ", "wire b; endmodule")?;
    let no_item = repeated(alloc, "", 55, "if (a) ", "endmodule")?;
    let cases = [
        (
            "module m; initial ",
            1024,
            else_stmt,
            choices.as_str(),
            "read",
        ),
        (
            "module m; initial ",
            1024,
            else_stmt,
            unary.as_str(),
            "read",
        ),
        ("module m; initial ", 4, stmt, last_stmt.as_str(), "read"),
        (
            "module m; initial if (a) ",
            4,
            stmt,
            last_stmt.as_str(),
            "VlogDeep 1:14824",
        ),
        (
            "module m; initial ",
            99,
            stmt,
            "; endmodule",
            "VlogDeep 1:14824",
        ),
        ("module m; ", 1024, else_item, "wire b; endmodule", "read"),
        ("module m; ", 2, item, last_item.as_str(), "read"),
        (
            "module m; if (a) ",
            2,
            item,
            last_item.as_str(),
            "VlogDeep 1:7429",
        ),
        (
            "module m; if (a) ",
            2,
            item,
            no_item.as_str(),
            "VlogSyntax 1:7429",
        ),
        (
            "module m; ",
            99,
            item,
            "wire b; endmodule",
            "VlogDeep 1:7429",
        ),
        (
            "module m; a b; ",
            99,
            item,
            "wire b; endmodule",
            "VlogSyntax 1:14",
        ),
    ];
    for (start, groups, group, end, want) in cases {
        let text = grouped(alloc, start, groups, group, end)?;
        let answer = is_read(alloc, text.as_str())?;
        assert_eq!(rt; answer.as_str(), want);
    }
    Ok(())
}

/// The name of the module at the top, or the refusal.
fn top(alloc: Global, text: &str) -> Result<String, Fail> {
    let tokens = tokens_of(alloc, text)?;
    let file = parse_vlog(alloc, &tokens)?;
    match top_of(alloc, &file) {
        Ok(name) => {
            let name = std::str::from_utf8(name.as_bytes())?;
            Ok(String::from_str(alloc, name)?)
        }
        Err(fault) => show_fault(alloc, &fault),
    }
}

#[test]
fn the_top_is_the_one_module_without_an_instance(rt: HostRuntime) -> Result<(), Fail> {
    let cases = [
        ("module a; endmodule", "a"),
        ("module a; b u(); endmodule module b; endmodule", "a"),
        ("module b; endmodule module a; b u(); endmodule", "a"),
        (
            "module a; b u(); endmodule module b; c v(); endmodule module c; endmodule",
            "a",
        ),
        (
            "module b; endmodule module c; endmodule module d; endmodule module a; generate if (1) b u(); else begin c v(); end for (i = 0; i < 1; i = i + 1) begin : g d w(); end endgenerate endmodule",
            "a",
        ),
        ("module a; x u(); endmodule", "a"),
        ("", "VlogName 0:0"),
        ("module a; endmodule module b; endmodule", "VlogName 0:0"),
        ("module a; endmodule module a; endmodule", "VlogName 0:0"),
        ("module a; a u(); endmodule", "VlogName 0:0"),
        (
            "module a; b u(); endmodule module b; a v(); endmodule",
            "VlogName 0:0",
        ),
    ];
    for (text, want) in cases {
        let answer = top(rt.alloc(), text)?;
        assert_eq!(rt; answer.as_str(), want, "of {text}");
    }
    Ok(())
}

#[test]
fn a_long_chain_of_modules_has_its_top(rt: HostRuntime) -> Result<(), Fail> {
    let alloc = rt.alloc();
    let mut text = String::from_str(alloc, "module m0; endmodule\n")?;
    for below in 0u32..18_999 {
        let above = below + 1;
        write!(text, "module m{above}; m{below} u(); endmodule\n")?;
    }
    assert_eq!(rt; top(alloc, text.as_str())?.as_str(), "m18999");
    text.push_str("module other; endmodule")?;
    assert_eq!(rt; top(alloc, text.as_str())?.as_str(), "VlogName 0:0");
    Ok(())
}

const UART: &str = "`timescale 1ns/1ps\n\
`define A_CTRL 8'h00\n\
`define A_STATUS 8'h04\n\
`define A_IE 8'h08\n\
`define A_DATA 8'h0C\n\
`define A_CMD 8'h10\n\
`define A_ID 8'h14\n\
module uart(clk, rst_n, psel, penable, pwrite, paddr, pwdata, prdata, pready,\n\
  pslverr, rx_set, tx_set, d_we, d_in, en, div, rx, tx, mask, go, ch);\n\
  input clk, rst_n, psel, penable, pwrite, rx_set, tx_set, d_we;\n\
  input [7:0] paddr, d_in;\n\
  input [31:0] pwdata;\n\
  output reg [31:0] prdata;\n\
  output pready, pslverr;\n\
  output reg en, rx, tx, go;\n\
  output reg [7:0] div;\n\
  output reg [1:0] mask;\n\
  output [63:0] ch;\n\
  reg [7:0] d;\n\
  wire wr = psel & penable & pwrite;\n\
  wire rd = psel & penable & ~pwrite;\n\
  assign pready = 1'b1;\n\
  assign pslverr = 1'b0;\n\
  always @(posedge clk or negedge rst_n)\n\
    if (!rst_n) begin\n\
      en <= 0; div <= 8'h1B; rx <= 0; tx <= 0; mask <= 0; go <= 0; d <= 0;\n\
    end else begin\n\
      go <= wr && paddr == `A_CMD && pwdata[0];\n\
      if (rx_set) rx <= 1'b1;\n\
      if (tx_set) tx <= 1'b1;\n\
      if (wr) case (paddr)\n\
        `A_CTRL: begin en <= pwdata[0]; if (!en) div <= pwdata[15:8]; end\n\
        `A_STATUS: begin rx <= rx & ~pwdata[0]; tx <= tx & ~pwdata[1]; end\n\
        `A_IE: mask <= pwdata[1:0];\n\
        default: ;\n\
      endcase\n\
      if (rd && paddr == `A_DATA) d <= 0; else if (d_we) d <= d_in;\n\
    end\n\
  genvar i;\n\
  generate for (i = 0; i < 4; i = i + 1) begin : g\n\
    reg [15:0] t;\n\
    always @(posedge clk or negedge rst_n)\n\
      if (!rst_n) t <= 16'd0;\n\
      else if (wr && paddr == 8'h40 + 4*i) t <= pwdata[15:0];\n\
    assign ch[16*i +: 16] = t;\n\
  end endgenerate\n\
  always @(*) begin\n\
    prdata = 32'd0;\n\
    case (paddr)\n\
      `A_CTRL: prdata = {16'd0, div, 7'd0, en};\n\
      `A_STATUS: prdata = {tx, rx};\n\
      `A_IE: prdata = mask;\n\
      `A_DATA: prdata = d;\n\
      `A_ID: prdata = 32'h0102;\n\
      default: if (paddr[7:4] == 4'h4) prdata = ch[16*paddr[3:2] +: 16];\n\
    endcase\n\
  end\n\
endmodule\n";

const UART_TREE: &str =
    "uart[P7 .P1 .P0 .P0 .P1 .P3 .P0 .P0 .P0 .N0 .N0 ((psel&penable)&pwrite).N0 ((psel&penable)&(~pwrite)).A0 pready=1'b1.A0 pslverr=1'b0.@2 ?(!rst_n){[en<=0;div<=8'h1B;rx<=0;tx<=0;mask<=0;go<=0;d<=0;]}{[go<=((wr&&(paddr==8'h10))&&pwdata[0]);?rx_set{rx<=1'b1;}?tx_set{tx<=1'b1;}?wr{case paddr[8'h00:[en<=pwdata[0];?(!en){div<=pwdata[15:8];}]8'h04:[rx<=(rx&(~pwdata[0]));tx<=(tx&(~pwdata[1]));]8'h08:mask<=pwdata[1:0];default:;]}?(rd&&(paddr==8'h0C)){d<=0;}{?d_we{d<=d_in;}}]}.G0 .[F (i<4)[N0 .@2 ?(!rst_n){t<=16'd0;}{?(wr&&(paddr==(8'h40+(4*i)))){t<=pwdata[15:0];}}.A0 ch[(16*i)+:16]=t.].].@0 [prdata=32'd0;case paddr[8'h00:prdata={16'd0,div,7'd0,en};8'h04:prdata={tx,rx};8'h08:prdata=mask;8'h0C:prdata=d;8'h14:prdata=32'h0102;default:?(paddr[7:4]==4'h4){prdata=ch[(16*paddr[3:2])+:16];}]].]";

#[test]
fn a_large_block_is_read_whole(rt: HostRuntime) -> Result<(), Fail> {
    let answer = answer(rt.alloc(), UART)?;
    assert_eq!(rt; answer.as_str(), UART_TREE);
    let name = top(rt.alloc(), UART)?;
    assert_eq!(rt; name.as_str(), "uart");
    Ok(())
}
