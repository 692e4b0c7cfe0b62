//! Expressions as text, and what they come to.

ghost use Rattle.std.specs.Prelude.{◌≤◌};
ghost use Rattle.vlog_const.specs.Names.{has_bits};

use bit_base::bits::{Bits, number_of};
use bit_base::text::text_of;
use std::alloc::Global;
use std::test::Fail;
use vlog_const::calls::{const_value, shape_of};
use vlog_const::names::{Const, Named, Scope};
use vlog_parse::parse_vlog;
use vlog_prep::prepare::prepare;
use vlog_tree::fault::VlogFault;
use vlog_tree::tree_expressions::VExpr;
use vlog_tree::tree_modules::{VMitem, VlogFile};
use vlog_values::facts::Shape;

/// Constants.
const CONSTANTS: &str = "module m;
localparam e=
  8 - 3 - 2;
localparam e=
  1 || 0 && 0;
localparam e=
  8'hFF + 8'h01;
localparam e=
  $clog2(5);
localparam e=
  4 / 0;
localparam e=
  q;
localparam e=
  129'd0;
localparam e=
  4'b1010;
localparam e=
  4'sb1010;
localparam e=
  'hF;
localparam e=
  6'o77;
localparam e=
  3'd15;
localparam e=
  8'h1_F;
localparam e=
  P;
localparam e=
  P + 1;
localparam e=
  -1;
localparam e=
  -8'd1;
localparam e=
  8'sd200 / 8'sd3;
localparam e=
  8'd200 / 8'd3;
localparam e=
  -7 % 3;
localparam e=
  8'd7 % 8'd4;
localparam e=
  2 ** 10;
localparam e=
  4'd2 ** 8'd4;
localparam e=
  2 ** -1;
localparam e=
  0 ** 0;
localparam e=
  8'h80 >> 3;
localparam e=
  8'h81 << 1;
localparam e=
  8'sh80 >>> 3;
localparam e=
  8'h80 >>> 3;
localparam e=
  1 << 40;
localparam e=
  8'sh80 >> 1;
localparam e=
  4'sb1000 < 4'sb0001;
localparam e=
  4'b1000 < 4'sb0001;
localparam e=
  4'sb1111 == 8'sb1111_1111;
localparam e=
  4'b1111 == 8'sb1111_1111;
localparam e=
  3 >= 3;
localparam e=
  3 > 3;
localparam e=
  3 <= 2;
localparam e=
  5 != 5;
localparam e=
  5 === 5;
localparam e=
  5 !== 5;
localparam e=
  4'b1100 & 4'b1010;
localparam e=
  4'b1100 | 4'b1010;
localparam e=
  4'b1100 ^ 4'b1010;
localparam e=
  4'b1100 ~^ 4'b1010;
localparam e=
  ~4'b1100;
localparam e=
  !4'b1100;
localparam e=
  &4'b1111;
localparam e=
  ~&4'b1111;
localparam e=
  |4'b0000;
localparam e=
  ~|4'b0000;
localparam e=
  ^4'b0111;
localparam e=
  ~^4'b0111;
localparam e=
  {4'h1, 4'h2};
localparam e=
  {3{2'b10}};
localparam e=
  {P{1'b1}};
localparam e=
  {2{4'h1, 4'h2}};
localparam e=
  {0{1'b1}};
localparam e=
  {12};
localparam e=
  {(12)};
localparam e=
  {n, q};
localparam e=
  1 ? 4'd3 : 8'd4;
localparam e=
  0 ? 4'd3 : 8'd4;
localparam e=
  1 ? 4'sd8 : 8'sd0;
localparam e=
  $signed(4'd8) + 8'sd0;
localparam e=
  $unsigned(4'sd8) + 8'sd0;
localparam e=
  $clog2(0);
localparam e=
  $clog2(1);
localparam e=
  $clog2(256);
localparam e=
  $clog2(257);
localparam e=
  4'bx;
localparam e=
  12'hx00;
localparam e=
  4'b1z;
localparam e=
  4'bx1111;
localparam e=
  n;
localparam e=
  4 + n;
localparam e=
  q + n;
localparam e=
  $clog2(n);
localparam e=
  P[0];
localparam e=
  (4'd8 + 4'd8) / 1;
localparam e=
  4'd8 + 4'd8;
localparam e=
  9'd0 + 4'd8 + 4'd8;
localparam e=
  128'd1 + 128'd2;
localparam e=
  {128'd0, 1'b0} + 1;
localparam e=
  65'd2 * 1;
localparam e=
  64'd3 * 5;
localparam e=
  1 / (1 - 1);
localparam e=
  {20{128'd0}};
localparam e=
  {16{128'd0}};
localparam e=
  ({128'd0, 1'b0} + 1) | 1;
localparam e=
  8'sd1 << 2'b11;
localparam e=
  4'sb1000 >>> 8'd2;
localparam e=
  4'sb1000 >>> 8'sd2;
localparam e=
  4'b1000 >>> 8'sd2;
localparam e=
  (4'sb1000 + 8'd0) >>> 1;
localparam e=
  4'sb1000 + 8'sd0;
localparam e=
  4'sb1000 * 8'd2;
localparam e=
  -4'sd8 < 8'd1;
localparam e=
  ~4'd5 == 8'd250;
localparam e=
  1 ? 4'sb1000 : 8'd0;
localparam e=
  !8'sd0 + 4'd3;
localparam e=
  {4'sb1000} + 8'sd0;
endmodule
";

/// Their values: the number, the size and `s` where signed, or the refusal and its column.
const VALUES: &str = "3 32s
1 1
0 8
3 32s
VlogConst 7
VlogName 3
VlogWide 3
10 4
10 4s
15 32
63 6
7 3
31 8
5 4
6 32
4294967295 32s
255 8
238 8s
66 8
4294967295 32s
3 8
1024 32s
0 4
VlogConst 8
1 32s
16 8
2 8
240 8s
16 8
0 32s
64 8s
1 1
0 1
1 1
0 1
1 1
0 1
0 1
0 1
1 1
0 1
8 4
14 4
6 4
9 4
3 4
0 1
1 1
0 1
0 1
1 1
1 1
0 1
18 8
42 6
31 5
4626 16
VlogConst 4
VlogConst 4
VlogConst 5
VlogConst 3
3 8
4 8
248 8s
248 8s
8 8
0 32s
0 32s
8 32s
9 32s
VlogConst 3
VlogConst 3
VlogConst 3
15 4
VlogConst 3
VlogConst 3
VlogName 3
VlogConst 3
VlogName 3
16 32
0 4
16 9
3 128
VlogWide 3
VlogWide 3
15 64
VlogConst 7
VlogWide 3
2048 bits
VlogWide 4
8 8s
14 4s
14 4s
2 4
4 8
248 8s
16 8
0 1
1 1
8 8
4 4
8 8
";

/// Expressions.
const EXPRESSIONS: &str = "module m;
localparam e=
  n + t;
localparam e=
  t + t;
localparam e=
  t + 1;
localparam e=
  n[3];
localparam e=
  n[5:2];
localparam e=
  n[2:5];
localparam e=
  n[99:90];
localparam e=
  n[q +: 3];
localparam e=
  n[0 +: 0];
localparam e=
  t[7:4];
localparam e=
  q == 1;
localparam e=
  w;
localparam e=
  w + 1;
localparam e=
  w | q;
localparam e=
  w << q;
localparam e=
  {n, t, P};
localparam e=
  {2{n}};
localparam e=
  {t{n}};
localparam e=
  q ? n : t;
localparam e=
  !q;
localparam e=
  $signed(n);
localparam e=
  $clog2(q);
localparam e=
  -n;
localparam e=
  ~t;
localparam e=
  n ** q;
localparam e=
  {11{w}};
localparam e=
  (w + 1) | 1;
localparam e=
  w + q;
endmodule
";

/// Their sizes, and `s` where signed, or the refusal and its column.
const SHAPES: &str = "8
4s
32s
1
4
VlogConst 4
10
3
VlogConst 10
4
1
200
VlogWide 3
VlogName 7
200
16
16
VlogConst 4
8
1
8s
32s
8
4s
8
VlogWide 3
VlogWide 4
VlogName 7
";

fn tree_of(alloc: Global, text: &str) -> Result<VlogFile, Fail> {
    let mut files = Vec::new(alloc);
    files.push(text.as_bytes().to_vec(alloc)?)?;
    if files.len() > 1 {
        return Ok(parse_vlog(alloc, &prepare(alloc, &[])?)?);
    }
    let tokens = prepare(alloc, files.as_slice())?;
    Ok(parse_vlog(alloc, &tokens)?)
}

/// A constant `P` of four bits, 5; a net `n` of eight bits from 0 on; a signed net `t` of four bits from 4 on; a net `w`
/// of 200 bits.
fn scope_of(alloc: Global) -> Result<Scope, Fail> {
    let mut scope = Scope::empty(alloc);
    let five = Const {
        bits: Bits::from([true, false, true, false].to_vec(alloc)?),
        signed: false,
    };
    let _ = scope.add(text_of(alloc, b"P")?, Named::Constant(five))?;
    let _ = scope.add(text_of(alloc, b"n")?, net(0, 8, false, 0))?;
    let _ = scope.add(text_of(alloc, b"t")?, net(1, 4, true, 4))?;
    let _ = scope.add(text_of(alloc, b"w")?, net(2, 200, false, 0))?;
    Ok(scope)
}

fn net(net: u32, size: u32, signed: bool, lsb: u32) -> Named
    requires { 1 ≤ size }
    ensures { has_bits result }
{
    Named::Signal {
        net,
        shape: Shape { size, signed },
        lsb,
    }
}

fn show_fault(alloc: Global, fault: &VlogFault) -> Result<String, Fail> {
    match fault {
        VlogFault::NoMemory => Ok(format!(in alloc; "no memory")?),
        VlogFault::At {
            code,
            place,
            names: _,
            path: _,
        } => Ok(format!(in alloc; "{:?} {}", code, place.column)?),
    }
}

fn show_const(alloc: Global, value: &Const) -> Result<String, Fail> {
    let sign = if value.signed { "s" } else { "" };
    if value.bits.len() > 128 {
        return Ok(format!(in alloc; "{} bits", value.bits.len())?);
    }
    Ok(format!(in alloc; "{} {}{}", number_of(&value.bits), value.bits.len(), sign)?)
}

fn show_value(alloc: Global, expr: &VExpr, scope: &Scope) -> Result<String, Fail> {
    match const_value(alloc, expr, scope) {
        Ok(value) => show_const(alloc, &value),
        Err(fault) => show_fault(alloc, &fault),
    }
}

fn show_shape(alloc: Global, expr: &VExpr, scope: &Scope) -> Result<String, Fail> {
    match shape_of(alloc, expr, scope) {
        Ok(shape) => {
            let sign = if shape.signed { "s" } else { "" };
            Ok(format!(in alloc; "{}{}", shape.size, sign)?)
        }
        Err(fault) => show_fault(alloc, &fault),
    }
}

/// The answers for the constants of a module, one a line.
fn answers(alloc: Global, text: &str, values: bool) -> Result<String, Fail> {
    let file = tree_of(alloc, text)?;
    let scope = scope_of(alloc)?;
    let mut out = String::new(alloc);
    for module in file.modules.as_slice() {
        for item in module.items.as_slice() {
            if let VMitem::Constants(_, _, constant, _, _) = item {
                let expr = constant.value.get();
                let line = if values {
                    show_value(alloc, expr, &scope)?
                } else {
                    show_shape(alloc, expr, &scope)?
                };
                out.push_str(line.as_str())?;
                out.push_str("\n")?;
            }
        }
    }
    Ok(out)
}

#[test]
fn constants_have_their_values(rt: HostRuntime) -> Result<(), Fail> {
    let found = answers(rt.alloc(), CONSTANTS, true)?;
    assert_eq!(rt; found.as_str(), VALUES);
    Ok(())
}

#[test]
fn expressions_have_their_sizes_and_signs(rt: HostRuntime) -> Result<(), Fail> {
    let found = answers(rt.alloc(), EXPRESSIONS, false)?;
    assert_eq!(rt; found.as_str(), SHAPES);
    Ok(())
}

#[test]
fn a_name_is_added_once(rt: HostRuntime) -> Result<(), Fail> {
    let mut scope = Scope::empty(rt.alloc());
    assert!(rt; scope.add(text_of(rt.alloc(), b"a")?, net(0, 1, false, 0))?);
    assert!(rt; !scope.add(text_of(rt.alloc(), b"a")?, net(1, 2, true, 0))?);
    assert!(rt; scope.find(&text_of(rt.alloc(), b"a")?).is_some());
    assert!(rt; scope.find(&text_of(rt.alloc(), b"b")?).is_none());
    Ok(())
}
