//! Each operator, over all values of words of one to four places, against a plain program on numbers.

ghost use Rattle.std.specs.Prelude.{◌≡◌, ◌+◌, ◌^◌, ◌<◌, ◌≤◌, length, IfOk, OnOk};
ghost use Rattle.gate_graph.specs.Gates.{AreOf, Keeps};

use gate_graph::{Graph, Node, Wire};
use std::alloc::{AllocError, Global};
use std::test::Fail;
use word_gates::{
    add, all, and, any, choose, equal, less, less_signed, mul, negate, or, parity, pick,
    shift_left, shift_right, shift_signed, sub, xnor, xor,
};

#[derive(Clone, Copy, Debug, PartialEq, Eq, Drop)]
enum Operator {
    And,
    Or,
    Xor,
    Xnor,
    Add,
    Sub,
    Mul,
    Less,
    LessSigned,
    Equal,
    ShiftLeft,
    ShiftRight,
    ShiftSigned,
    Negate,
    All,
    Any,
    Parity,
    Choose,
    Pick,
}

const OPERATORS: [Operator; 19] = [
    Operator::And,
    Operator::Or,
    Operator::Xor,
    Operator::Xnor,
    Operator::Add,
    Operator::Sub,
    Operator::Mul,
    Operator::Less,
    Operator::LessSigned,
    Operator::Equal,
    Operator::ShiftLeft,
    Operator::ShiftRight,
    Operator::ShiftSigned,
    Operator::Negate,
    Operator::All,
    Operator::Any,
    Operator::Parity,
    Operator::Choose,
    Operator::Pick,
];

/// A word of new inputs.
fn word(graph: &mut Graph, alloc: Global, width: usize) -> Result<Vec<Wire>, AllocError>
    requires { length graph.old + width < 2 ^ 31 }
    ensures of { IfOk result (λ wires. AreOf wires.items graph.new) }
    ensures length { IfOk result (λ wires. length wires.items ≡ width) }
    ensures keeps { Keeps graph.old graph.new }
    ensures size { OnOk result (length graph.new ≡ length graph.old + width) }
{
    let mut wires = Vec::new(alloc);
    for i in 0..width {
        let wire = graph.input()?;
        wires.push(wire)?;
    }
    Ok(wires)
}

/// The wires of this operator.
fn applied(
    graph: &mut Graph,
    alloc: Global,
    operator: Operator,
    a: &[Wire],
    b: &[Wire],
    c: &[Wire],
) -> Result<Vec<Wire>, AllocError>
    requires a_of { AreOf a.now graph.old }
    requires b_of { AreOf b.now graph.old }
    requires c_of { AreOf c.now graph.old }
    requires lengths { length a.now ≡ length b.now }
    requires conditions { length a.now ≡ length c.now }
    requires some { 0 < length a.now }
    requires few { length a.now ≤ 8 }
    requires room { length graph.old + 1000 < 2 ^ 31 }
{
    match operator {
        Operator::And => and(graph, alloc, a, b),
        Operator::Or => or(graph, alloc, a, b),
        Operator::Xor => xor(graph, alloc, a, b),
        Operator::Xnor => xnor(graph, alloc, a, b),
        Operator::Add => add(graph, alloc, a, b),
        Operator::Sub => sub(graph, alloc, a, b),
        Operator::Mul => mul(graph, alloc, a, b),
        Operator::Less => less(graph, alloc, a, b),
        Operator::LessSigned => less_signed(graph, alloc, a, b),
        Operator::Equal => equal(graph, alloc, a, b),
        Operator::ShiftLeft => shift_left(graph, alloc, a, b),
        Operator::ShiftRight => shift_right(graph, alloc, a, b),
        Operator::ShiftSigned => shift_signed(graph, alloc, a, b),
        Operator::Negate => negate(graph, alloc, a),
        Operator::All => all(graph, alloc, a),
        Operator::Any => any(graph, alloc, a),
        Operator::Parity => parity(graph, alloc, a),
        Operator::Choose => choose(graph, alloc, a, b, c),
        Operator::Pick => pick(graph, alloc, a, b, c),
    }
}

/// A graph of three words of inputs, and the wires of this operator over them.
fn built(alloc: Global, operator: Operator, width: usize) -> Result<(Graph, Vec<Wire>), AllocError>
    requires some { 0 < width }
    requires few { width ≤ 8 }
{
    let mut graph = Graph::new(alloc)?;
    let a = word(&mut graph, alloc, width)?;
    let b = word(&mut graph, alloc, width)?;
    let c = word(&mut graph, alloc, width)?;
    let wires = applied(
        &mut graph,
        alloc,
        operator,
        a.as_slice(),
        b.as_slice(),
        c.as_slice(),
    )?;
    Ok((graph, wires))
}

/// The number of the wires, where the bits of this number are the inputs. Reads the nodes by itself.
fn number_at(graph: &Graph, wires: &[Wire], inputs: u32, alloc: Global) -> Result<u32, AllocError> {
    let mut table: Vec<bool> = Vec::new(alloc);
    for i in 0..graph.size() {
        let value = match graph.node(i) {
            Node::And(a, b) => value_at(table.as_slice(), a) && value_at(table.as_slice(), b),
            Node::Input(n) => n < 32 && (inputs >> n) % 2 == 1,
            Node::Zero | Node::Latch(_) => false,
        };
        table.push(value)?;
    }
    let mut number = 0u32;
    for wire in wires.iter().rev() {
        number = number
            .wrapping_mul(2)
            .wrapping_add(value_at(table.as_slice(), *wire) as u32);
    }
    Ok(number)
}

fn value_at(table: &[bool], wire: Wire) -> bool {
    table.get((wire.0 / 2) as usize).copied().unwrap_or(false) != (wire.0 % 2 == 1)
}

/// What the operator gives, by numbers of words of so many values.
fn expected(operator: Operator, size: u32, x: u32, y: u32, z: u32) -> u32
    requires two { 1 < size }
    requires shift { y < 16 }
    requires number { x < 16 }
{
    let value = match operator {
        Operator::And => x & y,
        Operator::Or => x | y,
        Operator::Xor => x ^ y,
        Operator::Xnor => (size - 1) ^ x ^ y,
        Operator::Add => x.wrapping_add(y),
        Operator::Sub => x.wrapping_add(size).wrapping_sub(y),
        Operator::Mul => x.wrapping_mul(y),
        Operator::Less => (x < y) as u32,
        Operator::LessSigned => ((x ^ (size / 2)) < (y ^ (size / 2))) as u32,
        Operator::Equal => (x == y) as u32,
        Operator::ShiftLeft => x << y,
        Operator::ShiftRight => x >> y,
        Operator::ShiftSigned if x >= size / 2 => !(!(x | (u32::MAX - (size - 1))) >> y),
        Operator::ShiftSigned => x >> y,
        Operator::Negate => size.wrapping_sub(x),
        Operator::All => (x == size - 1) as u32,
        Operator::Any => (x != 0) as u32,
        Operator::Parity => x.count_ones() % 2,
        Operator::Choose if z != 0 => x,
        Operator::Choose => y,
        Operator::Pick => (x & z) | (y & !z),
    };
    value % size
}

/// The number that the operator's wires give at these words, whose width and number of values are given.
fn number_of(
    alloc: Global,
    operator: Operator,
    width: usize,
    size: u32,
    x: u32,
    y: u32,
) -> Result<u32, AllocError>
    requires some { 0 < width }
    requires few { width ≤ 8 }
{
    let (graph, wires) = built(alloc, operator, width)?;
    number_at(
        &graph,
        wires.as_slice(),
        x.wrapping_add(y.wrapping_mul(size)),
        alloc,
    )
}

#[test]
fn operators_are_those_of_numbers(rt: HostRuntime) -> Result<(), Fail> {
    for (width, size, total) in [(1, 2u32, 8), (2, 4, 64), (3, 8, 512), (4, 16, 4096)] {
        assert!(rt; 1 <= width && width <= 4 && 2 <= size && size <= 16);
        for operator in OPERATORS {
            let (graph, wires) = built(rt.alloc(), operator, width)?;
            for inputs in 0..total {
                let (x, y, z) = (inputs % size, inputs / size % size, inputs / size / size);
                let number = number_at(&graph, wires.as_slice(), inputs, rt.alloc())?;
                assert_eq!(rt;
                    number,
                    expected(operator, size, x, y, z),
                    "{operator:?} {x} {y} {z}"
                );
            }
        }
    }
    let rows = [
        (Operator::Add, 8, 256, 0xff, 0x01, 0x00),
        (Operator::LessSigned, 4, 16, 0b1111, 0b0000, 1),
        (Operator::ShiftRight, 4, 16, 0b1000, 4, 0),
        (Operator::Mul, 4, 16, 0b0011, 0b0101, 0b1111),
        (Operator::ShiftSigned, 8, 256, 0x80, 0xff, 0xff),
        (Operator::ShiftLeft, 8, 256, 0xff, 0xf0, 0x00),
    ];
    for (operator, width, size, x, y, wanted) in rows {
        assert!(rt; 1 <= width && width <= 8);
        assert_eq!(rt;
            number_of(rt.alloc(), operator, width, size, x, y)?,
            wanted,
            "{operator:?} {x} {y}"
        );
    }
    Ok(())
}
