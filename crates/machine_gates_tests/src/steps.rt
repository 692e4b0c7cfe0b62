//! The effects of software, counters, interrupt fields and reductions, over all values of two bits,
//! against the plain programs on numbers.

ghost use Rattle.std.specs.Prelude.{◌≡◌, ◌+◌, ◌^◌, ◌<◌, ◌≤◌, length, IfOk, OnOk};
ghost use Rattle.gate_graph.specs.Gates.{AreOf, Keeps};

use expr_gates::view_gates;
use extra_gates::{count_gates, interrupt_gates, raised_wire};
use field_extras::counter::count_next;
use field_extras::interrupt::{intr_bits, intr_next};
use field_gates::{read_word, write_word};
use field_policies::effect::{read_result, write_result};
use field_policies::extra::{Counter, Intr};
use field_policies::policy::{ReadEffect, WriteEffect};
use field_policies::signal::{Gate, HwExpr};
use gate_graph::{Graph, Node, Wire};
use side_gates::{any_of_four, any_of_three, forced_word};
use std::alloc::{AllocError, Global};
use std::test::Fail;

/// What a counter of two bits adds and takes away, and where it stops.
#[derive(Clone, Copy, Debug, PartialEq, Eq, Drop)]
struct Steps {
    up: u32,
    down: u32,
    up_stops: bool,
    down_stops: bool,
}

#[derive(Clone, Copy, Debug, PartialEq, Eq, Drop)]
enum Call {
    Write(WriteEffect),
    Read(ReadEffect),
    Count(Steps),
    Interrupt(bool),
    Raised(Option<bool>),
    Reductions,
    Forced,
    Three,
    Four,
}

const CALLS: [Call; 27] = [
    Call::Write(WriteEffect::AsIs),
    Call::Write(WriteEffect::OneSet),
    Call::Write(WriteEffect::OneClear),
    Call::Write(WriteEffect::OneToggle),
    Call::Write(WriteEffect::ZeroSet),
    Call::Write(WriteEffect::ZeroClear),
    Call::Write(WriteEffect::ZeroToggle),
    Call::Write(WriteEffect::Clear),
    Call::Write(WriteEffect::Set),
    Call::Read(ReadEffect::Keep),
    Call::Read(ReadEffect::Clear),
    Call::Read(ReadEffect::Set),
    Call::Count(Steps {
        up: 1,
        down: 1,
        up_stops: false,
        down_stops: false,
    }),
    Call::Count(Steps {
        up: 3,
        down: 2,
        up_stops: false,
        down_stops: false,
    }),
    Call::Count(Steps {
        up: 2,
        down: 3,
        up_stops: true,
        down_stops: false,
    }),
    Call::Count(Steps {
        up: 3,
        down: 1,
        up_stops: false,
        down_stops: true,
    }),
    Call::Count(Steps {
        up: 1,
        down: 3,
        up_stops: true,
        down_stops: true,
    }),
    Call::Count(Steps {
        up: 0,
        down: 0,
        up_stops: true,
        down_stops: true,
    }),
    Call::Interrupt(false),
    Call::Interrupt(true),
    Call::Raised(None),
    Call::Raised(Some(true)),
    Call::Raised(Some(false)),
    Call::Reductions,
    Call::Forced,
    Call::Three,
    Call::Four,
];

/// The counter of these steps, in two bits.
fn counter_of(steps: Steps) -> Counter
    ensures up { result.up < 4 }
    ensures down { result.down < 4 }
{
    Counter {
        incr: None,
        decr: None,
        up: steps.up % 4,
        down: steps.down % 4,
        up_stops: steps.up_stops,
        down_stops: steps.down_stops,
    }
}

/// An enable, or a mask.
fn gate_of(high: bool) -> Gate {
    Gate {
        expr: HwExpr::Input(0),
        high,
    }
}

/// A word of new inputs.
fn word(graph: &mut Graph, alloc: Global, width: usize) -> Result<Vec<Wire>, AllocError>
    requires { length graph.old + width < 2 ^ 31 }
    ensures of { IfOk result (λ wires. AreOf wires.items graph.new) }
    ensures length { IfOk result (λ wires. length wires.items ≡ width) }
    ensures keeps { Keeps graph.old graph.new }
    ensures size { OnOk result (length graph.new ≡ length graph.old + width) }
{
    let mut wires = Vec::new(alloc);
    for i in 0..width {
        let wire = graph.input()?;
        wires.push(wire)?;
    }
    Ok(wires)
}

/// The wires of this call over words of two places: its word, then its flags.
fn applied(
    graph: &mut Graph,
    alloc: Global,
    call: Call,
    a: &[Wire],
    b: &[Wire],
    c: &[Wire],
) -> Result<Vec<Wire>, AllocError>
    requires a_of { AreOf a.now graph.old }
    requires b_of { AreOf b.now graph.old }
    requires c_of { AreOf c.now graph.old }
    requires a_two { length a.now ≡ 2 }
    requires b_two { length b.now ≡ 2 }
    requires c_two { length c.now ≡ 2 }
    requires room { length graph.old + 1000 < 2 ^ 31 }
{
    let mut flags: Vec<Wire> = Vec::new(alloc);
    match call {
        Call::Write(effect) => return write_word(graph, alloc, effect, a, b),
        Call::Read(effect) => return read_word(graph, alloc, effect, a),
        Call::Forced => return forced_word(graph, alloc, c[0], c[1], a),
        Call::Count(steps) => {
            let count = count_gates(graph, alloc, &counter_of(steps), a, c[0], c[1])?;
            flags = count.value;
            flags.push(count.over)?;
            flags.push(count.under)?;
        }
        Call::Interrupt(sticky) => {
            let step = interrupt_gates(graph, alloc, sticky, a, b)?;
            flags = step.value;
            flags.push(step.active)?;
        }
        Call::Raised(high) => flags.push(raised_wire(graph, alloc, high.map(gate_of), a, b)?)?,
        Call::Reductions => {
            let view = view_gates(graph, alloc, a)?;
            flags.push(view.anded)?;
            flags.push(view.ored)?;
            flags.push(view.xored)?;
        }
        Call::Three => flags.push(any_of_three(graph, a[0], a[1], b[0])?)?,
        Call::Four => flags.push(any_of_four(graph, a[0], a[1], b[0], b[1])?)?,
    }
    Ok(flags)
}

/// A graph of three words of two inputs, and the wires of this call over them.
fn built(alloc: Global, call: Call) -> Result<(Graph, Vec<Wire>), AllocError> {
    let mut graph = Graph::new(alloc)?;
    let a = word(&mut graph, alloc, 2)?;
    let b = word(&mut graph, alloc, 2)?;
    let c = word(&mut graph, alloc, 2)?;
    let wires = applied(
        &mut graph,
        alloc,
        call,
        a.as_slice(),
        b.as_slice(),
        c.as_slice(),
    )?;
    Ok((graph, wires))
}

/// The number of the wires, where the bits of this number are the inputs. Reads the nodes by itself.
fn number_at(graph: &Graph, wires: &[Wire], inputs: u32, alloc: Global) -> Result<u32, AllocError> {
    let mut table: Vec<bool> = Vec::new(alloc);
    for i in 0..graph.size() {
        let value = match graph.node(i) {
            Node::And(a, b) => value_at(table.as_slice(), a) && value_at(table.as_slice(), b),
            Node::Input(n) => n < 32 && (inputs >> n) % 2 == 1,
            Node::Zero | Node::Latch(_) => false,
        };
        table.push(value)?;
    }
    let mut number = 0u32;
    for wire in wires.iter().rev() {
        number = number
            .wrapping_mul(2)
            .wrapping_add(value_at(table.as_slice(), *wire) as u32);
    }
    Ok(number)
}

fn value_at(table: &[bool], wire: Wire) -> bool {
    table.get((wire.0 / 2) as usize).copied().unwrap_or(false) != (wire.0 % 2 == 1)
}

/// What the call gives, by numbers of two bits: the word, and 4, 8 for the flags behind it.
fn expected(alloc: Global, call: Call, x: u32, y: u32, z: u32) -> u32
    requires x { x < 4 }
    requires y { y < 4 }
    requires z { z < 4 }
{
    match call {
        Call::Write(effect) => write_result(effect, 2, x, y),
        Call::Read(effect) => read_result(effect, 2, x),
        Call::Count(steps) => {
            let count = count_next(&counter_of(steps), 2, x, z % 2 == 1, z / 2 == 1);
            count
                .value
                .wrapping_add(4 * count.over as u32)
                .wrapping_add(8 * count.under as u32)
        }
        Call::Interrupt(sticky) => match intr_next(&intr_of(alloc, sticky, None), x, y) {
            Some(next) => next.wrapping_add(4),
            None => x,
        },
        Call::Raised(high) => (intr_bits(&intr_of(alloc, false, high), 2, x, y) != 0) as u32,
        Call::Reductions => (x == 3) as u32 + 2 * ((x != 0) as u32) + 4 * (x.count_ones() % 2),
        Call::Forced if z >= 2 => 0,
        Call::Forced if z == 1 => 3,
        Call::Forced => x,
        Call::Three => (x != 0 || y % 2 == 1) as u32,
        Call::Four => (x != 0 || y != 0) as u32,
    }
}

/// An interrupt field, by itself.
fn intr_of(alloc: Global, sticky: bool, high: Option<bool>) -> Intr {
    Intr {
        sticky,
        filter: high.map(gate_of),
        members: Vec::new(alloc),
    }
}

#[test]
fn steps_are_those_of_numbers(rt: HostRuntime) -> Result<(), Fail> {
    for call in CALLS {
        let (graph, wires) = built(rt.alloc(), call)?;
        for inputs in 0..64u32 {
            let (x, y, z) = (inputs % 4, inputs / 4 % 4, inputs / 16 % 4);
            let number = number_at(&graph, wires.as_slice(), inputs, rt.alloc())?;
            assert_eq!(rt;
                number,
                expected(rt.alloc(), call, x, y, z),
                "{call:?} {x} {y} {z}"
            );
        }
    }
    Ok(())
}
