//! Flat designs as text: words that are read from left to right, each of which makes a net, or takes what it needs from the expressions
//! and statements that are there and puts what it makes to them.

use bit_base::bits::{Bits, bits_of};
use bit_base::place::Place;
use bit_base::text::text_of;
use flat_design::expr::{FlatBinary, FlatExpr, FlatNode, FlatUnary};
use flat_design::item::{FlatEdge, FlatEvent, FlatItem};
use flat_design::net::{Net, NetKind};
use flat_design::stmt::{FlatArm, FlatLabel, FlatLeft, FlatStmt};
use sqlite_items::{Boxed, Items};
use std::alloc::{AllocError, Global};
use std::vec::Vec;

/// A design as far as its text was read.
#[derive(Drop)]
pub struct Draft {
    pub nets: Vec<Net>,
    pub items: Vec<FlatItem>,
    exprs: Vec<FlatExpr>,
    stmts: Vec<FlatStmt>,
    arms: Items<FlatArm>,
    left: Items<FlatLeft>,
    events: Items<FlatEvent>,
    /// Of each net whether the next item assigns it.
    assigned: Vec<bool>,
    /// The line of the next item.
    line: u32,
}

/// An expression without a sign.
fn unsigned(size: u32, node: FlatNode) -> FlatExpr {
    FlatExpr {
        size,
        signed: false,
        node,
    }
}

/// A number of so many bits, 64 at most.
fn constant(alloc: Global, value: u32, size: u32) -> Result<FlatExpr, AllocError> {
    let size = size.min(64);
    let bits = bits_of(alloc, value as u128, size)?;
    Ok(unsigned(size, FlatNode::Constant(bits)))
}

/// One or two numbers, with a colon between them; the second is 0 where there is one alone.
fn numbers(text: &[u8]) -> (u32, u32) {
    let mut first = 0u32;
    let mut second = 0u32;
    let mut both = false;
    for byte in text {
        if *byte == b':' {
            both = true;
        } else {
            let digit = byte.wrapping_sub(b'0') as u32;
            if both {
                second = second.wrapping_mul(10).wrapping_add(digit);
            } else {
                first = first.wrapping_mul(10).wrapping_add(digit);
            }
        }
    }
    (first, second)
}

/// The net of a word: `I` an input of the top, `H` a hidden one, `W` a wire, `R` a register, with its width and the place of its lowest bit.
fn net_kind(letter: u8) -> Option<NetKind> {
    match letter {
        b'I' => Some(NetKind::Input),
        b'H' => Some(NetKind::Hidden),
        b'W' => Some(NetKind::Wire),
        b'R' => Some(NetKind::Register),
        _ => None,
    }
}

fn binary(letter: u8) -> Option<FlatBinary> {
    match letter {
        b'&' => Some(FlatBinary::And),
        b'|' => Some(FlatBinary::Or),
        b'^' => Some(FlatBinary::Xor),
        b'+' => Some(FlatBinary::Add),
        b'*' => Some(FlatBinary::Mul),
        b'=' => Some(FlatBinary::Equal),
        b'<' => Some(FlatBinary::Less),
        b'y' => Some(FlatBinary::LogicalAnd),
        b'u' => Some(FlatBinary::ShiftLeft),
        _ => None,
    }
}

fn unary(letter: u8) -> Option<FlatUnary> {
    match letter {
        b'!' => Some(FlatUnary::LogicalNot),
        b'~' => Some(FlatUnary::Not),
        b'-' => Some(FlatUnary::Minus),
        b'p' => Some(FlatUnary::Parity),
        _ => None,
    }
}

/// The size of an operation on operands of a size.
fn size_of(op: FlatBinary, size: u32) -> u32 {
    match op {
        FlatBinary::Equal | FlatBinary::Less | FlatBinary::LogicalAnd => 1,
        _ => size,
    }
}

fn unary_size(op: FlatUnary, size: u32) -> u32 {
    match op {
        FlatUnary::Not | FlatUnary::Minus => size,
        _ => 1,
    }
}

fn edge(letter: u8) -> Option<FlatEdge> {
    match letter {
        b'r' => Some(FlatEdge::Rising),
        b'l' => Some(FlatEdge::Falling),
        b'v' => Some(FlatEdge::Either),
        _ => None,
    }
}

/// All bits count.
fn all_care(alloc: Global, size: u32) -> Result<Bits, AllocError> {
    let mut bits = Vec::new(alloc);
    for _bit in 0..size {
        bits.push(true)?;
    }
    Ok(Bits::from(bits))
}

impl Draft {
    pub fn new(alloc: Global) -> Draft {
        Draft {
            nets: Vec::new(alloc),
            items: Vec::new(alloc),
            exprs: Vec::new(alloc),
            stmts: Vec::new(alloc),
            arms: Items::new(alloc),
            left: Items::new(alloc),
            events: Items::new(alloc),
            assigned: Vec::new(alloc),
            line: 1,
        }
    }

    fn add_net(
        &mut self,
        alloc: Global,
        kind: NetKind,
        width: u32,
        lsb: u32,
    ) -> Result<(), AllocError> {
        let mut first = 0u32;
        for net in &self.nets {
            first = first.wrapping_add(net.width);
        }
        let name = b'a'.wrapping_add((self.nets.len() % 26) as u8);
        let path = text_of(alloc, &[name])?;
        self.nets.push(Net {
            path,
            width,
            lsb,
            first,
            kind,
            output: false,
        })?;
        self.assigned.push(false)?;
        Ok(())
    }

    /// Makes the last net an output.
    fn mark_output(&mut self) {
        if let Some(net) = self.nets.last_mut() {
            net.output = true;
        }
    }

    fn width_of(&self, number: u32) -> u32 {
        match self.nets.get(number as usize) {
            None => 0,
            Some(net) => net.width,
        }
    }

    fn pop(&mut self, alloc: Global) -> Result<FlatExpr, AllocError> {
        match self.exprs.pop() {
            None => constant(alloc, 0, 1),
            Some(expr) => Ok(expr),
        }
    }

    fn pop_stmt(&mut self, alloc: Global) -> FlatStmt {
        match self.stmts.pop() {
            None => FlatStmt::Block(Items::new(alloc)),
            Some(stmt) => stmt,
        }
    }

    fn add_unary(&mut self, alloc: Global, op: FlatUnary) -> Result<(), AllocError> {
        let arg = self.pop(alloc)?;
        let size = unary_size(op, arg.size);
        let arg = Boxed::new(alloc, arg)?;
        self.exprs
            .push(unsigned(size, FlatNode::Unary { op, arg }))?;
        Ok(())
    }

    fn add_binary(&mut self, alloc: Global, op: FlatBinary) -> Result<(), AllocError> {
        let right = self.pop(alloc)?;
        let left = self.pop(alloc)?;
        let size = size_of(op, left.size);
        let left = Boxed::new(alloc, left)?;
        let right = Boxed::new(alloc, right)?;
        self.exprs
            .push(unsigned(size, FlatNode::Binary { op, left, right }))?;
        Ok(())
    }

    fn add_choice(&mut self, alloc: Global) -> Result<(), AllocError> {
        let no = self.pop(alloc)?;
        let yes = self.pop(alloc)?;
        let test = self.pop(alloc)?;
        let size = yes.size;
        let test = Boxed::new(alloc, test)?;
        let yes = Boxed::new(alloc, yes)?;
        let no = Boxed::new(alloc, no)?;
        self.exprs
            .push(unsigned(size, FlatNode::Choice { test, yes, no }))?;
        Ok(())
    }

    fn add_join(&mut self, alloc: Global) -> Result<(), AllocError> {
        let low = self.pop(alloc)?;
        let high = self.pop(alloc)?;
        let size = high.size.wrapping_add(low.size);
        let mut parts = Items::new(alloc);
        parts.push(high)?;
        parts.push(low)?;
        self.exprs
            .push(unsigned(size, FlatNode::Join { count: 1, parts }))?;
        Ok(())
    }

    fn add_select(&mut self, alloc: Global, net: u32, width: u32) -> Result<(), AllocError> {
        let index = self.pop(alloc)?;
        let index = Boxed::new(alloc, index)?;
        self.exprs
            .push(unsigned(width, FlatNode::Select { net, index, width }))?;
        Ok(())
    }

    fn add_resize(&mut self, alloc: Global, size: u32) -> Result<(), AllocError> {
        let arg = self.pop(alloc)?;
        let arg = Boxed::new(alloc, arg)?;
        self.exprs.push(unsigned(
            size,
            FlatNode::Resize {
                arg,
                by_sign: false,
            },
        ))?;
        Ok(())
    }

    /// An expression: `n` a net, `k` a constant and its size, `x` a select of a net and its width after the index, `?` a choice, `,` a join
    /// of two, `z` a size; and the operators.
    fn add_expr(&mut self, alloc: Global, letter: u8, a: u32, b: u32) -> Result<(), AllocError> {
        if let Some(op) = unary(letter) {
            return self.add_unary(alloc, op);
        }
        if let Some(op) = binary(letter) {
            return self.add_binary(alloc, op);
        }
        match letter {
            b'n' => {
                let size = self.width_of(a);
                self.exprs.push(unsigned(size, FlatNode::Net(a)))?;
                Ok(())
            }
            b'k' => {
                let expr = constant(alloc, a, b)?;
                self.exprs.push(expr)?;
                Ok(())
            }
            b'x' => self.add_select(alloc, a, b),
            b'?' => self.add_choice(alloc),
            b',' => self.add_join(alloc),
            b'z' => self.add_resize(alloc, a),
            _ => Ok(()),
        }
    }

    /// A part of the next left side: the whole net.
    fn add_whole(&mut self, number: u32) -> Result<(), AllocError> {
        let width = self.width_of(number);
        self.add_part(number, None, width)
    }

    fn add_part(
        &mut self,
        net: u32,
        index: Option<FlatExpr>,
        width: u32,
    ) -> Result<(), AllocError> {
        self.left.push(FlatLeft { net, index, width })?;
        if let Some(mark) = self.assigned.get_mut(net as usize) {
            *mark = true;
        }
        Ok(())
    }

    fn take_left(&mut self, alloc: Global) -> Items<FlatLeft> {
        std::mem::replace(&mut self.left, Items::new(alloc))
    }

    fn assign(&mut self, alloc: Global, later: bool) -> Result<(), AllocError> {
        let value = self.pop(alloc)?;
        let left = self.take_left(alloc);
        self.stmts.push(FlatStmt::Assign { left, value, later })?;
        Ok(())
    }

    fn add_if(&mut self, alloc: Global, other: bool) -> Result<(), AllocError> {
        let mut no = None;
        if other {
            let stmt = self.pop_stmt(alloc);
            no = Some(Boxed::new(alloc, stmt)?);
        }
        let yes = self.pop_stmt(alloc);
        let yes = Boxed::new(alloc, yes)?;
        let test = self.pop(alloc)?;
        self.stmts.push(FlatStmt::If { test, yes, no })?;
        Ok(())
    }

    fn add_both(&mut self, alloc: Global) -> Result<(), AllocError> {
        let second = self.pop_stmt(alloc);
        let first = self.pop_stmt(alloc);
        let mut body = Items::new(alloc);
        body.push(first)?;
        body.push(second)?;
        self.stmts.push(FlatStmt::Block(body))?;
        Ok(())
    }

    fn add_arm(&mut self, alloc: Global) -> Result<(), AllocError> {
        let body = self.pop_stmt(alloc);
        let value = self.pop(alloc)?;
        let care = all_care(alloc, value.size)?;
        let mut labels = Items::new(alloc);
        labels.push(FlatLabel { value, care })?;
        self.arms.push(FlatArm { labels, body })?;
        Ok(())
    }

    fn add_case(&mut self, alloc: Global, default: bool) -> Result<(), AllocError> {
        let mut other = None;
        if default {
            let stmt = self.pop_stmt(alloc);
            other = Some(Boxed::new(alloc, stmt)?);
        }
        let arms = std::mem::replace(&mut self.arms, Items::new(alloc));
        let selector = self.pop(alloc)?;
        self.stmts.push(FlatStmt::Case {
            selector,
            arms,
            other,
        })?;
        Ok(())
    }

    /// A statement: `s` and `d` assign a value to a net at once and later, `j` and `t` put a net, or a select of it at an index with a width,
    /// to the next left side, `i` and `q` assign a value to that; `f` and `e` an `if` without and with `else`, `;` two statements, `.` none,
    /// `m` an arm of a label, `c` and `g` a case without and with a default.
    fn add_stmt(&mut self, alloc: Global, letter: u8, a: u32, b: u32) -> Result<(), AllocError> {
        match letter {
            b's' | b'd' => {
                self.add_whole(a)?;
                self.assign(alloc, letter == b'd')
            }
            b'j' => self.add_whole(a),
            b't' => {
                let index = self.pop(alloc)?;
                self.add_part(a, Some(index), b)
            }
            b'i' | b'q' => self.assign(alloc, letter == b'q'),
            b'f' | b'e' => self.add_if(alloc, letter == b'e'),
            b';' => self.add_both(alloc),
            b'.' => {
                self.stmts.push(FlatStmt::Block(Items::new(alloc)))?;
                Ok(())
            }
            b'm' => self.add_arm(alloc),
            b'c' | b'g' => self.add_case(alloc, letter == b'g'),
            _ => self.add_expr(alloc, letter, a, b),
        }
    }

    /// The nets that the next item assigns.
    fn take_targets(&mut self, alloc: Global) -> Result<Items<u32>, AllocError> {
        let mut targets = Items::new(alloc);
        let mut number = 0u32;
        for mark in &self.assigned {
            if *mark {
                targets.push(number)?;
            }
            number = number.wrapping_add(1);
        }
        for mark in self.assigned.iter_mut() {
            *mark = false;
        }
        Ok(targets)
    }

    fn take_place(&mut self) -> Place {
        let line = self.line;
        self.line = line.wrapping_add(1);
        Place {
            file: 0,
            line,
            column: 1,
        }
    }

    fn add_assignment(&mut self, alloc: Global, connection: bool) -> Result<(), AllocError> {
        let place = self.take_place();
        let targets = self.take_targets(alloc)?;
        let left = self.take_left(alloc);
        let value = self.pop(alloc)?;
        self.items.push(FlatItem::Assign {
            place,
            targets,
            left,
            value,
            connection,
        })?;
        Ok(())
    }

    fn add_process(&mut self, alloc: Global, clocked: bool) -> Result<(), AllocError> {
        let place = self.take_place();
        let targets = self.take_targets(alloc)?;
        let body = self.pop_stmt(alloc);
        let events = std::mem::replace(&mut self.events, Items::new(alloc));
        let item = if clocked {
            FlatItem::Clocked {
                place,
                targets,
                events,
                body,
            }
        } else {
            FlatItem::Comb {
                place,
                targets,
                body,
            }
        };
        self.items.push(item)?;
        Ok(())
    }

    /// An item: `A` assigns a value to a net, `C` connects a port, `B` assigns a value to the left side that is there; `r`, `l` and `v` are
    /// events of a net, `P` a combinational process, `K` a clocked one; `L` gives the line of the next item.
    fn add_item(&mut self, alloc: Global, letter: u8, a: u32, b: u32) -> Result<(), AllocError> {
        if let Some(edge) = edge(letter) {
            return self.events.push(FlatEvent { net: a, edge });
        }
        match letter {
            b'A' | b'C' => {
                self.add_whole(a)?;
                self.add_assignment(alloc, letter == b'C')
            }
            b'B' => self.add_assignment(alloc, false),
            b'P' | b'K' => self.add_process(alloc, letter == b'K'),
            b'L' => {
                self.line = a;
                Ok(())
            }
            b'o' => {
                self.mark_output();
                Ok(())
            }
            _ => self.add_stmt(alloc, letter, a, b),
        }
    }

    /// Reads a word: a letter with its numbers.
    pub fn read(&mut self, alloc: Global, word: &[u8]) -> Result<(), AllocError> {
        let [letter, rest @ ..] = word else {
            return Ok(());
        };
        let (a, b) = numbers(rest);
        match net_kind(*letter) {
            None => self.add_item(alloc, *letter, a, b),
            Some(kind) => self.add_net(alloc, kind, a, b),
        }
    }
}
