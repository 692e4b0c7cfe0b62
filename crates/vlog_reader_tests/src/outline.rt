//! Trees as short texts, for tests.

use std::alloc::Global;
use std::test::Fail;
use vlog_tree::fault::VlogFault;
use vlog_tree::token::VToken;
use vlog_tree::tree_expressions::{VExpr, VLval, VNextExpr, VPrim, VSelect};
use vlog_tree::tree_modules::{VConns, VGbody, VInstance, VMitem, VlogFile};
use vlog_tree::tree_statements::{VCitem, VEvent, VStmt};

/// A text of so many bytes at most; what goes over is left out.
#[derive(Drop)]
pub struct Outline {
    bytes: Vec<u8>,
    len: usize,
}

impl Outline {
    fn new(alloc: Global) -> Result<Outline, Fail> {
        Ok(Outline {
            bytes: vec![in alloc; 0; 4096]?,
            len: 0,
        })
    }

    fn put(&mut self, text: &[u8]) {
        for byte in text {
            if self.len < self.bytes.len() {
                self.bytes[self.len] = *byte;
                self.len += 1;
            }
        }
    }

    /// The last digit of the number.
    fn put_digit(&mut self, number: usize) {
        self.put(&[b'0' + (number % 10) as u8]);
    }

    fn text(&self, alloc: Global) -> Result<String, Fail> {
        match self.bytes.get(..self.len) {
            None => Ok(String::new(alloc)),
            Some(bytes) => Ok(String::from_str(alloc, std::str::from_utf8(bytes)?)?),
        }
    }
}

fn show(out: &mut Outline, token: &VToken) {
    out.put(token.text.as_bytes());
}

/// An expression, each operator with its operands in brackets, and brackets of the text as `<` and `>`.
#[cycle(shown)]
fn show_expr(out: &mut Outline, expr: &VExpr) {
    match expr {
        VExpr::Prim(prim) => show_prim(out, prim.get()),
        VExpr::Unary(operator, operand) => {
            out.put(b"(");
            show(out, operator);
            show_expr(out, operand.get());
            out.put(b")");
        }
        VExpr::Binary(left, operator, right) => {
            out.put(b"(");
            show_expr(out, left.get());
            show(out, operator);
            show_expr(out, right.get());
            out.put(b")");
        }
        VExpr::Choice(test, _, yes, _, no) => {
            out.put(b"(");
            show_expr(out, test.get());
            out.put(b"?");
            show_expr(out, yes.get());
            out.put(b":");
            show_expr(out, no.get());
            out.put(b")");
        }
    }
}

#[cycle(shown)]
fn show_more(out: &mut Outline, more: &[VNextExpr]) {
    for next in more {
        out.put(b",");
        show_expr(out, &next.expr);
    }
}

#[cycle(shown)]
fn show_select(out: &mut Outline, select: &VSelect) {
    match select {
        VSelect::Bit(_, index, _) => show_expr(out, index.get()),
        VSelect::Range(_, high, _, low, _) => {
            show_expr(out, high.get());
            out.put(b":");
            show_expr(out, low.get());
        }
        VSelect::Upward(_, low, _, width, _) => {
            show_expr(out, low.get());
            out.put(b"+:");
            show_expr(out, width.get());
        }
    }
}

#[cycle(shown)]
fn show_prim(out: &mut Outline, prim: &VPrim) {
    match prim {
        VPrim::Number(number) => show(out, number),
        VPrim::Name(name, None) => show(out, name),
        VPrim::Name(name, Some(select)) => {
            show(out, name);
            out.put(b"[");
            show_select(out, select);
            out.put(b"]");
        }
        VPrim::Group(_, expr, _) => {
            out.put(b"<");
            show_expr(out, expr.get());
            out.put(b">");
        }
        VPrim::Join(_, first, more, _) => {
            out.put(b"{");
            show_expr(out, first.get());
            show_more(out, more.as_slice());
            out.put(b"}");
        }
        VPrim::Repeat(_, count, _, first, more, _, _) => {
            out.put(b"{");
            show_expr(out, count.get());
            out.put(b"{");
            show_expr(out, first.get());
            show_more(out, more.as_slice());
            out.put(b"}}");
        }
        VPrim::Call(function, _, expr, _) => {
            show(out, function);
            show_expr(out, expr.get());
        }
    }
}

fn show_lval(out: &mut Outline, lval: &VLval) {
    match lval {
        VLval::Name(name, None) => show(out, name),
        VLval::Name(name, Some(select)) => {
            show(out, name);
            out.put(b"[");
            show_select(out, select);
            out.put(b"]");
        }
        VLval::Join(_, first, more, _) => {
            out.put(b"{");
            show_lval(out, first.get());
            for next in more.as_slice() {
                out.put(b",");
                show_lval(out, &next.lval);
            }
            out.put(b"}");
        }
    }
}

/// A statement: a block in `[ ]`, an `if` as `?`, its test and its branches in `{ }`.
#[cycle(stated)]
fn show_stmt(out: &mut Outline, stmt: &VStmt) {
    match stmt {
        VStmt::Empty(_) => out.put(b";"),
        VStmt::Block(_, label, stmts, _) => {
            if let Some(label) = label {
                show(out, &label.name);
            }
            out.put(b"[");
            for stmt in stmts.as_slice() {
                show_stmt(out, stmt);
            }
            out.put(b"]");
        }
        VStmt::Assign(left, mark, value, _) => {
            show_lval(out, left.get());
            show(out, mark);
            show_expr(out, value.get());
            out.put(b";");
        }
        VStmt::If(head, branch, other) => {
            out.put(b"?");
            show_expr(out, head.get().test.get());
            out.put(b"{");
            show_stmt(out, branch.get());
            out.put(b"}");
            if let Some(other) = other {
                out.put(b"{");
                show_stmt(out, other.stmt.get());
                out.put(b"}");
            }
        }
        VStmt::Case(word, _, selector, _, items, _) => {
            show(out, word);
            out.put(b" ");
            show_expr(out, selector.get());
            out.put(b"[");
            for item in items.as_slice() {
                show_citem(out, item);
            }
            out.put(b"]");
        }
    }
}

#[cycle(stated)]
fn show_citem(out: &mut Outline, item: &VCitem) {
    match item {
        VCitem::Labels(first, more, _, stmt) => {
            show_expr(out, first);
            show_more(out, more.as_slice());
            out.put(b":");
            show_stmt(out, stmt);
        }
        VCitem::Default(_, _, stmt) => {
            out.put(b"default:");
            show_stmt(out, stmt);
        }
    }
}

/// The number of events.
fn show_event(out: &mut Outline, event: &VEvent) {
    let count = match event {
        VEvent::Any(_) | VEvent::AnyInBrackets(..) => 0,
        VEvent::Listed(_, _, more, _) => more.len().saturating_add(1),
    };
    out.put(b"@");
    out.put_digit(count);
    out.put(b" ");
}

fn show_instance(out: &mut Outline, instance: &VInstance) {
    show(out, &instance.module_name);
    if instance.overrides.is_some() {
        out.put(b"#");
    }
    let (is_named, count) = match &instance.conns {
        None => (false, 0),
        Some(conns) => match conns.get() {
            VConns::Ordered(_, more) => (false, more.len().saturating_add(1)),
            VConns::Named(_, more) => (true, more.len().saturating_add(1)),
        },
    };
    out.put(b"(");
    if is_named {
        out.put(b".");
    }
    out.put_digit(count);
    out.put(b")");
}

/// The sort of an item that declares or assigns, and how many stand behind the first.
fn show_sort(out: &mut Outline, sort: &[u8], more: usize) {
    out.put(sort);
    out.put_digit(more);
    out.put(b" ");
}

/// An item: its sort, how many it declares or assigns behind the first, and its expressions and statements.
#[cycle(listed)]
fn show_item(out: &mut Outline, item: &VMitem) {
    match item {
        VMitem::Ports(_, _, more, _) => show_sort(out, b"P", more.len()),
        VMitem::Nets(_, _, first, more, _) => {
            show_sort(out, b"N", more.len());
            if let Some(value) = &first.value {
                show_expr(out, value.value.get());
            }
        }
        VMitem::Constants(_, _, first, more, _) => {
            show_sort(out, b"C", more.len());
            show_expr(out, first.value.get());
        }
        VMitem::Genvars(_, _, more, _) => show_sort(out, b"G", more.len()),
        VMitem::Assigns(_, first, more, _) => {
            show_sort(out, b"A", more.len());
            show_lval(out, first.left.get());
            out.put(b"=");
            show_expr(out, first.value.get());
        }
        VMitem::Always(_, _, event, stmt) => {
            show_event(out, event);
            show_stmt(out, stmt.get());
        }
        VMitem::Initial(_, stmt) => {
            out.put(b"I ");
            show_stmt(out, stmt.get());
        }
        VMitem::Generate(_, items, _) => show_items(out, items.as_slice()),
        VMitem::Instance(instance) => show_instance(out, instance),
        VMitem::For(head, body) => {
            out.put(b"F ");
            show_expr(out, head.test.get());
            show_body(out, body.get());
        }
        VMitem::If(head, branch, other) => {
            out.put(b"?");
            show_expr(out, head.test.get());
            show_body(out, branch.get());
            if let Some(other) = other {
                show_body(out, other.body.get());
            }
        }
    }
}

#[cycle(listed)]
fn show_items(out: &mut Outline, items: &[VMitem]) {
    out.put(b"[");
    for item in items {
        show_item(out, item);
        out.put(b".");
    }
    out.put(b"]");
}

#[cycle(listed)]
fn show_body(out: &mut Outline, body: &VGbody) {
    match body {
        VGbody::Item(item) => {
            out.put(b"{");
            show_item(out, item);
            out.put(b"}");
        }
        VGbody::Block(_, _, items, _) => show_items(out, items.as_slice()),
    }
}

/// The modules: each by its name and its items.
pub fn show_file(alloc: Global, file: &VlogFile) -> Result<String, Fail> {
    let mut out = Outline::new(alloc)?;
    for module in file.modules.as_slice() {
        show(&mut out, &module.name);
        show_items(&mut out, module.items.as_slice());
    }
    out.text(alloc)
}

/// The code of a refusal and its line and column.
pub fn show_fault(alloc: Global, fault: &VlogFault) -> Result<String, Fail> {
    match fault {
        VlogFault::NoMemory => Ok(String::from_str(alloc, "NoMemory")?),
        VlogFault::At { code, place, .. } => {
            let (line, column) = (place.line, place.column);
            Ok(format!(in alloc; "{code:?} {line}:{column}")?)
        }
    }
}
