//! Trees of modules and their items (IEEE 1364-2005, clause 12 and A.1 to A.4).
//!
//! ```text
//! source = {module}
//! module = "module" NAME ["#" "(" pdec {"," pdec} ")"] ["(" [ports] ")"] ";" {mitem} "endmodule"
//! pdec   = ["parameter"] type NAME "=" expr
//! ports  = NAME {"," NAME} | dir [kind] type NAME {"," [dir [kind] type] NAME}
//! dir    = "input" | "output"
//! kind   = "wire" | "reg"
//! type   = ["signed"] [range]
//! range  = "[" expr ":" expr "]"
//! mitem  = dir [kind] type NAME {"," NAME} ";" | kind type NAME ["=" expr] {"," NAME ["=" expr]} ";"
//!        | ("parameter" | "localparam") type NAME "=" expr {"," NAME "=" expr} ";"
//!        | "genvar" NAME {"," NAME} ";" | "assign" lval "=" expr {"," lval "=" expr} ";"
//!        | "always" "@" event stmt | "initial" stmt | "generate" {mitem} "endgenerate"
//!        | NAME ["#" "(" conns ")"] NAME "(" [conns] ")" ";"
//!        | "for" "(" NAME "=" expr ";" expr ";" NAME "=" expr ")" gbody
//!        | "if" "(" expr ")" gbody ["else" gbody]
//! gbody  = mitem | "begin" [":" NAME] {mitem} "end"
//! conns  = expr {"," expr} | "." NAME "(" [expr] ")" {"," "." NAME "(" [expr] ")"}
//! ```

use crate::token::VToken;
use crate::tree_expressions::{VExpr, VLval, VNextExpr};
use crate::tree_statements::{VEvent, VIfHead, VLabel, VStmt};
use sqlite_items::{Boxed, Items};

/// `{module}`
#[derive(Drop)]
pub struct VlogFile {
    pub modules: Items<VModule>,
}

/// `"module" NAME ["#" "(" pdec {"," pdec} ")"] ["(" [ports] ")"] ";" {mitem} "endmodule"`
#[derive(Drop)]
pub struct VModule {
    pub word: VToken,
    pub name: VToken,
    pub parameters: Option<VPdecs>,
    pub ports: Option<VPortList>,
    pub semi: VToken,
    pub items: Items<VMitem>,
    pub end: VToken,
}

/// `"#" "(" pdec {"," pdec} ")"`
#[derive(Drop)]
pub struct VPdecs {
    pub hash: VToken,
    pub open: VToken,
    pub first: VPdec,
    pub more: Items<VNextPdec>,
    pub close: VToken,
}

/// `["parameter"] type NAME "=" expr`
#[derive(Drop)]
pub struct VPdec {
    pub word: Option<VToken>,
    pub shape: VType,
    pub constant: VConstant,
}

/// `"," pdec`
#[derive(Drop)]
pub struct VNextPdec {
    pub comma: VToken,
    pub pdec: VPdec,
}

/// `"(" [ports] ")"`
#[derive(Drop)]
pub struct VPortList {
    pub open: VToken,
    pub ports: Option<VPorts>,
    pub close: VToken,
}

/// `NAME {"," NAME} | dir [kind] type NAME {"," [dir [kind] type] NAME}`
#[derive(Drop)]
pub enum VPorts {
    Names(VToken, Items<VNextName>),
    Declared(VPortHead, VToken, Items<VNextPort>),
}

/// `dir [kind] type`
#[derive(Drop)]
pub struct VPortHead {
    pub dir: VDir,
    pub kind: Option<VKind>,
    pub shape: VType,
}

/// `"," [dir [kind] type] NAME`
#[derive(Drop)]
pub struct VNextPort {
    pub comma: VToken,
    pub head: Option<VPortHead>,
    pub name: VToken,
}

/// `"," NAME`
#[derive(Drop)]
pub struct VNextName {
    pub comma: VToken,
    pub name: VToken,
}

/// `"input" | "output"`
#[derive(Drop)]
pub enum VDir {
    Input(VToken),
    Output(VToken),
}

/// `"wire" | "reg"`
#[derive(Drop)]
pub enum VKind {
    Wire(VToken),
    Reg(VToken),
}

/// `["signed"] [range]`
#[derive(Drop)]
pub struct VType {
    pub signed: Option<VToken>,
    pub range: Option<Boxed<VRange>>,
}

/// `"[" expr ":" expr "]"`
#[derive(Drop)]
pub struct VRange {
    pub open: VToken,
    pub high: VExpr,
    pub colon: VToken,
    pub low: VExpr,
    pub close: VToken,
}

/// `NAME ["=" expr]`
#[derive(Drop)]
pub struct VNet {
    pub name: VToken,
    pub value: Option<VAssigned>,
}

/// `"=" expr`
#[derive(Drop)]
pub struct VAssigned {
    pub equals: VToken,
    pub value: Boxed<VExpr>,
}

/// `"," NAME ["=" expr]`
#[derive(Drop)]
pub struct VNextNet {
    pub comma: VToken,
    pub net: VNet,
}

/// `NAME "=" expr`
#[derive(Drop)]
pub struct VConstant {
    pub name: VToken,
    pub equals: VToken,
    pub value: Boxed<VExpr>,
}

/// `"," NAME "=" expr`
#[derive(Drop)]
pub struct VNextConstant {
    pub comma: VToken,
    pub constant: VConstant,
}

/// `lval "=" expr`
#[derive(Drop)]
pub struct VDriver {
    pub left: Boxed<VLval>,
    pub equals: VToken,
    pub value: Boxed<VExpr>,
}

/// `"," lval "=" expr`
#[derive(Drop)]
pub struct VNextDriver {
    pub comma: VToken,
    pub driver: VDriver,
}

/// `expr {"," expr} | "." NAME "(" [expr] ")" {"," "." NAME "(" [expr] ")"}`
#[derive(Drop)]
pub enum VConns {
    Ordered(VExpr, Items<VNextExpr>),
    Named(VConn, Items<VNextConn>),
}

/// `"." NAME "(" [expr] ")"`
#[derive(Drop)]
pub struct VConn {
    pub dot: VToken,
    pub name: VToken,
    pub open: VToken,
    pub value: Option<VExpr>,
    pub close: VToken,
}

/// `"," "." NAME "(" [expr] ")"`
#[derive(Drop)]
pub struct VNextConn {
    pub comma: VToken,
    pub conn: VConn,
}

/// `"#" "(" conns ")"`
#[derive(Drop)]
pub struct VOverrides {
    pub hash: VToken,
    pub open: VToken,
    pub conns: VConns,
    pub close: VToken,
}

/// `NAME ["#" "(" conns ")"] NAME "(" [conns] ")" ";"`
#[derive(Drop)]
pub struct VInstance {
    pub module_name: VToken,
    pub overrides: Option<Boxed<VOverrides>>,
    pub name: VToken,
    pub open: VToken,
    pub conns: Option<Boxed<VConns>>,
    pub close: VToken,
    pub semi: VToken,
}

/// `"for" "(" NAME "=" expr ";" expr ";" NAME "=" expr ")"`
#[derive(Drop)]
pub struct VForHead {
    pub word: VToken,
    pub open: VToken,
    pub start: Boxed<VConstant>,
    pub first_semi: VToken,
    pub test: Boxed<VExpr>,
    pub second_semi: VToken,
    pub step: Boxed<VConstant>,
    pub close: VToken,
}

/// An item of a module, as the row `mitem` above.
#[cycle(mitem)]
#[derive(Drop)]
pub enum VMitem {
    Ports(VPortHead, VToken, Items<VNextName>, VToken),
    Nets(VKind, VType, VNet, Items<VNextNet>, VToken),
    Constants(VToken, VType, VConstant, Items<VNextConstant>, VToken),
    Genvars(VToken, VToken, Items<VNextName>, VToken),
    Assigns(VToken, VDriver, Items<VNextDriver>, VToken),
    Always(VToken, VToken, VEvent, Boxed<VStmt>),
    Initial(VToken, Boxed<VStmt>),
    Generate(VToken, Items<VMitem>, VToken),
    Instance(VInstance),
    For(VForHead, Boxed<VGbody>),
    If(VIfHead, Boxed<VGbody>, Option<VGelse>),
}

/// `mitem | "begin" [":" NAME] {mitem} "end"`
#[cycle(mitem)]
#[derive(Drop)]
pub enum VGbody {
    Item(VMitem),
    Block(VToken, Option<VLabel>, Items<VMitem>, VToken),
}

/// `"else" gbody`
#[cycle(mitem)]
#[derive(Drop)]
pub struct VGelse {
    pub word: VToken,
    pub body: Boxed<VGbody>,
}
