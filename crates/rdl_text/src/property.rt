//! The table of properties (SystemRDL 2.0, clauses 5.2 and 9 to 13: general, field, register and address map
//! properties), as far as this tool knows them.

ghost use Rattle.std.specs.Prelude.{◌≡◌};
ghost use Rattle.rdl_text.specs.Properties.{row_if, row_among, row_of, common_rows, access_rows, hardware_rows, counting_rows};
ghost use Rattle.rdl_text.specs.Lists.{or_else};

/// A property. `rclr` and `rset` are ways to write `onread`, `woclr` and `woset` ways to write `onwrite`.
#[derive(Clone, Copy, Debug, PartialEq, Eq, Drop)]
pub enum Property {
    Name,
    Desc,
    Addressing,
    Lsb0,
    Regwidth,
    Accesswidth,
    Encode,
    Fieldwidth,
    Reset,
    Sw,
    Hw,
    Onread,
    Onwrite,
    Precedence,
    Singlepulse,
    Swmod,
    Swacc,
    Anded,
    Ored,
    Xored,
    We,
    Wel,
    Hwset,
    Hwclr,
    Swwe,
    Swwel,
    Hwenable,
    Hwmask,
    Counter,
    Incrsaturate,
    Decrsaturate,
    Overflow,
    Underflow,
    Incr,
    Decr,
    Incrvalue,
    Decrvalue,
    Intr,
    Sticky,
    Stickybit,
    Enable,
    Mask,
}

/// Which components have a property.
#[derive(Clone, Copy, Debug, PartialEq, Eq, Drop)]
pub enum Owner {
    All,
    Addrmap,
    Reg,
    Field,
}

/// What a property's value may be.
#[derive(Clone, Copy, Debug, PartialEq, Eq, Drop)]
pub enum Form {
    /// A string.
    Text,
    /// The word `regalign`.
    Regalign,
    /// `true`, or nothing.
    True,
    /// 8, 16, 32, 64 or 128.
    RegWidth,
    /// 8, 16 or 32.
    AccessWidth,
    /// A name, which is not looked up.
    Name,
    /// 1 to 32.
    FieldWidth,
    /// A number.
    Number,
    /// A number that isn't 0.
    Step,
    /// `rw`, `wr`, `r`, `w`, `na`, `rw1` or `w1`.
    Sw,
    /// `rw`, `wr`, `r`, `w` or `na`.
    Hw,
    /// `rclr` or `rset`.
    OnRead,
    /// `woset`, `woclr`, `wot`, `wzs`, `wzc`, `wzt`, `wclr` or `wset`.
    OnWrite,
    /// `sw` or `hw`.
    Precedence,
    /// `true` or `false`, or nothing, which means `true`.
    Flag,
    /// As a flag, or a reference of one bit: a path to a field, alone or with `->anded`, `->ored` or `->xored`.
    FlagOrBit,
    /// A reference to a field, all of its bits.
    Whole,
}

/// A row of the table.
#[derive(Clone, Copy, Debug, PartialEq, Eq, Drop)]
pub struct Row {
    pub property: Property,
    pub owner: Owner,
    pub form: Form,
}

// The row where the name is this word.
fn row_if(name: &[u8], word: &[u8], row: Row) -> Option<Row>
    ensures { result ≡ row_if name.now word.now row }
{
    if name == word { Some(row) } else { None }
}

fn either(first: Option<Row>, other: Option<Row>) -> Option<Row>
    ensures { result ≡ or_else first other }
{
    match first {
        None => other,
        Some(row) => Some(row),
    }
}

// The first of the rows that has the name.
macro_rules! row_among {
    ($name:expr;) => { None };
    ($name:expr; $word:literal $property:ident $owner:ident $form:ident, $($rest:tt)*) => {
        either(
            row_if($name, $word.as_slice(), Row { property: Property::$property, owner: Owner::$owner, form: Form::$form }),
            row_among!($name; $($rest)*),
        )
    };
}

// The row of a property of any component, of an address map and of a register.
fn common_row(name: &[u8]) -> Option<Row>
    ensures { result ≡ row_among name.now common_rows }
{
    row_among!(name;
        b"name" Name All Text,
        b"desc" Desc All Text,
        b"addressing" Addressing Addrmap Regalign,
        b"lsb0" Lsb0 Addrmap True,
        b"regwidth" Regwidth Reg RegWidth,
        b"accesswidth" Accesswidth Reg AccessWidth,
    )
}

// The row of a property of a field: its place, and what software does to it.
fn access_row(name: &[u8]) -> Option<Row>
    ensures { result ≡ row_among name.now access_rows }
{
    row_among!(name;
        b"encode" Encode Field Name,
        b"fieldwidth" Fieldwidth Field FieldWidth,
        b"reset" Reset Field Number,
        b"sw" Sw Field Sw,
        b"hw" Hw Field Hw,
        b"onread" Onread Field OnRead,
        b"rclr" Onread Field Flag,
        b"rset" Onread Field Flag,
        b"onwrite" Onwrite Field OnWrite,
        b"woclr" Onwrite Field Flag,
        b"woset" Onwrite Field Flag,
        b"precedence" Precedence Field Precedence,
        b"singlepulse" Singlepulse Field Flag,
    )
}

// The row of a property of a field: what it shows to hardware, and what hardware does to it.
fn hardware_row(name: &[u8]) -> Option<Row>
    ensures { result ≡ row_among name.now hardware_rows }
{
    row_among!(name;
        b"swmod" Swmod Field Flag,
        b"swacc" Swacc Field Flag,
        b"anded" Anded Field Flag,
        b"ored" Ored Field Flag,
        b"xored" Xored Field Flag,
        b"we" We Field FlagOrBit,
        b"wel" Wel Field FlagOrBit,
        b"hwset" Hwset Field FlagOrBit,
        b"hwclr" Hwclr Field FlagOrBit,
        b"swwe" Swwe Field FlagOrBit,
        b"swwel" Swwel Field FlagOrBit,
        b"hwenable" Hwenable Field Whole,
        b"hwmask" Hwmask Field Whole,
    )
}

// The row of a property of a field that counts or interrupts.
fn counting_row(name: &[u8]) -> Option<Row>
    ensures { result ≡ row_among name.now counting_rows }
{
    row_among!(name;
        b"counter" Counter Field Flag,
        b"incrsaturate" Incrsaturate Field Flag,
        b"decrsaturate" Decrsaturate Field Flag,
        b"overflow" Overflow Field Flag,
        b"underflow" Underflow Field Flag,
        b"incr" Incr Field FlagOrBit,
        b"decr" Decr Field FlagOrBit,
        b"incrvalue" Incrvalue Field Step,
        b"decrvalue" Decrvalue Field Step,
        b"intr" Intr Field Flag,
        b"sticky" Sticky Field Flag,
        b"stickybit" Stickybit Field Flag,
        b"enable" Enable Field Whole,
        b"mask" Mask Field Whole,
    )
}

/// The row of the property of this name, where it is one.
#[tactic(auto, unfolding(crate::specs::Properties::row_of))]
pub fn row_of(name: &[u8]) -> Option<Row>
    ensures { result ≡ row_of name.now }
{
    either(
        common_row(name),
        either(
            access_row(name),
            either(hardware_row(name), counting_row(name)),
        ),
    )
}
