//! The lines of one register, and those of all.

ghost use Rattle.std.specs.Prelude.{◌≡◌, ◌<◌, ◌≤◌, ◌++◌, IfOk, OnOk};
ghost use Rattle.sample_blocks.specs.SampleTexts.{description_line, field_of, kind_of, pins_line, port_line, process_line, read_line, section_line, section_of, select_line, taken_of};

use crate::joined::joined_texts;
use crate::kind::Kind;
use crate::section::Section;
use std::alloc::{AllocError, Global};
use std::string::ToString;
use std::vec::Vec;

fn kind_of(i: u64) -> Kind
    ensures { result ≡ kind_of i }
{
    match i % 4 {
        0 => Kind::Storage,
        1 => Kind::Status,
        2 => Kind::Data,
        _ => Kind::Pulse,
    }
}

fn field(kind: Kind) -> &'static [u8]
    ensures { result.now ≡ field_of kind }
{
    match kind {
        Kind::Storage => b"sw=rw; hw=r; } f[8]".as_slice(),
        Kind::Status => b"sw=rw; hw=r; onwrite=woclr; hwset; } f".as_slice(),
        Kind::Data => b"sw=r; hw=w; we; onread=rclr; } f[8]".as_slice(),
        Kind::Pulse => b"sw=rw; hw=r; singlepulse; } f".as_slice(),
    }
}

fn description<'a>(
    alloc: Global,
    field: &'a [u8],
    n: &'a [u8],
    address: &'a [u8],
) -> Result<Vec<u8>, AllocError>
    ensures { IfOk result (λ line. line.items ≡ description_line field.now n.now address.now) }
{
    joined_texts(
        alloc,
        &[
            b" reg { field { ",
            field,
            b" = 0; } r",
            n,
            b" @ ",
            address,
            b";\n",
        ],
    )
}

fn pins(alloc: Global, kind: Kind, n: &[u8]) -> Result<Vec<u8>, AllocError>
    ensures { IfOk result (λ line. line.items ≡ pins_line kind n.now) }
{
    match kind {
        Kind::Storage | Kind::Pulse => joined_texts(alloc, &[b"out r", n, b".f r", n, b"\n"]),
        Kind::Status => joined_texts(
            alloc,
            &[
                b"in r",
                n,
                b".f->hwset s",
                n,
                b"\nout r",
                n,
                b".f r",
                n,
                b"\n",
            ],
        ),
        Kind::Data => joined_texts(
            alloc,
            &[b"in r", n, b".f d", n, b"\nin r", n, b".f->we w", n, b"\n"],
        ),
    }
}

fn port(alloc: Global, kind: Kind, n: &[u8]) -> Result<Vec<u8>, AllocError>
    ensures { IfOk result (λ line. line.items ≡ port_line kind n.now) }
{
    match kind {
        Kind::Storage => joined_texts(alloc, &[b", output reg [7:0] r", n, b"\n"]),
        Kind::Status => joined_texts(alloc, &[b", input s", n, b", output reg r", n, b"\n"]),
        Kind::Data => joined_texts(
            alloc,
            &[
                b", input w",
                n,
                b", input [7:0] d",
                n,
                b", output reg [7:0] r",
                n,
                b"\n",
            ],
        ),
        Kind::Pulse => joined_texts(alloc, &[b", output reg r", n, b"\n"]),
    }
}

fn select<'a>(alloc: Global, n: &'a [u8], address: &'a [u8]) -> Result<Vec<u8>, AllocError>
    ensures { IfOk result (λ line. line.items ≡ select_line n.now address.now) }
{
    joined_texts(
        alloc,
        &[
            b"wire at",
            n,
            b" = psel & penable & (paddr == 8'd",
            address,
            b");\n",
        ],
    )
}

fn read(alloc: Global, n: &[u8]) -> Result<Vec<u8>, AllocError>
    ensures { IfOk result (λ line. line.items ≡ read_line n.now) }
{
    joined_texts(alloc, &[b" | (at", n, b" ? r", n, b" : 32'd0)\n"])
}

fn taken(alloc: Global, kind: Kind, n: &[u8]) -> Result<Vec<u8>, AllocError>
    ensures { IfOk result (λ line. line.items ≡ taken_of kind n.now) }
{
    match kind {
        Kind::Storage => joined_texts(
            alloc,
            &[b"if (at", n, b" & pwrite) r", n, b" <= pwdata[7:0];\n"],
        ),
        Kind::Status => joined_texts(
            alloc,
            &[
                b"if (at",
                n,
                b" & pwrite) r",
                n,
                b" <= r",
                n,
                b" & ~pwdata[0]; else if (s",
                n,
                b") r",
                n,
                b" <= 1'b1;\n",
            ],
        ),
        Kind::Data => joined_texts(
            alloc,
            &[
                b"if (at",
                n,
                b" & ~pwrite) r",
                n,
                b" <= 0; else if (w",
                n,
                b") r",
                n,
                b" <= d",
                n,
                b";\n",
            ],
        ),
        Kind::Pulse => joined_texts(alloc, &[b"r", n, b" <= at", n, b" & pwrite & pwdata[0];\n"]),
    }
}

fn process(alloc: Global, kind: Kind, n: &[u8]) -> Result<Vec<u8>, AllocError>
    ensures { IfOk result (λ line. line.items ≡ process_line kind n.now) }
{
    let taken = taken(alloc, kind, n)?;
    joined_texts(
        alloc,
        &[
            b"always @(posedge clk or negedge rst_n) if (!rst_n) r",
            n,
            b" <= 0; else ",
            &taken,
        ],
    )
}

/// The lines of register i in a section.
fn section_line(alloc: Global, section: Section, i: u64) -> Result<Vec<u8>, AllocError>
    requires { i < 64 }
    ensures { IfOk result (λ line. line.items ≡ section_line section i) }
{
    let kind = kind_of(i);
    let number = i.to_string(alloc)?;
    let address = (4 * i).to_string(alloc)?;
    let n = number.as_bytes();
    match section {
        Section::Description => description(alloc, field(kind), n, address.as_bytes()),
        Section::Pins => pins(alloc, kind, n),
        Section::Ports => port(alloc, kind, n),
        Section::Selects => select(alloc, n, address.as_bytes()),
        Section::Reads => read(alloc, n),
        Section::Processes => process(alloc, kind, n),
    }
}

/// The lines of so many registers in a section.
pub fn section_lines(alloc: Global, section: Section, count: u64) -> Result<Vec<u8>, AllocError>
    requires { count ≤ 64 }
    ensures { IfOk result (λ text. text.items ≡ section_of section count) }
{
    let mut text = Vec::new(alloc);
    for i in 0..count {
        let line = section_line(alloc, section, i)?;
        text.extend_from_slice(&line)?;
    }
    Ok(text)
}
