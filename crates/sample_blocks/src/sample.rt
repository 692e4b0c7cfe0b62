//! The three texts of a block.

ghost use Rattle.std.specs.Prelude.{◌≡◌, ◌<◌, ◌≤◌, ◌⊎◌, ◌↔◌, IfOk};
ghost use Rattle.sample_blocks.specs.SampleTexts.{description_text, ports_text, block_text};

use crate::joined::joined_texts;
use crate::lines::section_lines;
use crate::section::Section;
use std::alloc::{AllocError, Global};
use std::vec::Vec;
use thiserror::Error;

/// The texts of a sample block.
#[derive(Debug, Drop)]
pub struct Sample {
    /// Its description.
    pub rdl: Vec<u8>,
    /// Its ports file.
    pub ports: Vec<u8>,
    /// Its Verilog.
    pub verilog: Vec<u8>,
}

/// Why there is no sample block.
#[derive(Debug, PartialEq, Eq, Drop, Error)]
pub enum SampleFault {
    /// There are samples of 1 to 64 registers alone.
    #[error("there are samples of 1 to 64 registers alone")]
    SampleRange,
    /// Memory ran out.
    #[error("no memory")]
    NoMemory,
}

impl From<AllocError> for SampleFault {
    ghost use Rattle.std.specs.Prelude.{◌≡◌};
    ghost use Rattle.sample_blocks.specs.declared.sample.SampleFault.TheVariants.{NoMemory};

    ghost from_gives = { λ _ fault. fault ≡ NoMemory };

    fn from(_: AllocError) -> SampleFault {
        SampleFault::NoMemory
    }
}

fn description(alloc: Global, count: u64) -> Result<Vec<u8>, AllocError>
    requires { count ≤ 64 }
    ensures { IfOk result (λ text. text.items ≡ description_text count) }
{
    let registers = section_lines(alloc, Section::Description, count)?;
    joined_texts(alloc, &[b"addrmap s {\n", &registers, b"};\n"])
}

fn ports(alloc: Global, count: u64) -> Result<Vec<u8>, AllocError>
    requires { count ≤ 64 }
    ensures { IfOk result (λ text. text.items ≡ ports_text count) }
{
    let pins = section_lines(alloc, Section::Pins, count)?;
    joined_texts(
        alloc,
        &[
            b"clock clk\nreset rst_n low 1\npsel psel\npenable penable\npwrite pwrite\npaddr paddr\npwdata pwdata\n",
            b"prdata prdata\npready pready\npslverr pslverr\nwait 0\nunmapped zero\n",
            &pins,
        ],
    )
}

fn verilog(alloc: Global, count: u64) -> Result<Vec<u8>, AllocError>
    requires { count ≤ 64 }
    ensures { IfOk result (λ text. text.items ≡ block_text count) }
{
    let ports = section_lines(alloc, Section::Ports, count)?;
    let selects = section_lines(alloc, Section::Selects, count)?;
    let reads = section_lines(alloc, Section::Reads, count)?;
    let processes = section_lines(alloc, Section::Processes, count)?;
    joined_texts(
        alloc,
        &[
            b"module s(input clk, input rst_n, input psel, input penable, input pwrite, input [7:0] paddr, ",
            b"input [31:0] pwdata, output [31:0] prdata, output pready, output pslverr\n",
            &ports,
            b");\nassign pready = 1'b1;\nassign pslverr = 1'b0;\n",
            &selects,
            b"assign prdata = 32'd0\n",
            &reads,
            b";\n",
            &processes,
            b"endmodule\n",
        ],
    )
}

/// The sample block of so many registers, one a bus word.
pub fn make_block(alloc: Global, n: u64) -> Result<Sample, SampleFault>
    ensures rdl { IfOk result (λ sample. sample.rdl.items ≡ description_text n) }
    ensures ports { IfOk result (λ sample. sample.ports.items ≡ ports_text n) }
    ensures verilog { IfOk result (λ sample. sample.verilog.items ≡ block_text n) }
    ensures range { (result ≡ Err SampleFault.SampleRange) ↔ ((n ≡ 0) ⊎ (64 < n)) }
{
    if n == 0 || n > 64 {
        return Err(SampleFault::SampleRange);
    }
    Ok(Sample {
        rdl: description(alloc, n)?,
        ports: ports(alloc, n)?,
        verilog: verilog(alloc, n)?,
    })
}
