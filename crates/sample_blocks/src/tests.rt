use crate::sample::{SampleFault, make_block};
use std::test::Fail;

/// The texts of a block of four registers, one of each kind.
const RDL: &[u8] = b"addrmap s {\n\
\x20reg { field { sw=rw; hw=r; } f[8] = 0; } r0 @ 0;\n\
\x20reg { field { sw=rw; hw=r; onwrite=woclr; hwset; } f = 0; } r1 @ 4;\n\
\x20reg { field { sw=r; hw=w; we; onread=rclr; } f[8] = 0; } r2 @ 8;\n\
\x20reg { field { sw=rw; hw=r; singlepulse; } f = 0; } r3 @ 12;\n\
};\n\
";

const PORTS: &[u8] = b"clock clk\n\
reset rst_n low 1\n\
psel psel\n\
penable penable\n\
pwrite pwrite\n\
paddr paddr\n\
pwdata pwdata\n\
prdata prdata\n\
pready pready\n\
pslverr pslverr\n\
wait 0\n\
unmapped zero\n\
out r0.f r0\n\
in r1.f->hwset s1\n\
out r1.f r1\n\
in r2.f d2\n\
in r2.f->we w2\n\
out r3.f r3\n\
";

const VERILOG: &[u8] =
    b"module s(input clk, input rst_n, input psel, input penable, input pwrite, input [7:0] paddr, input [31:0] pwdata, output [31:0] prdata, output pready, output pslverr\n\
, output reg [7:0] r0\n\
, input s1, output reg r1\n\
, input w2, input [7:0] d2, output reg [7:0] r2\n\
, output reg r3\n\
);\n\
assign pready = 1'b1;\n\
assign pslverr = 1'b0;\n\
wire at0 = psel & penable & (paddr == 8'd0);\n\
wire at1 = psel & penable & (paddr == 8'd4);\n\
wire at2 = psel & penable & (paddr == 8'd8);\n\
wire at3 = psel & penable & (paddr == 8'd12);\n\
assign prdata = 32'd0\n\
\x20| (at0 ? r0 : 32'd0)\n\
\x20| (at1 ? r1 : 32'd0)\n\
\x20| (at2 ? r2 : 32'd0)\n\
\x20| (at3 ? r3 : 32'd0)\n\
;\n\
always @(posedge clk or negedge rst_n) if (!rst_n) r0 <= 0; else if (at0 & pwrite) r0 <= pwdata[7:0];\n\
always @(posedge clk or negedge rst_n) if (!rst_n) r1 <= 0; else if (at1 & pwrite) r1 <= r1 & ~pwdata[0]; else if (s1) r1 <= 1'b1;\n\
always @(posedge clk or negedge rst_n) if (!rst_n) r2 <= 0; else if (at2 & ~pwrite) r2 <= 0; else if (w2) r2 <= d2;\n\
always @(posedge clk or negedge rst_n) if (!rst_n) r3 <= 0; else r3 <= at3 & pwrite & pwdata[0];\n\
endmodule\n\
";

#[test]
fn a_block_of_each_kind_of_register(rt: HostRuntime) -> Result<(), Fail> {
    let sample = make_block(rt.alloc(), 4)?;
    assert_eq!(rt; sample.rdl.as_slice(), RDL);
    assert_eq!(rt; sample.ports.as_slice(), PORTS);
    assert_eq!(rt; sample.verilog.as_slice(), VERILOG);
    Ok(())
}

/// There are blocks of 1 to 64 registers; the lengths of the texts of the smallest and the largest
/// were counted by a script of another language that follows the definition.
#[test]
fn blocks_have_1_to_64_registers(rt: HostRuntime) -> Result<(), Fail> {
    for n in [0, 65, u64::MAX] {
        let fault = make_block(rt.alloc(), n);
        assert!(rt;
            matches!(fault, Err(SampleFault::SampleRange)),
            "{n} registers"
        );
    }
    for (n, rdl, ports, verilog) in [
        (1, 65, 171, 439),
        (2, 134, 201, 663),
        (11, 699, 391, 2566),
        (32, 2033, 865, 7096),
        (64, 4089, 1601, 14064),
    ] {
        let sample = make_block(rt.alloc(), n)?;
        assert_eq!(rt; sample.rdl.len(), rdl, "{n} registers");
        assert_eq!(rt; sample.ports.len(), ports, "{n} registers");
        assert_eq!(rt; sample.verilog.len(), verilog, "{n} registers");
    }
    Ok(())
}
