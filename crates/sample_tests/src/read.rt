//! The texts of sample blocks, read by the readers of both languages.

use rdl_parse::parse_rdl;
use rdl_text::text::check_text;
use rdl_tree::scan::scan_rdl;
use sample_blocks::sample::make_block;
use std::alloc::Global;
use std::test::Fail;
use vlog_parse::parse_vlog;
use vlog_prep::prepare::prepare;

/// Reads a description, which is refused neither by its tokens, its tree nor its text.
fn read_description(alloc: Global, text: &[u8]) -> Result<(), Fail> {
    let tokens = scan_rdl(alloc, text)?;
    let file = parse_rdl(alloc, &tokens)?;
    check_text(alloc, &file)?;
    Ok(())
}

/// Reads a Verilog text, which is refused neither by its tokens nor its tree.
fn read_verilog(alloc: Global, text: &[u8]) -> Result<(), Fail> {
    let file = [text.to_vec(alloc)?];
    let tokens = prepare(alloc, file.as_slice())?;
    let _file = parse_vlog(alloc, &tokens)?;
    Ok(())
}

#[test]
fn samples_of_1_to_64_registers_are_read(rt: HostRuntime) -> Result<(), Fail> {
    let alloc = rt.alloc();
    for registers in 1..65u64 {
        let sample = make_block(alloc, registers)?;
        read_description(alloc, sample.rdl.as_slice())?;
        read_verilog(alloc, sample.verilog.as_slice())?;
    }
    Ok(())
}
