//! Paths of nets: what they are made of, and that no two nets have the same.

ghost use Rattle.std.specs.Prelude.{◌≡◌, ◌<◌, ◌+◌, ◌↔◌, ℕ, List, Some, None, true, false, length, slice_get, bytes_eq, if◌then◌else◌, IsTrue, OnOk, IfOk};
ghost use Rattle.std.specs.Bool.{OnTrue, OnFalse};
ghost use Rattle.std.specs.List.{list_all};
ghost use Rattle.flat_raw.specs.Nets.{is_hidden};
ghost use Rattle.flat_raw.specs.Paths as spec;
ghost use Rattle.flat_raw.specs.Table.{found, AreSeen};

use flat_design::net::{Net, NetKind};
use flat_rules::rule::both;
use std::alloc::{AllocError, Global};
use std::collections::HashMap;

/// The numbers of nets by their paths.
#[derive(Drop)]
struct Paths<'a> {
    table: HashMap<&'a [u8], usize>,
}

impl<'a> Paths<'a> {
    fn new(alloc: Global) -> Paths<'a>
        ensures { (q : List ℕ) → found result q ≡ None }
    {
        Paths {
            table: HashMap::new(alloc),
        }
    }

    /// A net has this path.
    fn has(&self, path: &[u8]) -> bool
        ensures some { OnTrue result ((j : ℕ) × (found self.now path.now ≡ Some j)) }
        ensures none { OnFalse result (found self.now path.now ≡ None) }
    {
        match self.table.get(path) {
            Some(_) => true,
            None => false,
        }
    }

    fn set(&mut self, path: &'a [u8], number: usize) -> Result<(), AllocError>
        ensures { OnOk result ((q : List ℕ) → found self.new q ≡ (if bytes_eq path.now q then Some number else found self.old q)) }
    {
        self.table.insert(path, number)?;
        Ok(())
    }
}

/// No blank and no `=`.
fn is_path_byte(byte: u8) -> bool
    ensures { result ≡ spec.is_path_byte byte }
{
    !matches!(byte, b' ' | b'\t' | b'\r' | b'\n' | b'=')
}

fn bytes_fit(path: &[u8]) -> bool
    ensures { result ≡ list_all spec.is_path_byte path.now }
{
    path.iter().all(|byte| is_path_byte(*byte))
}

fn is_path(path: &[u8]) -> bool
    ensures { result ≡ spec.is_path path.now }
{
    both(!path.is_empty(), bytes_fit(path))
}

fn is_hidden(net: &Net) -> bool
    ensures { result ≡ is_hidden net.now.kind }
{
    match net.kind {
        NetKind::Hidden => true,
        _ => false,
    }
}

fn has_path(net: &Net) -> bool
    ensures { result ≡ spec.has_path net.now }
{
    is_hidden(net) || is_path(net.path.as_bytes())
}

/// Each net has a path, hidden ones apart: one byte at least, no blank and no `=`.
pub fn have_paths(nets: &[Net]) -> bool
    ensures { result ≡ list_all spec.has_path nets.now }
{
    nets.iter().all(|net| has_path(net))
}

/// Adds the next net to the nets that were seen; false where one before it has its path.
fn see<'a>(paths: &mut Paths<'a>, nets: &'a [Net], number: usize) -> Result<bool, AllocError>
    requires number { number < length nets.now }
    requires seen { AreSeen paths.old nets.now number }
    ensures seen { IfOk result (λ b. OnTrue b (AreSeen paths.new nets.now (number + 1))) }
    ensures twice { IfOk result (λ b. OnFalse b (spec.HaveOwnPaths nets.now → ⊥)) }
{
    let net = &nets[number];
    if is_hidden(net) {
        return Ok(true);
    }
    let path = net.path.as_bytes();
    if paths.has(path) {
        return Ok(false);
    }
    paths.set(path, number)?;
    Ok(true)
}

/// No two nets have the same path, hidden ones apart.
pub fn have_own_paths(alloc: Global, nets: &[Net]) -> Result<bool, AllocError>
    ensures { IfOk result (λ b. IsTrue b ↔ spec.HaveOwnPaths nets.now) }
{
    let mut paths = Paths::new(alloc);
    for number in 0..nets.len() {
        if !see(&mut paths, nets, number)? {
            return Ok(false);
        }
    }
    Ok(true)
}
