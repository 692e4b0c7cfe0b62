//! Checking a certificate of a circuit.

ghost use Rattle.std.specs.Prelude.{◌≡◌, ◌↔◌, ℕ, ◌+◌, ◌<◌, ◌≤◌, List, [], ◌∷◌, ◌++◌, length, map, IfOk};
ghost use Rattle.lemma_checker.specs.Checker.{link};
ghost use Rattle.unroll_cnf.specs.declared.latch_literal.LatchLiteral.{LatchLiteral};
ghost use Rattle.unroll_cnf.specs.Latches.{AreOfLatches, weight};
ghost use Rattle.invariant_miner.specs.Thinned.{IsAskable};
ghost use Rattle.k_induction.specs.Chains.{AreBases, RefuteStep, RefuteKeep};
ghost use Rattle.gate_graph.specs.declared.circuits.Circuit.{Circuit};
ghost use Rattle.cert_text.specs.Reading.{HeaderDue, ChainsDue, Ended, Link, Parts, IsCertificate, HasFault, UnlessWanting, Refuses};
ghost use Rattle.cert_text.specs.Steps.{Reads, EndsWith};
ghost use Rattle.cert_text.specs.Accepting.{Checks, IsSafeBy};

use crate::due::due_line;
use crate::fault::{CertCode, CertFault};
use crate::lines::{Lines, MOST_BYTES};
use crate::read::{read_bound, read_chains, read_count, read_due, read_set};
use gate_graph::Circuit;
use invariant_miner::InductiveSet;
use k_induction::SafeCircuit;
use lemma_checker::chain::Chain;
use std::alloc::Global;
use std::vec::Vec;
use unroll_cnf::limits::{MOST_EDGES, MOST_WEIGHT};
use unroll_cnf::{LatchClause, base_query, keep_query, step_query};

/// Reads the lines before the chains: k, and the set.
fn read_head(
    alloc: Global,
    lines: &mut Lines<'_>,
    circuit: &Circuit,
) -> Result<(u32, Vec<LatchClause>), CertFault>
    ensures reads { Reads circuit.now HeaderDue lines.old.rest.now lines.old.number result (λ head. ChainsDue head.0 head.1.items [] []) lines.new.rest.now lines.new.number }
    ensures bounds { IfOk result (λ head. (1 ≤ head.0) × (head.0 ≤ MOST_EDGES)) }
    ensures of { IfOk result (λ head. AreOfLatches (length circuit.now.latches.items) head.1.items) }
    ensures small { IfOk result (λ head. weight head.1.items ≤ MOST_WEIGHT) }
{
    read_due(lines, b"cert 1")?;
    let k = read_bound(lines)?;
    let count = read_count(lines)?;
    let latches = circuit.latches.as_slice();
    let count_of_latches = latches.len();
    let set = read_set(alloc, lines, count_of_latches, count)?;
    read_due(lines, b"q keep")?;
    Ok((k, set))
}

/// Reads the chains of the base queries of 1 to `k` edges.
fn read_bases(
    alloc: Global,
    lines: &mut Lines<'_>,
    circuit: &Circuit,
    k: u32,
) -> Result<Vec<Vec<Chain>>, CertFault>
    requires few { k ≤ MOST_EDGES }
    ensures reads { (set : List (List LatchLiteral)) (keep : List Link) → Reads circuit.now (ChainsDue k set (keep ∷ []) []) lines.old.rest.now lines.old.number result (λ bases. ChainsDue k set (keep ∷ map (λ b. map link b.items) bases.items) []) lines.new.rest.now lines.new.number }
    ensures counted { IfOk result (λ bases. length bases.items ≡ k) }
    ensures refute { IfOk result (λ bases. AreBases circuit.now (map (λ b. b.items) bases.items)) }
{
    let mut bases = Vec::new(alloc);
    for i in 0..k {
        let query = base_query(alloc, circuit, i + 1)?;
        let due = due_line(alloc, k, i + 1)?;
        let chains = read_chains(alloc, lines, query, due.as_slice())?;
        bases.push(chains)?;
    }
    Ok(bases)
}

/// Reads the chains of the keep query, and the line behind them.
fn read_keep(
    alloc: Global,
    lines: &mut Lines<'_>,
    circuit: &Circuit,
    set: &[LatchClause],
    k: u32,
) -> Result<Vec<Chain>, CertFault>
    requires askable { IsAskable circuit.now set.now }
    ensures reads { Reads circuit.now (ChainsDue k set.now [] []) lines.old.rest.now lines.old.number result (λ keep. ChainsDue k set.now (map link keep.items ∷ []) []) lines.new.rest.now lines.new.number }
    ensures refute { IfOk result (λ keep. RefuteKeep circuit.now set.now keep.items) }
{
    let query = keep_query(alloc, circuit, set)?;
    let due = due_line(alloc, k, 0)?;
    let keep = read_chains(alloc, lines, query, due.as_slice())?;
    Ok(keep)
}

/// Reads the chains of the step query, and the last line.
fn read_step(
    alloc: Global,
    lines: &mut Lines<'_>,
    circuit: &Circuit,
    set: &[LatchClause],
    k: u32,
) -> Result<Vec<Chain>, CertFault>
    requires few { k ≤ MOST_EDGES }
    requires askable { IsAskable circuit.now set.now }
    ensures reads { (done : List (List Link)) → length done ≡ k + 1 → Reads circuit.now (ChainsDue k set.now done []) lines.old.rest.now lines.old.number result (λ step. Ended k set.now (done ++ map link step.items ∷ [])) lines.new.rest.now lines.new.number }
    ensures refute { IfOk result (λ step. RefuteStep circuit.now set.now k step.items) }
{
    let query = step_query(alloc, circuit, k, set)?;
    let due = due_line(alloc, k, k + 1)?;
    let step = read_chains(alloc, lines, query, due.as_slice())?;
    Ok(step)
}

/// Reads the end, behind the last line.
fn read_end(lines: &mut Lines<'_>) -> Result<(), CertFault>
    ensures { (c : Circuit) (p : Parts) → EndsWith c p lines.old.rest.now lines.old.number result }
{
    let number = lines.number;
    let rest = lines.rest;
    let fault = CertFault::At {
        code: CertCode::CertLine,
        line: number,
    };
    match lines.next_line() {
        Ok(_) => Err(fault),
        Err(_) => { if rest.is_empty() { Ok(()) } else { Err(fault) } }
    }
}

/// Reads all lines of a text that isn't too long.
fn read_text(alloc: Global, circuit: Circuit, bytes: &[u8]) -> Result<SafeCircuit, CertFault>
    requires small { length bytes.now ≤ MOST_BYTES }
    ensures { Checks circuit bytes.now result }
{
    let mut lines = Lines::new(bytes);
    let (k, set) = read_head(alloc, &mut lines, &circuit)?;
    let keep = read_keep(alloc, &mut lines, &circuit, set.as_slice(), k)?;
    let bases = read_bases(alloc, &mut lines, &circuit, k)?;
    let step = read_step(alloc, &mut lines, &circuit, set.as_slice(), k)?;
    read_end(&mut lines)?;
    let set = InductiveSet {
        clauses: set,
        chains: keep,
    };
    Ok(SafeCircuit::of(circuit, set, k, bases, step))
}

/// The safe circuit that the text of a certificate shows. The text is read line by line; each chain is
/// resolved on the circuit's own queries, and nothing of the text is trusted.
pub fn check_cert(alloc: Global, circuit: Circuit, bytes: &[u8]) -> Result<SafeCircuit, CertFault>
    // The answer is a safe circuit exactly where the bytes are a certificate of it, and not too many.
    ensures accepts { UnlessWanting result ((p : Parts) → IsSafeBy result circuit p ↔ ((length bytes.now ≤ MOST_BYTES) × IsCertificate circuit bytes.now p)) }
    // When each refusal comes, and at which line: the size first, then the first line that has a fault.
    ensures cert_large { UnlessWanting result ((line : ℕ) → Refuses result CertCode.CertLarge line ↔ ((MOST_BYTES < length bytes.now) × (line ≡ 0))) }
    ensures cert_line { UnlessWanting result ((line : ℕ) → Refuses result CertCode.CertLine line ↔ ((length bytes.now ≤ MOST_BYTES) × HasFault circuit bytes.now CertCode.CertLine line)) }
    ensures bad_step { UnlessWanting result ((line : ℕ) → Refuses result CertCode.BadStep line ↔ ((length bytes.now ≤ MOST_BYTES) × HasFault circuit bytes.now CertCode.BadStep line)) }
    ensures cert_short { UnlessWanting result ((line : ℕ) → Refuses result CertCode.CertShort line ↔ ((length bytes.now ≤ MOST_BYTES) × HasFault circuit bytes.now CertCode.CertShort line)) }
{
    if bytes.len() > MOST_BYTES {
        return Err(CertFault::At {
            code: CertCode::CertLarge,
            line: 0,
        });
    }
    read_text(alloc, circuit, bytes)
}
