//! The ends of a search: values, a refutation, or the bottom level.

ghost use Rattle.std.specs.Prelude.{◌≡◌, ℕ, ◌+◌, ◌-◌, ◌*◌, ◌^◌, ◌<◌, ◌≤◌, Bool, true, false, List, [], ◌++◌, length, Option, Some, None, slice_get, OnOk, IfOk, vec_len};
ghost use Rattle.lemma_checker.specs.declared.literal.Literal.{Literal};
ghost use Rattle.lemma_checker.specs.Clauses.{at, set_of, AreDistinct};
ghost use Rattle.lemma_checker.specs.Chains.{has_empty};
ghost use Rattle.watch_lists.specs.declared.watches.Watches.{Watches};
ghost use Rattle.watch_lists.specs.Scans.{IsTrailOf};
ghost use Rattle.watch_lists.specs.Watches.{Holds, Fits};
ghost use Rattle.clause_solver.specs.Solver.{all_of, IsModel, IsAbout};

use lemma_checker::answer::{Refutation, Satisfied};
use lemma_checker::checker::model_of;
use lemma_checker::lemmas::Lemmas;
use lemma_checker::resolver::is_marked;
use std::alloc::{AllocError, Global};
use std::vec::Vec;
use watch_lists::trail::Trail;

/// The values of the variables 1 to `vars`, from the values of the literals.
fn values_of(alloc: Global, values: &[bool], vars: u32) -> Result<Vec<bool>, AllocError>
    requires small { vars < 2 ^ 31 }
    ensures len { IfOk result (λ v. vec_len v ≡ vars) }
    ensures each { IfOk result (λ v. (w : ℕ) → 1 ≤ w → w ≤ vars → at v.items (w - 1) ≡ at values.now (2 * w)) }
{
    let mut taken = Vec::new(alloc);
    for variable in 1..vars + 1 {
        taken.push(is_marked(values, 2 * variable as usize))?;
    }
    Ok(taken)
}

/// The formula with the values of all variables, under which no clause is false.
pub fn model(alloc: Global, lemmas: Lemmas, values: &[bool]) -> Result<Satisfied, AllocError>
    requires model { IsModel (all_of lemmas) lemmas.formula.vars (at values.now) }
    ensures { IfOk result (λ s. IsAbout s.formula.vars s.formula.clauses lemmas.formula) }
{
    let formula = lemmas.into_formula();
    let taken = values_of(alloc, values, formula.vars)?;
    match model_of(formula, taken) {
        Ok(satisfied) => Ok(satisfied),
        Err(_) => unreachable!(),
    }
}

/// The refutation, where the empty clause was added.
pub fn refute(lemmas: Lemmas) -> Refutation
    requires empty { has_empty (all_of lemmas) ≡ true }
    ensures { IsAbout result.formula.vars result.formula.clauses lemmas.formula }
{
    match lemmas.refuted() {
        Ok(refutation) => refutation,
        Err(_) => unreachable!(),
    }
}

/// Goes back to the literals before the first level.
pub fn to_bottom(trail: &mut Trail)
    requires values { at trail.old.values.items ≡ set_of trail.old.literals.items }
    requires once { AreDistinct trail.old.literals.items }
    requires inside { (i a : ℕ) → slice_get trail.old.starts.items i ≡ Some a → a < length trail.old.literals.items }
    ensures trail { (cs : List (List Literal)) → IsTrailOf cs trail.old → IsTrailOf cs trail.new }
    ensures fits { (w : Watches) (vars : ℕ) (cs : List (List Literal)) → Holds w vars cs → IsTrailOf cs trail.old → Fits w trail.old → Fits w trail.new }
    ensures starts { trail.new.starts.items ≡ [] }
    ensures size { length trail.new.values.items ≡ length trail.old.values.items }
{
    let starts = trail.starts.as_slice();
    if starts.is_empty() {
        return;
    }
    let place = starts[0];
    trail.cut(0, place);
}
