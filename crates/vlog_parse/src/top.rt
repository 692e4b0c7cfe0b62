//! The module at the top of a file.

ghost use Rattle.std.specs.Prelude.{◌≡◌, ℕ, List, [], ◌∷◌, false, IfOk, IfErr, OnOk, IfSome, IfNone};
ghost use Rattle.vlog_parse.specs.Top as spec;
ghost use Rattle.vlog_parse.specs.Met.{has, Meets};

use bit_base::place::Place;
use bit_base::text::Text;
use std::alloc::{AllocError, Global};
use std::collections::HashSet;
use vlog_tree::fault::{VlogCode, VlogFault, fault_at};
use vlog_tree::tree_modules::{VGbody, VMitem, VModule, VlogFile};

/// Names that were met.
#[derive(Drop)]
struct Met<'a> {
    names: HashSet<&'a [u8]>,
}

impl<'a> Met<'a> {
    /// No name was met.
    fn new(alloc: Global) -> Met<'a>
        ensures { (q : List ℕ) → has result q ≡ false }
    {
        Met {
            names: HashSet::new(alloc),
        }
    }

    /// This name was met.
    fn has(&self, name: &[u8]) -> bool
        ensures { result ≡ has self.now name.now }
    {
        self.names.contains(name)
    }

    /// One more name is met.
    fn insert(&mut self, name: &'a [u8]) -> Result<(), AllocError>
        ensures { OnOk result (Meets self.old (name.now ∷ []) self.new) }
    {
        let _ = self.names.insert(name)?;
        Ok(())
    }
}

/// Meets the names of the modules of the instances in the item.
#[cycle(meet)]
fn meet_item<'a>(item: &'a VMitem, met: &mut Met<'a>) -> Result<(), AllocError>
    ensures { OnOk result (Meets met.old (spec.instances_of_mitem item.now) met.new) }
{
    match item {
        VMitem::Generate(_, items, _) => meet_items(items.as_slice(), met),
        VMitem::Instance(instance) => met.insert(instance.module_name.text.as_bytes()),
        VMitem::For(_, body) => meet_body(body.get(), met),
        VMitem::If(_, branch, None) => meet_body(branch.get(), met),
        VMitem::If(_, branch, Some(other)) => {
            meet_body(branch.get(), met)?;
            meet_body(other.body.get(), met)
        }
        _ => Ok(()),
    }
}

#[cycle(meet)]
fn meet_body<'a>(body: &'a VGbody, met: &mut Met<'a>) -> Result<(), AllocError>
    ensures { OnOk result (Meets met.old (spec.instances_of_gbody body.now) met.new) }
{
    match body {
        VGbody::Item(item) => meet_item(item, met),
        VGbody::Block(_, _, items, _) => meet_items(items.as_slice(), met),
    }
}

#[cycle(meet)]
fn meet_items<'a>(items: &'a [VMitem], met: &mut Met<'a>) -> Result<(), AllocError>
    ensures { OnOk result (Meets met.old (spec.instances_of_items items.now) met.new) }
{
    for item in items {
        meet_item(item, met)?;
    }
    Ok(())
}

/// The names of the modules of all instances of these modules.
fn instantiated<'a>(alloc: Global, modules: &'a [VModule]) -> Result<Met<'a>, AllocError>
    ensures { IfOk result (λ met. (q : List ℕ) → has met q ≡ spec.is_among (spec.instances_of modules.now) q) }
{
    let mut met = Met::new(alloc);
    for module in modules {
        meet_items(module.items.as_slice(), &mut met)?;
    }
    Ok(met)
}

/// The one module that no module instantiates, where there is one.
fn one_top(alloc: Global, file: &VlogFile) -> Result<Option<&VModule>, AllocError>
    ensures one { IfOk result (λ found. IfSome found (λ top. spec.tops file.now ≡ top.now ∷ [])) }
    ensures none { IfOk result (λ found. IfNone found (spec.HasNoTop file.now)) }
{
    let modules = file.modules.as_slice();
    let met = instantiated(alloc, modules)?;
    let mut found = None;
    for module in modules {
        if met.has(module.name.text.as_bytes()) {
            continue;
        }
        if found.is_some() {
            return Ok(None);
        }
        found = Some(module);
    }
    Ok(found)
}

/// The name of the one module of the file that no module of the file instantiates, regions, loops and conditions
/// included; no other module has that name.
///
/// Refused is 205 at 0:0 of file 0 where there is no such module, or more than one.
pub fn top_of(alloc: Global, file: &VlogFile) -> Result<Text, VlogFault>
    ensures top { IfOk result (spec.IsTop file.now) }
    ensures no_other { IfOk result (λ name. spec.count_named file.now name ≡ 1) }
    ensures no_top { IfErr result (spec.IsNoTopFault file.now) }
{
    match one_top(alloc, file) {
        Ok(Some(top)) => Ok(top.name.text.copy(alloc)?),
        Ok(None) => {
            let place = Place {
                file: 0,
                line: 0,
                column: 0,
            };
            Err(fault_at(alloc, VlogCode::VlogName, place))
        }
        Err(AllocError) => Err(VlogFault::NoMemory),
    }
}
