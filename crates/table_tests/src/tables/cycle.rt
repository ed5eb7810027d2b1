ghost use Rattle.std.specs.Prelude.{◌<◌, ◌↔◌, IsTrue, All, AllPairs};
ghost use Rattle.emh_base.specs.declared.plain.PInst.{PInst};
ghost use Rattle.flatten_rules.specs.Lookup.{InstsRise};

use super::builder::{add, chain_down, empty_table};
use emh_base::{PModule, Plain};
use flatten_rules::{first_on_cycle, rises};
use std::alloc::Global;
use std::test::Fail;

/// The place of the first module on a cycle.
fn first(alloc: Global, plain: &Plain, from: usize) -> Result<Option<usize>, Fail> {
    if !rises(plain.modules.as_slice(), plain.next_module) {
        return Err("ids of modules".into());
    }
    if !insts_rise(plain) {
        return Err("ids of instances".into());
    }
    Ok(first_on_cycle(alloc, plain, from)?)
}

fn insts_rise(plain: &Plain) -> bool
    ensures { IsTrue result → InstsRise plain.now }
{
    plain
        .modules
        .as_slice()
        .iter()
        .all(|holder| inst_ids_rise(holder))
}

fn inst_ids_rise(holder: &PModule) -> bool
    ensures { IsTrue result → AllPairs (λ (a b : PInst). a.id.0 < b.id.0) holder.now.insts }
{
    rises(holder.insts.as_slice(), holder.next_inst)
}

/// A table whose modules have instances of these masters.
fn table_by_masters(alloc: Global, modules: &[&[u32]]) -> Result<Plain, Fail> {
    let mut plain = empty_table(alloc);
    let mut id: u32 = 0;
    for masters in modules {
        add(alloc, &mut plain, id, masters)?;
        id = id.saturating_add(1);
    }
    Ok(plain)
}

/// The masters of each module, from which place on a cycle is looked for, and the place that is found.
const CYCLES: &[(&str, &[&[u32]], usize, Option<usize>)] = &[
    ("no modules", &[], 0, None),
    ("masters that come later", &[&[1, 2], &[2], &[]], 0, None),
    ("a master that isn't there", &[&[7], &[]], 0, None),
    ("a cycle of one", &[&[], &[0, 1]], 0, Some(1)),
    ("a cycle of two", &[&[1], &[0]], 0, Some(0)),
    ("from its second module", &[&[1], &[0]], 1, Some(1)),
    ("past it", &[&[1], &[0], &[]], 2, None),
    ("past the end", &[&[0]], 5, None),
    ("a cycle of three", &[&[], &[3], &[1], &[0, 2]], 0, Some(1)),
    (
        "a module that leads to one",
        &[&[1], &[2], &[1]],
        0,
        Some(1),
    ),
    ("a module between two", &[&[1, 0], &[2], &[2]], 1, Some(2)),
    (
        "one met twice on the way",
        &[&[1, 2], &[3], &[3], &[]],
        0,
        None,
    ),
];

#[test]
fn the_first_module_on_a_cycle_is_found(rt: HostRuntime) -> Result<(), Fail> {
    for (what, modules, from, place) in CYCLES {
        let plain = table_by_masters(rt.alloc(), modules)?;
        assert_eq!(rt; first(rt.alloc(), &plain, *from)?, *place, "{what}");
    }
    Ok(())
}

// Each module leads to the cycle at the end, and none before it is on one: to follow the edges of each would take long.
#[test]
fn a_long_way_to_a_cycle_takes_no_time(rt: HostRuntime) -> Result<(), Fail> {
    let plain = chain_down(rt.alloc(), 30_000, &[29_999])?;
    assert_eq!(rt; first(rt.alloc(), &plain, 0)?, Some(29_999));
    Ok(())
}
