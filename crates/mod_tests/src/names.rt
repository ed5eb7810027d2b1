//! The numbers of names, and reads of what isn't there.
use crate::making::number_of;
use emh_base::{InstId, ModId, NetId};
use mod_core::Mods;
use std::test::Fail;

/// A name's text, and the number that it has once the names before it are there.
const NUMBERED: &[(&str, usize)] = &[
    ("top", 0),
    ("half", 1),
    ("top", 0),
    ("INV", 2),
    ("half", 1),
    ("inv", 3),
];

#[test]
fn a_name_keeps_its_number(rt: HostRuntime) -> Result<(), Fail> {
    let mut mods = Mods::new(rt.alloc())?;
    for (text, wanted) in NUMBERED {
        let number = number_of(&rt, rt.alloc(), &mut mods, text)?;
        assert_eq!(rt; number, *wanted);
        assert_eq!(rt; mods.at(number).as_bytes(), text.as_bytes());
    }
    assert_eq!(rt; mods.find(b"to"), None);
    assert_eq!(rt; mods.find(b""), None);
    Ok(())
}

#[test]
fn nothing_is_read_of_what_is_not_there(rt: HostRuntime) -> Result<(), Fail> {
    let mods = Mods::new(rt.alloc())?;
    let module = ModId(0);
    assert_eq!(rt;
        (mods.is_module(module), mods.is_empty_module(module)),
        (false, false)
    );
    assert_eq!(rt;
        (mods.is_leaf(module), mods.is_locked(module)),
        (None, None)
    );
    assert!(rt; mods.module_name(module).is_none());
    assert!(rt; mods.net_name(module, NetId(0)).is_none());
    assert_eq!(rt;
        (mods.next_net(module), mods.net_range(module, NetId(0))),
        (None, None)
    );
    assert_eq!(rt; mods.port_dir(module, NetId(0)), None);
    assert_eq!(rt;
        (mods.is_used(module), mods.is_inst(module, InstId(0))),
        (false, false)
    );
    assert!(rt; mods.inst_name(module, InstId(0)).is_none());
    assert_eq!(rt;
        (mods.next_inst(module), mods.inst_master(module, InstId(0))),
        (None, None)
    );
    assert_eq!(rt;
        (mods.next_module(), mods.past_len(), mods.future_len()),
        (0, 0, 0)
    );
    Ok(())
}

/// Room that can't be had leaves all as it was.
#[test]
fn room_is_made_or_refused(rt: HostRuntime) -> Result<(), Fail> {
    let mut mods = Mods::new(rt.alloc())?;
    assert!(rt; mods.reserve(100, 1000).is_ok());
    assert!(rt; mods.reserve(usize::MAX, usize::MAX).is_err());
    assert_eq!(rt;
        (mods.next_module(), mods.past_len(), mods.future_len()),
        (0, 0, 0)
    );
    Ok(())
}
