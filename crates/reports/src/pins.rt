ghost use Rattle.std.specs.Prelude.{◌≡◌, [], ◌∷◌, ◌++◌, length, take, reverse, OnOk, OnErr};
ghost use Rattle.emh_base.specs.Text.{pin_text};
ghost use Rattle.flatten_rules.specs.Root.{pin_root};
ghost use Rattle.flatten_rules.specs.Texts.{root_text};
ghost use Rattle.flatten_rules.specs.Way.{names_to};
ghost use Rattle.flatten_rules.specs.Design.{IsGood};
ghost use Rattle.reports.specs.Line.{line};
ghost use Rattle.reports.specs.Pins.{pins_text};

use emh_base::{List, ModId, NoMemory, PNet, Plain};
use flatten_rules::{PinWalk, Way};
use std::alloc::Global;

/// Puts the report of pins last: a line `PIN ROOT` for each bit of each pin of each leaf occurrence. The occurrences
/// come in preorder, pins in port order, bits from the left. After want of memory some of it may stand there.
pub fn push_pins(
    alloc: Global,
    plain: &Plain,
    top: ModId,
    out: &mut List<u8>,
) -> Result<(), NoMemory>
    requires { IsGood plain.now top }
    ensures ok { OnOk result (out.new ≡ out.old ++ pins_text plain.now top) }
    ensures err { OnErr result (take (length out.old) out.new ≡ out.old) }
{
    let mut pins = PinWalk::new(alloc, plain, top)?;
    while let Some((net, offset)) = pins.next()? {
        push_pin_line(pins.way(), net, offset, out)?;
    }
    Ok(())
}

/// Puts the line of a pin of the leaf at the end of the way last.
#[tactic(auto, using(crate::proofs::Kept::kept_more))]
fn push_pin_line(way: &Way<'_>, net: &PNet, offset: u16, out: &mut List<u8>) -> Result<(), NoMemory>
    ensures ok { OnOk result (out.new ≡ out.old
        ++ line (pin_text (names_to way.now) net.now.name net.now.range offset
        ∷ root_text way.now.plain way.now.top
        (pin_root way.now.plain way.now.top (reverse way.now.path) net.now.id offset) ∷ [])) }
    ensures err { OnErr result (take (length out.old) out.new ≡ out.old) }
{
    way.push_pin(net, offset, out)?;
    out.push(b' ')?;
    way.push_pin_root(way.pin_root(net.id, offset), out)?;
    out.push(b'\n')
}
