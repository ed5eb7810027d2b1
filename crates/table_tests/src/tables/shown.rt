//! What a table unfolds to, as text.
use emh_base::{Path, Root};
use flatten_rules::{Fresh, FreshBit, FreshInst, FreshOcc, FreshPin};
use std::alloc::Global;
use std::fmt::Write;
use std::test::Fail;

/// The four lists, a line each.
pub fn shown(alloc: Global, made: &Fresh) -> Result<String, Fail> {
    let mut text = String::new(alloc);
    show_occs(&mut text, made.occs.as_slice())?;
    show_bits(&mut text, made.bits.as_slice())?;
    show_insts(&mut text, made.insts.as_slice())?;
    show_pins(&mut text, made.pins.as_slice())?;
    Ok(text)
}

fn show_path(text: &mut String, path: &Path) -> Result<(), Fail> {
    write!(text, "/")?;
    for step in path.steps() {
        write!(text, "{}/", step.0)?;
    }
    Ok(())
}

fn show_root(text: &mut String, root: &Root) -> Result<(), Fail> {
    match root {
        Root::Tie0 => write!(text, "=0; ")?,
        Root::Tie1 => write!(text, "=1; ")?,
        Root::Own(path, net, offset) => {
            show_path(text, path)?;
            write!(text, "{}.{offset}; ", net.0)?;
        }
    }
    Ok(())
}

/// As `/0/1/ 4; `: the path and the module.
fn show_occs(text: &mut String, occs: &[FreshOcc]) -> Result<(), Fail> {
    for occ in occs {
        show_path(text, &occ.path)?;
        write!(text, " {}; ", occ.module.0)?;
    }
    write!(text, "\n")?;
    Ok(())
}

/// As `/0/2.0 /1.0; `: the net bit and its root.
fn show_bits(text: &mut String, bits: &[FreshBit]) -> Result<(), Fail> {
    for bit in bits {
        show_path(text, &bit.path)?;
        write!(text, "{}.{} ", bit.net.0, bit.offset)?;
        show_root(text, &bit.root)?;
    }
    write!(text, "\n")?;
    Ok(())
}

/// As `/0/1/ 4 7; `: the path, the cell and the placement's x, 0 where there is none.
fn show_insts(text: &mut String, insts: &[FreshInst]) -> Result<(), Fail> {
    for inst in insts {
        show_path(text, &inst.path)?;
        let x = match inst.placement {
            Some(placement) => placement.x,
            None => 0,
        };
        write!(text, " {} {x}; ", inst.master.0)?;
    }
    write!(text, "\n")?;
    Ok(())
}

/// As `/0/1/0.0 /1.0; `: the bit of a pin and its root.
fn show_pins(text: &mut String, pins: &[FreshPin]) -> Result<(), Fail> {
    for pin in pins {
        show_path(text, &pin.path)?;
        write!(text, "{}.{} ", pin.port.0, pin.offset)?;
        match &pin.root {
            Some(root) => show_root(text, root)?,
            None => write!(text, "open; ")?,
        }
    }
    write!(text, "\n")?;
    Ok(())
}
