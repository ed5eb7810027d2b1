//! Whole scripts, as far as they are too many to be written down.
use emh_base::List;
use emh_io::{Held, SureShelf, SureSink, are_distinct};
use emh_session::Observer;
use emh_shell::run;
use samples::texts::TWO_LEVELS;
use std::alloc::Global;
use std::test::Fail;

fn file(alloc: Global, name: &[u8], bytes: &[u8]) -> Result<Held, Fail> {
    Ok(Held {
        name: List::from_slice(alloc, name)?,
        bytes: List::from_slice(alloc, bytes)?,
    })
}

/// What a script prints over one file, `f.v`.
fn printed(alloc: Global, netlist: &[u8], script: &[u8]) -> Result<List<u8>, Fail> {
    let mut files = List::new(alloc);
    files.push(file(alloc, b"f.v", netlist)?)?;
    files.push(file(alloc, b"s", script)?)?;
    are_distinct(files.as_slice())
        .then_some(())
        .ok_or("files of one name")?;
    let mut shelf = SureShelf::new(alloc, files);
    let mut out = SureSink::new(alloc, 4096);
    let word = String::from_str(alloc, "s")?;
    let watch: [Box<dyn Observer>; 0] = [];
    let _ = run(alloc, &[word], &mut shelf, &mut out, &watch);
    Ok(List::from_slice(alloc, out.bytes())?)
}

/// Whether the text ends behind a module or a word that stands outside of modules, with or without its newline.
fn ends_outside(text: &[u8]) -> bool {
    let rest = match text.split_last() {
        None => return true,
        Some((b'\n', rest)) => rest,
        Some(_) => text,
    };
    rest.ends_with(b"endmodule".as_slice())
        || rest.ends_with(b"`celldefine".as_slice())
        || rest.ends_with(b"`endcelldefine".as_slice())
}

#[test]
fn a_netlist_that_is_cut_off_is_refused(rt: HostRuntime) -> Result<(), Fail> {
    let whole = TWO_LEVELS;
    for end in 0..whole.len() - 1 {
        let text = printed(rt.alloc(), &whole[..end], b"load f.v top\n")?;
        assert!(rt;
            text.as_slice().starts_with(b"refused 1 ".as_slice()),
            "{end}"
        );
        let unnamed = text.as_slice() == b"refused 1 1 NoSuchModule module top\n".as_slice();
        assert_eq!(rt; unnamed, ends_outside(&whole[..end]), "{end}");
    }
    Ok(())
}
