//! Shelves and sinks, in memory and over real files.
use emh_base::List;
use emh_io::{
    FileShelf, Held, MemShelf, MemSink, OutSink, Shelf, Sink, SureShelf, SureSink, are_distinct,
};
use std::alloc::Global;
use std::str::from_utf8;
use std::test::Fail;
use std::{fs, io};

/// A writer that takes what it is given and can't pass it on.
#[derive(Drop)]
struct Stuck;

impl io::Write for Stuck {
    fn write(&mut self, bytes: &[u8]) -> io::Result<usize> {
        Ok(bytes.len())
    }

    fn flush(&mut self) -> io::Result<()> {
        Err(io::Error::from(io::ErrorKind::BrokenPipe))
    }
}

/// Files of these names and texts.
fn files_of(alloc: Global, files: &[(&[u8], &[u8])]) -> Result<List<Held>, Fail> {
    let mut made = List::new(alloc);
    for (name, bytes) in files {
        made.push(Held {
            name: List::from_slice(alloc, name)?,
            bytes: List::from_slice(alloc, bytes)?,
        })?;
    }
    Ok(made)
}

const TWO_FILES: &[(&[u8], &[u8])] = &[(b"top.v", b"module"), (b"empty", b"")];

const THREE_FILES: &[(&[u8], &[u8])] = &[
    (b"top.v", b"module"),
    (b"empty", b""),
    (b"top.v", b"another"),
];

/// A plan whose second call fails.
fn second_fails(alloc: Global) -> Result<List<bool>, Fail> {
    let mut fails = List::new(alloc);
    fails.push(false)?;
    fails.push(true)?;
    Ok(fails)
}

fn sure_shelf(alloc: Global) -> Result<SureShelf, Fail> {
    let files = files_of(alloc, TWO_FILES)?;
    if are_distinct(files.as_slice()) {
        Ok(SureShelf::new(alloc, files))
    } else {
        Err("files of one name".into())
    }
}

fn mem_shelf(alloc: Global) -> Result<MemShelf, Fail> {
    let files = files_of(alloc, TWO_FILES)?;
    let plan = second_fails(alloc)?;
    if are_distinct(files.as_slice()) {
        Ok(MemShelf::new(alloc, files, plan, second_fails(alloc)?))
    } else {
        Err("files of one name".into())
    }
}

/// The text of a file, or why the shelf doesn't give it.
fn fetched<F: Shelf>(alloc: Global, shelf: &mut F, name: &[u8]) -> Result<String, Fail> {
    Ok(match shelf.fetch(name) {
        Ok(bytes) => String::from_str(alloc, from_utf8(bytes.as_slice())?)?,
        Err(fault) => format!(in alloc; "{fault:?}")?,
    })
}

/// How many bytes a sink takes, or why it takes none.
fn taken<K: Sink>(alloc: Global, sink: &mut K, piece: &[u8]) -> Result<String, Fail> {
    Ok(match sink.put(piece) {
        Ok(count) => format!(in alloc; "{count}")?,
        Err(fault) => format!(in alloc; "{fault:?}")?,
    })
}

#[test]
fn names_are_told_apart(rt: HostRuntime) -> Result<(), Fail> {
    for (files, wanted) in [(TWO_FILES, true), (THREE_FILES, false), (&[], true)] {
        let files = files_of(rt.alloc(), files)?;
        assert_eq!(rt; are_distinct(files.as_slice()), wanted);
    }
    Ok(())
}

#[test]
fn sure_shelf_answers(rt: HostRuntime) -> Result<(), Fail> {
    let mut shelf = sure_shelf(rt.alloc())?;
    assert!(rt; shelf.held(b"top.v") == Some(b"module".as_slice()) && shelf.held(b"top").is_none());
    let cases: [(&[u8], &str); 3] = [(b"top.v", "module"), (b"empty", ""), (b"top", "Missing")];
    for (name, text) in cases {
        assert_eq!(rt; fetched(rt.alloc(), &mut shelf, name)?.as_str(), text);
    }
    Ok(())
}

#[test]
fn mem_shelf_fails_at_its_second_fetch(rt: HostRuntime) -> Result<(), Fail> {
    let mut shelf = mem_shelf(rt.alloc())?;
    assert!(rt; shelf.held(b"empty") == Some(b"".as_slice()) && shelf.held(b"top").is_none());
    let cases: [(&[u8], &str); 4] = [
        (b"top.v", "module"),
        (b"top.v", "Failed"),
        (b"top.v", "module"),
        (b"top", "Missing"),
    ];
    for (name, text) in cases {
        assert_eq!(rt; fetched(rt.alloc(), &mut shelf, name)?.as_str(), text);
    }
    Ok(())
}

/// Why a store came to nothing, or nothing.
fn stored<F: Shelf>(
    alloc: Global,
    shelf: &mut F,
    name: &[u8],
    bytes: &[u8],
) -> Result<String, Fail> {
    Ok(match shelf.store(name, bytes) {
        Ok(()) => String::new(alloc),
        Err(fault) => format!(in alloc; "{fault:?}")?,
    })
}

#[test]
fn sure_shelf_stores(rt: HostRuntime) -> Result<(), Fail> {
    let mut shelf = sure_shelf(rt.alloc())?;
    let cases: [(&[u8], &[u8]); 3] = [(b"empty", b"full"), (b"new", b"one"), (b"new", b"two")];
    for (name, bytes) in cases {
        assert_eq!(rt; stored(rt.alloc(), &mut shelf, name, bytes)?.as_str(), "");
        assert_eq!(rt; shelf.held(name), Some(bytes));
    }
    assert_eq!(rt; shelf.held(b"top.v"), Some(b"module".as_slice()));
    Ok(())
}

#[test]
fn mem_shelf_fails_at_its_second_store(rt: HostRuntime) -> Result<(), Fail> {
    let mut shelf = mem_shelf(rt.alloc())?;
    let cases: [(&[u8], &str, &[u8]); 3] = [
        (b"empty", "", b"full"),
        (b"top.v", "Failed", b"module"),
        (b"top.v", "", b"full"),
    ];
    for (name, fault, held) in cases {
        assert_eq!(rt;
            stored(rt.alloc(), &mut shelf, name, b"full")?.as_str(),
            fault
        );
        assert_eq!(rt; shelf.held(name), Some(held));
    }
    Ok(())
}

#[test]
fn sure_sink_takes_its_most(rt: HostRuntime) -> Result<(), Fail> {
    let mut sink = SureSink::new(rt.alloc(), 4);
    let cases: [(&[u8], &str); 3] = [(b"modules", "4"), (b"le", "2"), (b"", "0")];
    for (piece, count) in cases {
        assert_eq!(rt; taken(rt.alloc(), &mut sink, piece)?.as_str(), count);
    }
    assert_eq!(rt; sink.bytes(), b"module".as_slice());
    Ok(())
}

#[test]
fn mem_sink_fails_at_its_second_put(rt: HostRuntime) -> Result<(), Fail> {
    let mut sink = MemSink::new(rt.alloc(), 4, second_fails(rt.alloc())?);
    let cases: [(&[u8], &str, &[u8]); 3] = [
        (b"modu", "4", b"modu"),
        (b"le", "Failed", b"modu"),
        (b"le", "2", b"module"),
    ];
    for (piece, count, written) in cases {
        assert_eq!(rt; taken(rt.alloc(), &mut sink, piece)?.as_str(), count);
        assert_eq!(rt; sink.bytes(), written);
    }
    Ok(())
}

#[test]
fn file_shelf_reads_what_out_sink_wrote(rt: HostRuntime) -> Result<(), Fail> {
    let path = "emh_io_shelf.tmp";
    let mut sink = OutSink::new(fs::create(&rt, path)?);
    assert_eq!(rt; taken(rt.alloc(), &mut sink, b"module")?.as_str(), "6");
    let mut shelf = FileShelf::new(rt.alloc(), rt.clone()?);
    let read = shelf.fetch(path.as_bytes());
    fs::remove_file(&rt, path)?;
    assert_eq!(rt; read?.as_slice(), b"module".as_slice());
    Ok(())
}

/// A file that isn't there, a folder, no name, a name that isn't text, and one with a byte 0.
#[test]
fn file_shelf_fails(rt: HostRuntime) -> Result<(), Fail> {
    let mut shelf = FileShelf::new(rt.alloc(), rt.clone()?);
    for name in [b"no such file".as_slice(), b".", b"", b"\xff", b"a\0"] {
        assert_eq!(rt;
            fetched(rt.alloc(), &mut shelf, name)?.as_str(),
            "Failed",
            "{name:?}"
        );
    }
    Ok(())
}

#[test]
fn file_shelf_reads_what_it_stored(rt: HostRuntime) -> Result<(), Fail> {
    let path = "emh_io_store.tmp";
    let mut shelf = FileShelf::new(rt.alloc(), rt.clone()?);
    let first = stored(rt.alloc(), &mut shelf, path.as_bytes(), b"a longer text")?;
    let second = stored(rt.alloc(), &mut shelf, path.as_bytes(), b"module")?;
    let read = fetched(rt.alloc(), &mut shelf, path.as_bytes())?;
    fs::remove_file(&rt, path)?;
    assert_eq!(rt; first.as_str(), "");
    assert_eq!(rt; second.as_str(), "");
    assert_eq!(rt; read.as_str(), "module");
    let failed = stored(rt.alloc(), &mut shelf, b".", b"");
    assert_eq!(rt; failed?.as_str(), "Failed");
    Ok(())
}

#[test]
fn out_sink_writes_to_standard_output(rt: HostRuntime) -> Result<(), Fail> {
    let mut sink = OutSink::new(io::writer(&rt));
    assert_eq!(rt; taken(rt.alloc(), &mut sink, b"one line\n")?.as_str(), "9");
    Ok(())
}

#[test]
fn out_sink_fails_where_it_cannot_flush(rt: HostRuntime) -> Result<(), Fail> {
    let mut sink = OutSink::new(Stuck);
    assert_eq!(rt;
        taken(rt.alloc(), &mut sink, b"one line\n")?.as_str(),
        "Failed"
    );
    Ok(())
}
