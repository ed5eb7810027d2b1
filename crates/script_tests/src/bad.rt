use emh_base::{List, NoMemory};
use script_read::{ScriptFault, script};
use std::alloc::Global;
use std::test::Fail;

/// Lines outside the grammar: with a word too few, one too many, a word of a wrong kind, and others.
const BAD: &[&[u8]] = &[
    b"load f.v",
    b"load f.v m x",
    b"load f.v a/b",
    b"cells",
    b"cells f.v x",
    b"write",
    b"write f.v x",
    b"compare f.v",
    b"compare f.v m x",
    b"compare f.v a/b",
    b"undo x",
    b"redo x",
    b"observe",
    b"observe m x",
    b"observe a/b",
    b"ignore",
    b"ignore m x",
    b"ignore a/b",
    b"report pins x",
    b"report block x",
    b"report occurrences x",
    b"report modules x",
    b"report counts x",
    b"report log x",
    b"report net",
    b"report net p/n x",
    b"report net p//n",
    b"report where",
    b"report where m x",
    b"report where a/b",
    b"create_module",
    b"create_module m x",
    b"create_module a/b",
    b"delete_module",
    b"delete_module m x",
    b"delete_module a/b",
    b"rename_module m",
    b"rename_module m m x",
    b"rename_module a/b m",
    b"rename_module m a/b",
    b"lock",
    b"lock m x",
    b"lock a/b",
    b"unlock",
    b"unlock m x",
    b"unlock a/b",
    b"create_net m",
    b"create_net m m [3:0] x",
    b"create_net a/b m [3:0]",
    b"create_net m a/b [3:0]",
    b"create_net m m [3]",
    b"delete_net m",
    b"delete_net m m x",
    b"delete_net a/b m",
    b"delete_net m a/b",
    b"create_port m m",
    b"create_port m m input [3:0] x",
    b"create_port a/b m input [3:0]",
    b"create_port m a/b input [3:0]",
    b"create_port m m in [3:0]",
    b"create_port m m input [3]",
    b"delete_port m",
    b"delete_port m m x",
    b"delete_port a/b m",
    b"delete_port m a/b",
    b"rename_net m m",
    b"rename_net m m m x",
    b"rename_net a/b m m",
    b"rename_net m a/b m",
    b"rename_net m m a/b",
    b"create_inst m m",
    b"create_inst m m m x",
    b"create_inst a/b m m",
    b"create_inst m a/b m",
    b"create_inst m m a/b",
    b"delete_inst m",
    b"delete_inst m m x",
    b"delete_inst a/b m",
    b"delete_inst m a/b",
    b"connect m m m",
    b"connect a/b m m n",
    b"connect m a/b m n",
    b"connect m m a/b n",
    b"connect m m m =2",
    b"disconnect m m",
    b"disconnect m m m x",
    b"disconnect a/b m m",
    b"disconnect m a/b m",
    b"disconnect m m a/b",
    b"rename_inst m m",
    b"rename_inst m m m x",
    b"rename_inst a/b m m",
    b"rename_inst m a/b m",
    b"rename_inst m m a/b",
    b"resize m m",
    b"resize m m m x",
    b"resize a/b m m",
    b"resize m a/b m",
    b"resize m m a/b",
    b"uniquify m m",
    b"uniquify m m m x",
    b"uniquify a/b m m",
    b"uniquify m a/b m",
    b"uniquify m m a/b",
    b"place p/u -1 -1 R0",
    b"place p/u -1 -1 R0 Fixed x",
    b"place p//u -1 -1 R0 Fixed",
    b"place p/u +1 -1 R0 Fixed",
    b"place p/u -1 +1 R0 Fixed",
    b"place p/u -1 -1 r0 Fixed",
    b"place p/u -1 -1 R0 fixed",
    b"unplace",
    b"unplace p/u x",
    b"unplace p//u",
    b"set_fanout 7",
    b"set_fanout 7 m x",
    b"set_fanout 4294967296 m",
    b"set_fanout 7 a/b",
    b"set_grid",
    b"set_grid 7 x",
    b"set_grid 4294967296",
    b"report",
    b"report pin",
    b"generate 1 2",
    b"generate 1 2 3 4",
    b"generate x 2 3",
    b"generate 1 x 3",
    b"generate 1 2 x",
    b"generate 4294967296 2 3",
    b"churn 1",
    b"churn 1 2 3",
    b"churn x 2",
    b"churn 1 x",
    b"churn 1 4294967296",
    b"Undo",
    b"lock a\\b",
    b"lock a[0]",
    b"lock a.b",
    b"lock =x",
    b"lock a\\",
    b"set_grid 00000000001",
    b"set_grid -1",
    b"set_grid x",
    b"set_grid 1x",
    b"place u 2147483648 0 R0 Fixed",
    b"place u -2147483649 0 R0 Fixed",
    b"place u - 0 R0 Fixed",
    b"place u 1 1 r0 Fixed",
    b"create_net m n [3:]",
    b"create_net m n [:0]",
    b"create_net m n [4294967296:0]",
    b"create_net m n 3:0",
    b"create_net m n [3:0",
    b"create_net m n [3:0]]",
    b"create_port m n inputs",
    b"connect m u A n[",
    b"connect m u A n[]",
    b"connect m u A n[1:2:3]",
    b"connect m u A =0 =x",
    b"connect m u A n[4294967296]",
    b"report net p/n[1:0]",
    b"report net p/",
    b"report net /n",
    b"report net n[4294967296]",
    b"unplace p/",
    b"unplace //",
    b"unplace /p",
];

/// `word` with `count` bytes `x` behind it.
fn long(alloc: Global, word: &[u8], count: usize) -> Result<List<u8>, NoMemory> {
    let mut line = List::from_slice(alloc, word)?;
    for _ in 0..count {
        line.push(b'x')?;
    }
    Ok(line)
}

fn is_bad(alloc: Global, bytes: &[u8]) -> bool {
    matches!(script(alloc, bytes), Err(ScriptFault::BadLine { line: 1 }))
}

#[test]
fn lines_of_other_forms_are_bad(rt: HostRuntime) {
    for line in BAD {
        let bad = is_bad(rt.alloc(), line);
        assert!(rt; bad, "{line:?}");
    }
}

/// What stands before a word of many bytes, and what behind it.
const AROUND: &[(&[u8], &[u8])] = &[
    (b"lock ", b""),
    (b"write ", b""),
    (b"cells ", b""),
    (b"load ", b" m"),
    (b"compare ", b" m"),
];

#[test]
fn names_and_files_have_at_most_1024_bytes(rt: HostRuntime) -> Result<(), Fail> {
    for (before, behind) in AROUND {
        let mut longest = long(rt.alloc(), before, 1024)?;
        longest.extend(behind)?;
        let bad = is_bad(rt.alloc(), longest.as_slice());
        assert!(rt; !bad);
        let mut longer = long(rt.alloc(), before, 1025)?;
        longer.extend(behind)?;
        let bad = is_bad(rt.alloc(), longer.as_slice());
        assert!(rt; bad);
    }
    Ok(())
}

/// A name of 1,024 bytes, each of them marked, is a word of 2,048 bytes.
#[test]
fn a_marked_byte_of_a_name_counts_once(rt: HostRuntime) -> Result<(), Fail> {
    let mut line = List::from_slice(rt.alloc(), b"lock ")?;
    for _ in 0..1024 {
        line.extend(b"\\.")?;
    }
    let bad = is_bad(rt.alloc(), line.as_slice());
    assert!(rt; !bad);
    line.extend(b"\\.")?;
    let bad = is_bad(rt.alloc(), line.as_slice());
    assert!(rt; bad);
    Ok(())
}
