use emh_base::{List, NoMemory, push_number};
use script_read::{Line, ScriptFault, script, text_of};
use std::alloc::Global;
use std::test::Fail;

/// A line, and the line that is written for what it asks for. No two commands have one written line (it reads as its
/// own command alone), so each comparison is one of commands. The lines of the worked rows stand last.
const LINES: &[(&[u8], &[u8])] = &[
    (b"load n1.v top", b"load n1.v top"),
    (b"load a\\/b \\=x", b"load a\\/b \\=x"),
    (b"cells lib/cells.v", b"cells lib/cells.v"),
    (b"write =x", b"write =x"),
    (b"compare ./o.v t\\.u", b"compare ./o.v t\\.u"),
    (b"generate 05 0 4294967295", b"generate 5 0 4294967295"),
    (b"churn 4294967295 00010000", b"churn 4294967295 10000"),
    (b"undo", b"undo"),
    (b"redo", b"redo"),
    (b"observe restless", b"observe restless"),
    (b"ignore a\\[0\\]", b"ignore a\\[0\\]"),
    (b"report pins", b"report pins"),
    (b"report block", b"report block"),
    (b"report occurrences", b"report occurrences"),
    (b"report modules", b"report modules"),
    (b"report counts", b"report counts"),
    (b"report log", b"report log"),
    (b"report net p/y", b"report net p/y"),
    (b"report net n[03]", b"report net n[3]"),
    (
        b"report net p\\/q/u/n[4294967295]",
        b"report net p\\/q/u/n[4294967295]",
    ),
    (b"report where pair", b"report where pair"),
    (b"create_module m", b"create_module m"),
    (b"delete_module m", b"delete_module m"),
    (b"rename_module m n", b"rename_module m n"),
    (b"lock m", b"lock m"),
    (b"unlock m", b"unlock m"),
    (b"create_net m n", b"create_net m n"),
    (b"create_net m n [07:0]", b"create_net m n [7:0]"),
    (b"delete_net m n", b"delete_net m n"),
    (b"create_port m n input", b"create_port m n input"),
    (
        b"create_port m n output [0:4294967295]",
        b"create_port m n output [0:4294967295]",
    ),
    (b"create_port m n inout", b"create_port m n inout"),
    (b"delete_port m p", b"delete_port m p"),
    (b"rename_net m n o", b"rename_net m n o"),
    (b"create_inst m u INV", b"create_inst m u INV"),
    (b"delete_inst m u", b"delete_inst m u"),
    (b"connect m u A =0", b"connect m u A =0"),
    (
        b"connect m u A n n[3] n[0003:01] =1 \\=0",
        b"connect m u A n n[3:3] n[3:1] =1 \\=0",
    ),
    (b"disconnect m u A", b"disconnect m u A"),
    (b"rename_inst m u v", b"rename_inst m u v"),
    (b"resize m u BUF", b"resize m u BUF"),
    (b"uniquify m u c", b"uniquify m u c"),
    (b"place p/u1 0 -5 R90 Placed", b"place p/u1 0 -5 R90 Placed"),
    (
        b"place / -0 2147483647 MXR90 Fixed",
        b"place / 0 2147483647 MXR90 Fixed",
    ),
    (
        b"place u -2147483648 00 MYR90 Placed",
        b"place u -2147483648 0 MYR90 Placed",
    ),
    (b"place u 1 1 R0 Fixed", b"place u 1 1 R0 Fixed"),
    (b"place u 1 1 R180 Fixed", b"place u 1 1 R180 Fixed"),
    (b"place u 1 1 R270 Fixed", b"place u 1 1 R270 Fixed"),
    (b"place u 1 1 MX Fixed", b"place u 1 1 MX Fixed"),
    (b"place u 1 1 MY Fixed", b"place u 1 1 MY Fixed"),
    (b"unplace p/u1", b"unplace p/u1"),
    (b"unplace /", b"unplace /"),
    (b"set_fanout 0000000004 BUF", b"set_fanout 4 BUF"),
    (b"set_fanout 4294967295 BUF", b"set_fanout 4294967295 BUF"),
    (b"set_grid 0", b"set_grid 0"),
    (b"create_inst pair u3 INV", b"create_inst pair u3 INV"),
    (b"disconnect top q a", b"disconnect top q a"),
    (b"connect top q a w", b"connect top q a w"),
    (b"connect top p a =1", b"connect top p a =1"),
    (
        b"place q/u1 -2147483648 2147483647 MXR90 Placed",
        b"place q/u1 -2147483648 2147483647 MXR90 Placed",
    ),
    (b"resize pair u1 BUF", b"resize pair u1 BUF"),
    (b"place q/u1 5 6 R0 Placed", b"place q/u1 5 6 R0 Placed"),
    (b"uniquify top q pair_q", b"uniquify top q pair_q"),
    (b"rename_inst pair_q u1 v1", b"rename_inst pair_q u1 v1"),
    (b"place q/u2 1 2 MX Placed", b"place q/u2 1 2 MX Placed"),
    (b"delete_inst top q", b"delete_inst top q"),
];

/// A script, and for each line that asks for a command its number, how many words it has, and the line
/// that is written for the command; or the first bad line.
const SCRIPTS: &[(&[u8], &[u8])] = &[
    (b"", b""),
    (b"\n", b""),
    (b" \t \n\n# a note\n  #undo\n", b""),
    (b"undo", b"1 1 undo\n"),
    (b"undo\r", b"1 1 undo\n"),
    (b"undo\n\nredo\n", b"1 1 undo\n3 1 redo\n"),
    (b"  undo \t\r\n\tlock \t m\n", b"1 1 undo\n2 2 lock m\n"),
    (
        b"# one\nlock m\n# two\nunlock m",
        b"2 2 lock m\n4 2 unlock m\n",
    ),
    (b"undo\n\r\nredo", b"1 1 undo\n3 1 redo\n"),
    (b"lock #", b"1 2 lock #\n"),
    (b"undo # why", b"bad line 1\n"),
    (b"undo\nun\rdo\n", b"bad line 2\n"),
    (b"undo\r\r\n", b"bad line 1\n"),
    (b"undo\n\x7f", b"bad line 2\n"),
    (b"# \x80\n", b"bad line 1\n"),
    (b"undo\n#\x0b\n", b"bad line 2\n"),
    (b"x\ny\nundo", b"bad line 1\n"),
    (b"undo\nx\ny", b"bad line 2\n"),
    (b"undo\n\x00", b"bad line 2\n"),
];

/// What a script asks for, in print.
fn shown(alloc: Global, bytes: &[u8]) -> Result<List<u8>, NoMemory> {
    let mut out = List::new(alloc);
    match script(alloc, bytes) {
        Ok(lines) => {
            for line in lines.as_slice() {
                push_line(alloc, &mut out, line)?;
            }
        }
        Err(ScriptFault::TooManyLines) => out.extend(b"too many lines\n".as_slice())?,
        Err(ScriptFault::BadLine { line }) => {
            out.extend(b"bad line ".as_slice())?;
            push_number(&mut out, u64::from(line))?;
            out.push(b'\n')?;
        }
        Err(ScriptFault::NoMemory) => return Err(NoMemory),
    }
    Ok(out)
}

fn push_line(alloc: Global, out: &mut List<u8>, line: &Line) -> Result<(), NoMemory> {
    push_number(out, u64::from(line.number))?;
    out.push(b' ')?;
    push_number(out, line.words.len() as u64)?;
    out.push(b' ')?;
    let text = text_of(alloc, &line.command)?;
    out.extend(text.as_slice())?;
    out.push(b'\n')
}

/// The line that is written for the command of a line; empty where it asks for none.
fn written(alloc: Global, bytes: &[u8]) -> Result<List<u8>, NoMemory> {
    match script(alloc, bytes) {
        Ok(lines) => match lines.get(0) {
            Some(line) => text_of(alloc, &line.command),
            None => Ok(List::new(alloc)),
        },
        Err(_) => Ok(List::new(alloc)),
    }
}

#[test]
fn each_line_is_read_and_written(rt: HostRuntime) -> Result<(), Fail> {
    for (line, wanted) in LINES {
        let text = written(rt.alloc(), line)?;
        assert_eq!(rt; text.as_slice(), *wanted);
        let again = written(rt.alloc(), text.as_slice())?;
        assert_eq!(rt; again.as_slice(), *wanted);
    }
    Ok(())
}

#[test]
fn scripts_are_divided_into_lines_and_words(rt: HostRuntime) -> Result<(), Fail> {
    for (bytes, wanted) in SCRIPTS {
        let text = shown(rt.alloc(), bytes)?;
        assert_eq!(rt; text.as_slice(), *wanted);
    }
    Ok(())
}
