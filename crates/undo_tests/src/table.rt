use std::test::Fail;
use undo_slots::Table;

/// A key of a row that is gone isn't given again while a remembered map has it, and is once none has.
#[test]
fn keys_of_remembered_rows(rt: HostRuntime) -> Result<(), Fail> {
    let mut table: Table<u32> = Table::new(rt.alloc());
    table.reserve(4, 20)?;
    table.begin();
    let first = table.add(7);
    let second = table.add(8);
    table.commit();
    table.begin();
    assert!(rt; table.get(first).is_some());
    table.remove(first);
    assert!(rt; table.get(second).is_some());
    table.set(second, 9);
    let third = table.add(1);
    table.commit();
    assert_eq!(rt; table.record_len(), 3);
    assert_eq!(rt; table.past_len(), 2);
    assert!(rt; third != first);
    table.undo();
    assert_eq!(rt; table.get(first), Some(7));
    assert_eq!(rt; table.get(second), Some(8));
    assert_eq!(rt; table.get(third), None);
    assert_eq!(rt; table.future_len(), 1);
    table.redo();
    assert_eq!(rt; table.get(second), Some(9));
    table.forget();
    table.forget();
    assert_eq!(rt; table.past_len(), 0);
    table.begin();
    let fourth = table.add(5);
    assert_eq!(rt; fourth, first);
    table.abandon();
    assert_eq!(rt; table.get(second), Some(9));
    Ok(())
}

/// A key that a map of the future has isn't given again either, until a new record forgets that future.
#[test]
fn keys_of_the_future(rt: HostRuntime) -> Result<(), Fail> {
    let mut table: Table<u32> = Table::new(rt.alloc());
    table.reserve(4, 20)?;
    table.begin();
    let first = table.add(7);
    table.commit();
    table.undo();
    assert_eq!(rt; (table.get(first), table.future_len()), (None, 1));
    table.begin();
    let second = table.add(8);
    assert!(rt; second != first);
    table.abandon();
    table.redo();
    assert_eq!(rt; (table.get(first), table.get(second)), (Some(7), None));
    table.undo();
    table.begin();
    table.commit();
    table.begin();
    assert!(rt; table.future_len() == 0);
    table.abandon();
    Ok(())
}

/// A record of no writes is remembered, undone and redone like any other.
#[test]
fn a_record_of_no_writes(rt: HostRuntime) -> Result<(), Fail> {
    let mut table: Table<u32> = Table::new(rt.alloc());
    table.reserve(0, 1)?;
    table.begin();
    table.commit();
    assert_eq!(rt; table.past_len(), 1);
    assert_eq!(rt; table.record_len(), 0);
    table.undo();
    assert_eq!(rt; (table.past_len(), table.future_len()), (0, 1));
    table.redo();
    assert_eq!(rt; (table.past_len(), table.future_len()), (1, 0));
    table.forget();
    assert_eq!(rt; (table.past_len(), table.future_len()), (0, 0));
    Ok(())
}

/// Ten writes are taken back at once, and room that can't be had leaves all as it was.
#[test]
fn ten_writes_abandoned(rt: HostRuntime) -> Result<(), Fail> {
    let mut table: Table<u32> = Table::new(rt.alloc());
    table.reserve(1, 13)?;
    table.begin();
    let row = table.add(100);
    table.commit();
    table.begin();
    for value in 0..10 {
        assert!(rt; table.get(row).is_some());
        table.set(row, value);
    }
    assert_eq!(rt; table.get(row), Some(9));
    table.abandon();
    assert_eq!(rt; table.get(row), Some(100));
    assert!(rt; table.reserve(usize::MAX, usize::MAX).is_err());
    assert_eq!(rt; table.get(row), Some(100));
    assert_eq!(rt; (table.past_len(), table.record_len()), (1, 1));
    Ok(())
}
