use name_index::Index;
use std::test::Fail;

/// A name is put, taken, put again for another key, and all of it undone and redone.
#[test]
fn a_name_taken_and_put_again(rt: HostRuntime) -> Result<(), Fail> {
    let mut index = Index::new(rt.alloc());
    index.reserve(2, 20)?;
    index.begin();
    assert_eq!(rt; index.find(0, 5), None);
    index.put(0, 5, 70);
    index.commit();
    index.begin();
    assert!(rt; index.find(0, 5).is_some());
    index.take(0, 5);
    assert_eq!(rt; index.find(0, 5), None);
    index.commit();
    assert!(rt; index.reserve(1, 2).is_ok());
    index.begin();
    index.put(0, 5, 80);
    index.commit();
    assert_eq!(rt; (index.find(0, 5), index.find(5, 0)), (Some(80), None));
    assert_eq!(rt; (index.past_len(), index.record_len()), (3, 1));
    index.undo();
    assert_eq!(rt; index.find(0, 5), None);
    index.undo();
    assert_eq!(rt; index.find(0, 5), Some(70));
    index.undo();
    assert_eq!(rt; (index.find(0, 5), index.future_len()), (None, 3));
    index.redo();
    index.redo();
    index.redo();
    assert_eq!(rt; (index.find(0, 5), index.past_len()), (Some(80), 3));
    index.forget();
    index.forget();
    index.forget();
    assert_eq!(rt; (index.find(0, 5), index.past_len()), (Some(80), 0));
    Ok(())
}

/// An abandoned record leaves the names as they were where it began.
#[test]
fn an_abandoned_record(rt: HostRuntime) -> Result<(), Fail> {
    let mut index = Index::new(rt.alloc());
    index.reserve(2, 6)?;
    index.begin();
    assert_eq!(rt; index.find(3, 1), None);
    index.put(3, 1, 10);
    index.commit();
    index.begin();
    assert!(rt; index.find(3, 1).is_some());
    index.take(3, 1);
    assert_eq!(rt; index.find(3, 2), None);
    assert!(rt; index.reserve(1, 2).is_ok());
    index.put(3, 2, 20);
    assert_eq!(rt; (index.find(3, 1), index.find(3, 2)), (None, Some(20)));
    index.abandon();
    assert_eq!(rt; (index.find(3, 1), index.find(3, 2)), (Some(10), None));
    assert_eq!(rt; (index.past_len(), index.record_len()), (1, 1));
    Ok(())
}
