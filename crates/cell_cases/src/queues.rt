// A queue as its ring goes round.
use answer::Refusal;
use queue::{Frame, Queue};
use std::ops::Range;
use std::process::Abort;
use std::test::Fail;

fn frame(tag: u32) -> Frame {
    Frame { tag, length: 1 }
}

// Frames with these tags, at the end.
fn put(queue: &mut Queue, tags: Range<u32>) -> Result<(), Fail> {
    for tag in tags {
        queue.push(frame(tag))?;
    }
    Ok(())
}

// The frames with these tags, from the front.
fn take(rt: &impl Abort, queue: &mut Queue, tags: Range<u32>) {
    for tag in tags {
        assert_eq!(rt; queue.pop(), Some(frame(tag)));
    }
}

#[test]
fn all_in_and_all_out(rt: HostRuntime) -> Result<(), Fail> {
    let mut queue = Queue::new();
    assert!(rt; queue.is_empty());
    assert_eq!(rt; queue.pop(), None);
    put(&mut queue, 0..32)?;
    assert_eq!(rt; queue.len(), 32);
    assert_eq!(rt; queue.push(frame(32)), Err(Refusal::QueueFull));
    assert_eq!(rt; queue.len(), 32);
    take(&rt, &mut queue, 0..32);
    assert_eq!(rt; queue.pop(), None);
    assert!(rt; queue.is_empty());
    Ok(())
}

#[test]
fn over_the_end_of_the_ring(rt: HostRuntime) -> Result<(), Fail> {
    let mut queue = Queue::new();
    put(&mut queue, 0..20)?;
    take(&rt, &mut queue, 0..15);
    put(&mut queue, 20..47)?;
    assert_eq!(rt; queue.len(), 32);
    assert_eq!(rt; queue.push(frame(47)), Err(Refusal::QueueFull));
    assert_eq!(rt; queue.get(0), Some(frame(15)));
    assert_eq!(rt; queue.get(16), Some(frame(31)));
    assert_eq!(rt; queue.get(17), Some(frame(32)));
    assert_eq!(rt; queue.get(31), Some(frame(46)));
    assert_eq!(rt; queue.get(32), None);
    take(&rt, &mut queue, 15..47);
    assert_eq!(rt; queue.get(0), None);
    Ok(())
}

#[test]
fn one_in_one_out(rt: HostRuntime) -> Result<(), Fail> {
    let mut queue = Queue::new();
    put(&mut queue, 0..31)?;
    for tag in 31..131u32 {
        queue.push(frame(tag))?;
        assert_eq!(rt; queue.pop(), Some(frame(tag - 31)));
        assert_eq!(rt; queue.get(30), Some(frame(tag)));
    }
    assert_eq!(rt; queue.len(), 31);
    Ok(())
}
