//! A list that is worked through by a queue.
use sc_thread_work::work_off;
use std::test::Fail;

#[test]
fn doubles_in_order(rt: HostRuntime) -> Result<(), Fail> {
    let mut all = Vec::new(rt.alloc());
    for x in 0..40u32 {
        all.push(x)?;
    }
    let doubled = work_off(&rt, rt.alloc(), all, 4, &|x: u32| x / 2)?;
    assert_eq!(rt; doubled.given.len(), 40);
    assert_eq!(rt;
        (doubled.given[0], doubled.given[7], doubled.given[39]),
        (0, 3, 19)
    );
    let none = work_off(&rt, rt.alloc(), Vec::new(rt.alloc()), 4, &|x: u32| x / 2)?;
    assert_eq!(rt; none.given.len(), 0);
    Ok(())
}
