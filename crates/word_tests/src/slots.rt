//! A box taken apart and put together.

use c_slots::Parts;

#[test]
fn a_box_comes_back(rt: HostRuntime) -> Result<(), &'static str> {
    let Ok(boxed) = Box::new(rt.alloc(), 7u32) else {
        return Ok(());
    };
    let back = Parts::of(boxed).into_box();
    if *back == 7 {
        Ok(())
    } else {
        Err("another value came back")
    }
}
