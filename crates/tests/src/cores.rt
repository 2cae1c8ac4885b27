//! An expression that is built by hand.

use std::alloc::{AllocError, Global};
use std::test::Fail;
use tla_core::{Core, Place};

/// `x = b`, with the present value of variable 0 and the outermost bound name.
fn equation(alloc: Global) -> Result<Core, AllocError> {
    let place = Place { line: 1, column: 1 };
    let left = Box::new(alloc, Core::Now(place, 0))?;
    let right = Box::new(alloc, Core::Bound(place, 0))?;
    Ok(Core::Equal(place, left, right))
}

#[test]
fn fits_where_its_names_exist(rt: HostRuntime) -> Result<(), Fail> {
    let core = equation(rt.alloc())?;
    assert!(rt; core.fits(1, 1, true));
    assert!(rt; !core.fits(0, 1, true) && !core.fits(1, 0, true) && !core.fits(1, 1, false));
    Ok(())
}
