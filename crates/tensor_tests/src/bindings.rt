//! Tests of frames of version 3 with bindings: their tensors, how many values may follow a header,
//! and inputs that are lent and freed.

use crate::told::expect;
use expr_reader::{read_frame, values_limit};
use std::test::Fail;
use tensor_runner::eval;

/// A header of version 3 with two bindings: the square of `a`, and twice that square.
const NAMED: &[u8] = br#"{"version":3,"workers":2,"block":4,"inputs":{"a":{"dims":[2]}},
    "expr":["let","b",["mul","a","a"],["let","c",["add","b","b"],["sub",["mul","b","c"],"a"]]]}"#;

#[test]
fn tensors_with_names(rt: HostRuntime) -> Result<(), Fail> {
    let request = read_frame(rt.alloc(), NAMED, &[3, -1])?;
    expect(&rt, "bindings", &request.bindings.len(), &2);
    expect(&rt, "dims", &request.dims.as_slice(), &[2].as_slice());
    let tensor = eval(&rt, rt.alloc(), &request)?;
    expect(&rt, "values", &tensor.values(), &[159, 3].as_slice());
    Ok(())
}

#[test]
fn values_behind_headers(rt: HostRuntime) -> Result<(), Fail> {
    for (header, most) in [
        (NAMED, 4_294_967_296),
        (
            br#"{"version":2,"workers":2,"block":4,"inputs":{},"expr":"a"}"#.as_slice(),
            16_777_216,
        ),
        (br#"{"version":3}"#.as_slice(), 16_777_216),
        (b"3".as_slice(), 16_777_216),
    ] {
        expect(&rt, header, &values_limit(rt.alloc(), header)?, &most);
    }
    Ok(())
}

#[test]
fn inputs_lent(rt: HostRuntime) -> Result<(), Fail> {
    let request = read_frame(rt.alloc(), NAMED, &[3, -1])?;
    let mut lent = request.inputs.lent(rt.alloc())?.widened();
    assert_eq!(rt; lent.len(), 1);
    expect(&rt, "lent", &lent.get(0).values(), &[3, -1].as_slice());
    lent.free(0);
    assert_eq!(rt; lent.len(), 1);
    expect(&rt, "freed", &lent.get(0).values(), &[0].as_slice());
    Ok(())
}
