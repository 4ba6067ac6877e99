use crate::faults::{Malformed, PortFault};
use crate::fences::{Fence, Range};
use crate::interface::Port;
use crate::lists::ListPort;
use crate::texts::TextPort;
use refusals::Fault;
use std::process::Abort;
use std::test::Fail;

/// A read of the port gives the answer.
fn gives<P: Port>(rt: &impl Abort, port: &mut P, answer: Result<i32, PortFault>) {
    assert_eq!(rt; port.read(), answer);
}

/// A write of the number to the port gives the answer.
fn takes<P: Port>(rt: &impl Abort, port: &mut P, n: i32, answer: Result<(), PortFault>) {
    assert_eq!(rt; port.write(n), answer);
}

/// The numbers that wait in a text, and its first malformed word.
fn reads(rt: &impl Abort, text: &[u8], numbers: &[i32], malformed: Option<Malformed>) {
    let mut output = [0u8; 0];
    let mut port = TextPort::over(text, &mut output);
    assert_eq!(rt; port.malformed(), malformed);
    for n in numbers {
        gives(rt, &mut port, Ok(*n));
    }
    gives(rt, &mut port, Err(PortFault::NoneWaits));
    assert_eq!(rt; port.malformed(), malformed);
}

/// An output of so many bytes has room for so many numbers.
fn has_room(rt: &impl Abort, output: &mut [u8], room: usize) {
    let mut port = TextPort::over(b"", output);
    for _ in 0..room {
        takes(rt, &mut port, 1, Ok(()));
    }
    takes(rt, &mut port, 2, Err(PortFault::NoRoom(2)));
}

#[test]
fn lists(rt: HostRuntime) {
    let input = [7, -2_147_483_648];
    let mut output = [0; 1];
    let mut port = ListPort::over(&input, &mut output);
    takes(&rt, &mut port, 2_147_483_647, Ok(()));
    takes(&rt, &mut port, 6, Err(PortFault::NoRoom(6)));
    assert_eq!(rt; port.written(), [2_147_483_647].as_slice());
    gives(&rt, &mut port, Ok(7));
    gives(&rt, &mut port, Ok(-2_147_483_648));
    gives(&rt, &mut port, Err(PortFault::NoneWaits));
}

#[test]
fn waiting(rt: HostRuntime) {
    reads(&rt, b"", &[], None);
    reads(&rt, b" \t\r\n", &[], None);
    reads(&rt, b"1 -2\t003\n-0\r10", &[1, -2, 3, 0, 10], None);
    reads(
        &rt,
        b" 2147483647 -2147483648 ",
        &[2_147_483_647, -2_147_483_648],
        None,
    );
}

#[test]
fn malformed(rt: HostRuntime) {
    reads(&rt, b"x 1", &[], Some(Malformed { place: 0 }));
    reads(&rt, b"1 +1 2", &[1], Some(Malformed { place: 2 }));
    reads(&rt, b" 1 2  -", &[1, 2], Some(Malformed { place: 6 }));
    reads(&rt, b"1,2", &[], Some(Malformed { place: 0 }));
    reads(&rt, b"0 2147483648", &[0], Some(Malformed { place: 2 }));
    reads(&rt, b"0 -2147483649 x", &[0], Some(Malformed { place: 2 }));
}

#[test]
fn rooms(rt: HostRuntime) {
    has_room(&rt, &mut [0; 11], 0);
    has_room(&rt, &mut [0; 12], 1);
    has_room(&rt, &mut [0; 23], 1);
    has_room(&rt, &mut [0; 24], 2);
}

#[test]
fn spellings(rt: HostRuntime) {
    let mut output = [b'x'; 36];
    let mut port = TextPort::over(b"", &mut output);
    takes(&rt, &mut port, 0, Ok(()));
    takes(&rt, &mut port, -2_147_483_648, Ok(()));
    takes(&rt, &mut port, 2_147_483_647, Ok(()));
    assert_eq!(rt; port.written(), b"0\n-2147483648\n2147483647\n".as_slice());
    assert_eq!(rt; &output[25..], b"xxxxxxxxxxx".as_slice());
}

#[test]
fn fences(rt: HostRuntime) -> Result<(), Fail> {
    let input = [9];
    let mut output = [0; 2];
    let mut port = ListPort::over(&input, &mut output);
    let mut outer = Fence::over(&mut port, Range::over(-5, 5)?);
    takes(&rt, &mut outer, -5, Ok(()));
    takes(&rt, &mut outer, 6, Err(PortFault::OutOfRange(6)));
    let mut inner = Fence::over(&mut outer, Range::over(6, 9)?);
    takes(&rt, &mut inner, 5, Err(PortFault::OutOfRange(5)));
    takes(&rt, &mut inner, 6, Err(PortFault::OutOfRange(6)));
    gives(&rt, &mut inner, Ok(9));
    assert_eq!(rt; port.written(), [-5].as_slice());
    Ok(())
}

#[test]
fn numbers(rt: HostRuntime) {
    assert_eq!(rt; PortFault::NoneWaits.number(), 43);
    assert_eq!(rt; PortFault::NoRoom(-3).number(), 49);
    assert_eq!(rt; PortFault::OutOfRange(4).carries(), 4);
    assert_eq!(rt; Malformed { place: 1 }.number(), 54);
    assert_eq!(rt;
        Range::over(3, 2).err().map(|fault| fault.number()),
        Some(53)
    );
}
