//! A store and a port together.
//!
//! A fault of either travels up whole inside one fault, by `?`. [`pass_on`] is proved once, for every store and every port,
//! from their meanings alone.
#![tactic(auto)]

pub mod faults;
pub mod passing;

#[cfg(test)]
mod tests {
    use super::faults::*;
    use super::passing::pass_on;
    use ports::fences::*;
    use ports::lists::ListPort;
    use refusals::Fault;
    use sets::lent::*;
    use sets::rows::Row;
    use std::test::Fail;

    fn told(fault: DeviceFault) -> (u8, i32) {
        (fault.number(), fault.carries())
    }

    #[test]
    fn faults_of_each_layer(rt: HostRuntime) {
        let mut rows = [Row::new(); ROWS];
        let mut store = RowStore::over(&mut rows);
        let mut output = [0; 1];
        let mut list = ListPort::over(&[5, 6, 9], &mut output);
        assert_eq!(rt; pass_on(&mut store, &mut list, 1).map_err(told), Ok(()));
        assert_eq!(rt;
            pass_on(&mut store, &mut list, 1).map_err(told),
            Err((49, 6))
        );
        assert_eq!(rt;
            pass_on(&mut store, &mut list, 40).map_err(told),
            Err((56, 40))
        );
        assert_eq!(rt;
            pass_on(&mut store, &mut list, 1).map_err(told),
            Err((43, 0))
        );
    }

    #[test]
    fn behind_a_fence(rt: HostRuntime) -> Result<(), Fail> {
        let mut rows = [Row::new(); ROWS];
        let mut store = RowStore::over(&mut rows);
        let mut output = [0; 4];
        let mut list = ListPort::over(&[5, 11], &mut output);
        let range = Range::over(0, 10)?;
        let mut fence = Fence::over(&mut list, range);
        assert_eq!(rt; pass_on(&mut store, &mut fence, 1).map_err(told), Ok(()));
        assert_eq!(rt;
            pass_on(&mut store, &mut fence, 1).map_err(told),
            Err((50, 11))
        );
        Ok(())
    }
}
