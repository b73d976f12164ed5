use rl_bus::*;

// A write of four bytes.
fn write() -> BusOp {
    BusOp {
        write: true,
        address: 0,
        word: 5,
        lanes: 15,
        bytes: 4,
    }
}

fn trail_of_write() -> u64 {
    let answer = Answer {
        word: 0,
        failed: false,
    };
    trail_of_answer(trail_of_operation(0, &write()), &answer)
}

#[test]
fn trail_of_one_item(rt: HostRuntime) {
    assert_eq!(rt; trail_of_write(), 892571995);
}
