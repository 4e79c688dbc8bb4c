use blk_copy::{Transfer, Transfers};
use std::test::Fail;

#[test]
fn two_jobs(rt: HostRuntime) -> Result<(), Fail> {
    let mut transfers = Transfers::with_room(rt.alloc(), 3)?;
    let first = Transfer {
        job: 0,
        cluster: 5,
        position: 10,
    };
    let second = Transfer {
        job: 1,
        cluster: 5,
        position: 11,
    };
    assert!(rt; !transfers.find(first));
    assert!(rt; !transfers.close_row(0, 5));
    transfers.enter(first);
    transfers.enter(second);
    assert!(rt; transfers.find(first));
    assert!(rt; transfers.find(second));
    assert!(rt;
        !transfers.find(Transfer {
            position: 12,
            ..second
        })
    );
    assert!(rt; !transfers.close_row(0, 6));
    assert!(rt; transfers.close_row(0, 5));
    assert!(rt; !transfers.close_row(0, 5));
    assert!(rt; !transfers.find(first));
    assert!(rt; transfers.find(second));
    Ok(())
}
