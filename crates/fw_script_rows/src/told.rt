use fw_base::ListSink;
use fw_script::{Status, tell};
use std::test::Fail;

/// Each status, the line that tells of it, and the number of the process.
const ROWS: [(Status, &str, u8); 7] = [
    (Status::Done, "", 0),
    (Status::BadScript { line: 12 }, "fwd: bad-script 12\n", 2),
    (Status::ReadFault, "fwd: read-fault\n", 3),
    (Status::WriteFault, "fwd: write-fault\n", 4),
    (Status::InputTooLong, "fwd: input-too-long\n", 9),
    (Status::Usage, "fwd: usage\n", 64),
    (Status::Memory, "fwd: memory\n", 71),
];

#[test]
fn tells_of_each_status(rt: HostRuntime) -> Result<(), Fail> {
    let alloc = rt.alloc();
    for (status, line, number) in ROWS {
        let mut errors = ListSink::new(alloc, 64, Vec::new(alloc))?;
        assert_eq!(rt; tell(status, &mut errors), number);
        assert_eq!(rt; errors.written(), line.as_bytes());
    }
    Ok(())
}
