use crate::exit::Exit;
use crate::show::show_within;
use pr_io::{MemSink, MemSource};
use std::test::*;

#[test]
fn no_more_than_so_many_bytes_are_shown(rt: HostRuntime) -> Result<(), Fail> {
    let alloc = rt.alloc();
    let logout = [0, 0, 0, 8, 3, 0, 0, 0, 0, 0, 0, 9];
    let longer = [0, 0, 0, 8, 3, 0, 0, 0, 0, 0, 0, 9, 0];
    let bad = [0, 0, 0, 7, 0];
    for (bytes, budget, exit, text) in [
        (&logout[..], 12, Exit::Done, "logout tag=9\nend frames=1\n"),
        (&longer[..], 13, Exit::Done, "logout tag=9\ncut place=12\n"),
        (&longer[..], 12, Exit::TooLong, "logout tag=9\n"),
        (&logout[..], 11, Exit::TooLong, ""),
        (&bad[..], 4, Exit::Done, "bad place=0 reason=1\n"),
        (&bad[..], 3, Exit::TooLong, ""),
        (&bad[..0], 0, Exit::Done, "end frames=0\n"),
        (&bad[..1], 0, Exit::TooLong, ""),
    ] {
        let mut source = MemSource::new(bytes.to_vec(alloc)?, Vec::new(alloc));
        let mut sink = MemSink::new(alloc, Vec::new(alloc));
        let found = show_within(alloc, &mut source, &mut sink, budget);
        assert_eq!(rt; found, exit, "of {budget} bytes");
        assert_eq!(rt; sink.bytes(), text.as_bytes(), "of {budget} bytes");
    }
    Ok(())
}
