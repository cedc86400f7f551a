use mem_site::{Call, MemSite};
use site::{Geometry, Stop};
use std::alloc::Global;
use std::test::Fail;
use trace_report::simulate;

const LEAST: Geometry = Geometry {
    pages: 1,
    groups: 8,
    blocks: 16,
};

// Whether a trace, handed to three caches with eight groups and a pool of one page each, has this status, and this is
// told.
fn tells(alloc: Global, trace: &[u8], status: u8, told: &[u8]) -> Result<bool, Stop> {
    let mut site = MemSite::new(alloc, &LEAST)?;
    site.feed(trace)?;
    Ok(simulate(alloc, 8, 1, &mut site) == status && site.told() == told)
}

const REPORT_OF_NINE_WRITES: &[u8] = b"\
fifo touches 10 pool 0 flash 1 disk 9 staged 0 pushed 8
group touches 10 pool 0 flash 1 disk 9 staged 1 pushed 8
chance touches 10 pool 0 flash 1 disk 9 staged 0 pushed 8
";

const REPORT_OF_TWO_READS: &[u8] = b"\
fifo touches 2 pool 1 flash 0 disk 1 staged 0 pushed 0
group touches 2 pool 1 flash 0 disk 1 staged 0 pushed 0
chance touches 2 pool 1 flash 0 disk 1 staged 0 pushed 0
";

// The last line needs no newline.
#[test]
fn traces_are_reported(rt: HostRuntime) -> Result<(), Fail> {
    let rows: [(&[u8], &[u8]); 3] = [
        (
            b"w 0\nw 1\nr 0\nw 2\nw 3\nw 4\nw 5\nw 6\nw 7\nw 8\n",
            REPORT_OF_NINE_WRITES,
        ),
        (b"r 0\nr 0\n", REPORT_OF_TWO_READS),
        (b"r 65535\nr 65535", REPORT_OF_TWO_READS),
    ];
    for (trace, report) in rows {
        assert!(rt; tells(rt.alloc(), trace, 0, report)?);
    }
    Ok(())
}

// Of the first line that is no touch the number is told, and nothing else.
#[test]
fn the_first_wrong_line_is_told(rt: HostRuntime) -> Result<(), Fail> {
    let traces: [&[u8]; 14] = [
        b"r 0\nx 1\n",
        b"r 0\n\nr 1\n",
        b"r 0\nr\nx 1\n",
        b"r 0\nr ",
        b"r 0\nr 65536\n",
        b"r 0\nr 01\n",
        b"r 0\nw  1\n",
        b"r 0\nw 1 \n",
        b"r 0\nR 1\n",
        b"r 0\nw -1\n",
        b"r 0\nw 1\r\n",
        b"r 0\nr 99999\n",
        b"r 0\nw 123456789\n",
        b"r 0\nw 1234567890123456789",
    ];
    for trace in traces {
        assert!(rt; tells(rt.alloc(), trace, 16, b"fault trace 2\n")?);
    }
    Ok(())
}

// Taking the input fails, or telling the report.
#[test]
fn failing_calls_are_told(rt: HostRuntime) -> Result<(), Fail> {
    let rows: [(Call, u8, &[u8]); 2] = [(Call::Take, 5, b"fault input\n"), (Call::Tell, 6, b"")];
    for (call, status, told) in rows {
        let mut site = MemSite::new(rt.alloc(), &LEAST)?;
        site.feed(b"r 0\n")?;
        site.fail(call, 1)?;
        assert!(rt; simulate(rt.alloc(), 8, 1, &mut site) == status);
        assert!(rt; site.told() == told);
    }
    Ok(())
}
