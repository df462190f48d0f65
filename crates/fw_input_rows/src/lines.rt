use fw_base::ListSource;
use fw_input::{Advance, LineReader};
use std::alloc::{AllocError, Global};
use std::test::Fail;

/// An input, cut for its reads, with the reads that fail; the limits; and what its advances come to.
#[derive(Drop)]
struct Row {
    input: &'static [u8],
    cut: usize,
    failing: &'static [u64],
    line_limit: usize,
    input_limit: usize,
    trace: &'static [u8],
}

/// Each line with a bar behind it, and a sign for each other answer: `.` for the end, `>` for a long line,
/// `#` for a long input, `!` for a failed read.
fn trace_of(alloc: Global, row: &Row) -> Result<Vec<u8>, AllocError> {
    let input = Vec::from_slice(alloc, row.input)?;
    let failing = Vec::from_slice(alloc, row.failing)?;
    let mut source = ListSource::new(input, row.cut.max(1), failing);
    let mut reader = LineReader::new(alloc, row.line_limit, row.input_limit);
    let mut trace = Vec::new(alloc);
    for _ in 0..9 {
        let sign = match reader.advance(&mut source) {
            Advance::Line => {
                trace.extend_from_slice(reader.line())?;
                b'|'
            }
            Advance::End => b'.',
            Advance::LineTooLong => b'>',
            Advance::InputTooLong => b'#',
            Advance::Failed => b'!',
            Advance::Memory => b'?',
        };
        trace.push(sign)?;
    }
    Ok(trace)
}

#[test]
fn inputs_are_cut_into_lines(rt: HostRuntime) -> Result<(), Fail> {
    let rows = [
        Row {
            input: b"ab\nc\n\nd",
            cut: 1,
            failing: &[],
            line_limit: 2,
            input_limit: 7,
            trace: b"ab|c||d|.....",
        },
        Row {
            input: b"ab\ncde\nf",
            cut: 4,
            failing: &[],
            line_limit: 2,
            input_limit: 100,
            trace: b"ab|>>>>>>>>",
        },
        Row {
            input: b"ab\ncd\n",
            cut: 9,
            failing: &[],
            line_limit: 2,
            input_limit: 5,
            trace: b"ab|########",
        },
        Row {
            input: b"ab\nc",
            cut: 2,
            failing: &[2],
            line_limit: 2,
            input_limit: 100,
            trace: b"!ab|c|......",
        },
    ];
    for row in &rows {
        let trace = trace_of(rt.alloc(), row)?;
        assert_eq!(rt; trace.as_slice(), row.trace);
    }
    Ok(())
}

#[test]
fn long_lines_are_read_to_the_end(rt: HostRuntime) -> Result<(), Fail> {
    let alloc = rt.alloc();
    let mut input = Vec::new(alloc);
    for _ in 0..300 {
        for _ in 0..1_000 {
            input.push(b'x')?;
        }
        input.push(b'\n')?;
    }
    let mut source = ListSource::new(input, 7_000, Vec::new(alloc));
    let mut reader = LineReader::new(alloc, 1_000, 400_000);
    for _ in 0..300 {
        assert!(rt; reader.advance(&mut source) == Advance::Line);
        assert!(rt; reader.line().len() == 1_000);
    }
    assert!(rt; reader.advance(&mut source) == Advance::End);
    Ok(())
}
