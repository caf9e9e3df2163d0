use desk::arguments::month_asked_for;
use desk::demands::answer;
use std::alloc::{AllocError, Global};
use std::process::Abort;
use std::test::Fail;
use stores::full_table::FullTable;

// A line's first values, how many withdrawals of 5 follow, and what stands at its end.
const LINES: [(&[u8], u8, &[u8]); 13] = [
    (b"", 0, b""),
    (b"1|1", 23, b""),
    (b"1|1", 25, b""),
    (b"x|1", 24, b""),
    (b"1|123", 24, b""),
    (b"1234567890|1", 24, b""),
    (b"1|1|w5", 23, b""),
    (b"1|1", 23, b"|W123456789"),
    (b"2|1", 24, b""),
    (b"0|1", 24, b""),
    (b"1|29", 24, b""),
    (b"1|0", 24, b""),
    (b"1|1", 24, b""),
];

const TOLD: &[u8] = b"\
demands: line 1: refused 20: the line has not 26 values
demands: line 2: refused 20: the line has not 26 values
demands: line 3: refused 20: the line has not 26 values
demands: line 4: refused 21: value 1: the value is malformed
demands: line 5: refused 21: value 2: the value is malformed
demands: line 6: refused 21: value 1: the value is malformed
demands: line 7: refused 21: value 3: the value is malformed
demands: line 8: refused 21: value 26: the value is malformed
demands: line 9: refused 6: the point is not declared
demands: line 10: refused 6: the point is not declared
demands: line 11: refused 7: the day is not in the month
demands: line 12: refused 7: the day is not in the month
demands: refused 15: point 1, day 2: the sheet is missing
";

fn faulty_file(heap: Global) -> Result<Vec<u8>, AllocError> {
    let mut file = Vec::new(heap);
    for (front, hours, end) in LINES {
        file.extend_from_slice(front)?;
        for _hour in 0..hours {
            file.extend_from_slice(b"|W5")?;
        }
        file.extend_from_slice(end)?;
        file.push(b'\n')?;
    }
    Ok(file)
}

// February 2023 of one network point: each faulty line is told and passed over, then the first sheet that is missing.
#[test]
fn a_faulty_file_is_told_line_by_line(rt: HostRuntime) -> Result<(), Fail> {
    let heap = rt.alloc();
    let Ok(month) = month_asked_for(b"2023", b"2", b"20", b"-", b"N") else {
        return Err(Fail::new("no month"));
    };
    let file = faulty_file(heap)?;
    let mut memory = [0u32; 28 * 24];
    let mut store = FullTable::new(&mut memory, 1, 28);
    let mut out = Vec::new(heap);
    let mut faults = Vec::new(heap);
    let printed = answer(&month, &mut store, file.as_slice(), &mut out, &mut faults)?;
    assert!(rt; !printed);
    assert!(rt; out.is_empty());
    assert!(rt; faults.as_slice() == TOLD);
    Ok(())
}

// Checks what is told of a month and points without marks on days.
fn is_told(
    rt: &impl Abort,
    heap: Global,
    year: &[u8],
    month: &[u8],
    summer: &[u8],
    points: &[u8],
    words: &str,
) -> Result<(), Fail> {
    let Err(fault) = month_asked_for(year, month, b"-", summer, points) else {
        return Err(Fail::new("a month"));
    };
    let told = format!(in heap; "{fault}")?;
    assert!(rt; told.as_str() == words);
    Ok(())
}

#[test]
fn bad_arguments_are_told(rt: HostRuntime) -> Result<(), Fail> {
    let heap = rt.alloc();
    is_told(
        &rt,
        heap,
        b"x",
        b"5",
        b"-",
        b"N",
        "YEAR: not a whole number",
    )?;
    is_told(
        &rt,
        heap,
        b"2023",
        b"",
        b"-",
        b"N",
        "MONTH: not a whole number",
    )?;
    is_told(
        &rt,
        heap,
        b"2023",
        b"13",
        b"-",
        b"N",
        "refused 1: the year is 2000 to 2099 and the month 1 to 12",
    )?;
    is_told(
        &rt,
        heap,
        b"2023",
        b"2",
        b"29",
        b"N",
        "refused 2: a day is marked that the month lacks",
    )?;
    is_told(
        &rt,
        heap,
        b"2023",
        b"2",
        b"3-1",
        b"N",
        "SUMMER: not days as 1,5,22-24 or -",
    )?;
    is_told(
        &rt,
        heap,
        b"2023",
        b"2",
        b"-",
        b"N,CX",
        "POINTS: point 2: refused 3: a point is N, or C with L, T or LT",
    )
}
