// Questions that are taken, and what is told of those that are not.
use super::checking::check;
use super::faults::Fault;
use super::line::{Claim, Line};
use std::test::Fail;

// A line of this code with all operands.
fn coded(code: u8) -> Line {
    Line {
        code,
        k: 5,
        l: 6,
        byte: 7,
    }
}

#[test]
fn a_code_tells_which_operands_are_read(rt: HostRuntime) {
    for (code, claim) in [
        (0, Some(Claim::Colour(7))),
        (1, Some(Claim::Not(5))),
        (2, Some(Claim::And(5, 6))),
        (3, Some(Claim::Tied(5, 7))),
        (4, None),
        (255, None),
    ] {
        assert_eq!(rt; coded(code).claim(), claim, "code {code}");
    }
}

#[test]
fn a_line_claims_what_it_was_made_for(rt: HostRuntime) {
    assert_eq!(rt; Line::colour(7).claim(), Some(Claim::Colour(7)));
    assert_eq!(rt; Line::not(5).claim(), Some(Claim::Not(5)));
    assert_eq!(rt; Line::and(5, 6).claim(), Some(Claim::And(5, 6)));
    assert_eq!(rt; Line::tied(5, 7).claim(), Some(Claim::Tied(5, 7)));
}

#[test]
fn one_to_32_lines_are_taken(rt: HostRuntime) {
    let line = Line::colour(1);
    assert_eq!(rt; check(&[], 4, 999), Err(Fault::Lines));
    assert_eq!(rt; check(&[line], 4, 999), Ok(0));
    assert_eq!(rt; check(&[line; 32], 4, 999), Ok(124));
    assert_eq!(rt; check(&[line; 33], 4, 999), Err(Fault::Lines));
}

#[test]
fn a_line_names_earlier_lines_only(rt: HostRuntime) {
    let first = Line::colour(1);
    for (line, taken) in [
        (Line::not(0), true),
        (Line::not(1), false),
        (Line::not(2), false),
        (Line::and(0, 0), true),
        (Line::and(0, 1), false),
        (Line::and(1, 0), false),
        (Line::tied(0, 15), true),
        (Line::tied(1, 0), false),
        (Line::tied(usize::MAX, 0), false),
        // The operands that colour has not are not read.
        (coded(0), true),
    ] {
        let answer = if taken { Ok(3) } else { Err(Fault::Later(1)) };
        assert_eq!(rt; check(&[first, line], 3, 6), answer, "{line:?}");
    }
    assert_eq!(rt; check(&[Line::not(0)], 3, 3), Err(Fault::Later(0)));
}

#[test]
fn the_first_no_is_told(rt: HostRuntime) {
    let colour = Line::colour(1);
    let unknown = coded(4);
    let itself = Line::not(1);
    // The number of lines before the lines.
    assert_eq!(rt; check(&[unknown; 33], 3, 0), Err(Fault::Lines));
    // The code of a line before the lines that it names.
    assert_eq!(rt; check(&[colour, unknown], 3, 6), Err(Fault::Code(1)));
    // An earlier line before a later one, whatever is wrong with them.
    assert_eq!(rt; check(&[itself, unknown], 3, 6), Err(Fault::Later(0)));
    assert_eq!(rt; check(&[unknown, itself], 3, 6), Err(Fault::Code(0)));
    assert_eq!(rt;
        check(&[colour, itself, unknown], 3, 9),
        Err(Fault::Later(1))
    );
    // Every line before the area.
    assert_eq!(rt;
        check(&[colour, colour, unknown], 3, 0),
        Err(Fault::Code(2))
    );
    assert_eq!(rt; check(&[colour, itself], 3, 0), Err(Fault::Later(1)));
    assert_eq!(rt; check(&[colour, colour], 3, 0), Err(Fault::Area));
}

#[test]
fn the_area_has_a_byte_for_each_line_and_column(rt: HostRuntime) {
    let lines = [Line::colour(1), Line::not(0), Line::and(0, 1)];
    assert_eq!(rt; check(&lines, 5, 15), Ok(10));
    assert_eq!(rt; check(&lines, 5, 14), Err(Fault::Area));
    assert_eq!(rt; check(&lines, 5, 0), Err(Fault::Area));
    // What is more of it does not move the last row.
    assert_eq!(rt; check(&lines, 5, 999), Ok(10));
    // More bytes than any area has.
    assert_eq!(rt; check(&lines, usize::MAX, usize::MAX), Err(Fault::Area));
}

#[test]
fn without_columns_every_row_is_empty(rt: HostRuntime) {
    let lines = [Line::colour(1), Line::not(0)];
    assert_eq!(rt; check(&lines, 0, 0), Ok(0));
    assert_eq!(rt; check(&lines, 0, 4), Ok(0));
    assert_eq!(rt; check(&[], 0, 0), Err(Fault::Lines));
    assert_eq!(rt; check(&[Line::not(0)], 0, 0), Err(Fault::Later(0)));
}

#[test]
fn a_fault_tells_its_number_and_line(rt: HostRuntime) {
    for (fault, number, line) in [
        (Fault::Lines, 6, None),
        (Fault::Code(1), 7, Some(1)),
        (Fault::Later(31), 8, Some(31)),
        (Fault::Area, 9, None),
    ] {
        assert_eq!(rt; fault.number(), number);
        assert_eq!(rt; fault.line(), line, "number {number}");
        assert_eq!(rt; fault.origin(), "question", "number {number}");
    }
}

#[test]
fn a_fault_says_what_is_wrong(rt: HostRuntime) -> Result<(), Fail> {
    for (fault, words) in [
        (Fault::Lines, "not 1 to 32 lines"),
        (Fault::Code(3), "an unknown code at line 3"),
        (Fault::Later(31), "a line that is not earlier, at line 31"),
        (Fault::Area, "too small an area"),
    ] {
        assert_eq!(rt; format!(in rt.alloc(); "{fault}")?.as_str(), words);
    }
    Ok(())
}
