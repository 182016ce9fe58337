// Scripts, and what they print.
use super::faults::{Fault, Reason};
use super::player::run;
use network::faults::Fault as NetworkFault;
use question::faults::Fault as QuestionFault;
use session::faults::Fault as SessionFault;
use std::alloc::Global;
use std::process::Abort;
use std::str;
use std::test::Fail;

// What the script prints.
fn output(heap: Global, script: &[u8]) -> Result<Vec<u8>, Fail> {
    let mut out = Vec::new(heap);
    run(script, heap, &mut out)?;
    Ok(out)
}

// Asserts that the script prints these lines.
fn prints(rt: &impl Abort, heap: Global, script: &str, lines: &str) -> Result<(), Fail> {
    let out = output(heap, script.as_bytes())?;
    assert_eq!(rt; str::from_utf8(&out)?, lines, "{script:?}");
    Ok(())
}

#[test]
fn the_sample_is_refused_a_tie_and_answered(rt: HostRuntime) -> Result<(), Fail> {
    prints(
        &rt,
        rt.alloc(),
        "RM three in a row\nNM 3\nMK\nPU 0 1 1\nPU 1 3 1\nPU 1 2 1\nQC 0\nQT 0 8\nGO\n",
        "RM three in a row\nER 5 3\nGO 3 2\nNO 0 0\nNO 1 1\nNO 2 2\nQU 1\nQU 2\n",
    )
}

#[test]
fn a_network_settles_into_its_roles(rt: HostRuntime) -> Result<(), Fail> {
    for (script, lines) in [
        // Two colours and no tie.
        (
            "NM 4\nMK\nCO 1 1\nCO 3 1\nGO\n",
            "GO 2 0\nNO 0 0\nNO 1 1\nNO 2 0\nNO 3 1\n",
        ),
        // A node that is tied to itself.
        ("NM 1\nMK\nPU 0 0 1\nGO\n", "GO 1 0\nNO 0 0\n"),
        // Chains.
        (
            "NM 3\nMK\nPU 0 1 1\nPU 1 2 1\nGO\n",
            "GO 3 2\nNO 0 0\nNO 1 1\nNO 2 2\n",
        ),
        (
            "NM 9\nMK\nPU 0 1 1\nPU 1 2 1\nPU 2 3 1\nPU 3 4 1\n\
             PU 4 5 1\nPU 5 6 1\nPU 6 7 1\nPU 7 8 1\nGO\n",
            "GO 9 8\nNO 0 0\nNO 1 1\nNO 2 2\nNO 3 3\nNO 4 4\n\
             NO 5 5\nNO 6 6\nNO 7 7\nNO 8 8\n",
        ),
        // Three students and two exams.
        (
            "NT 3 2\nMK\nPU 0 3 1\nPU 1 3 1\nGO\n",
            "GO 3 2\nNO 0 0\nNO 1 0\nNO 2 2\nNO 3 3\nNO 4 2\n",
        ),
    ] {
        prints(&rt, rt.alloc(), script, lines)?;
    }
    Ok(())
}

#[test]
fn the_measure_decides_what_a_role_is(rt: HostRuntime) -> Result<(), Fail> {
    // A team of three, and one of two.
    for (script, lines) in [
        (
            "NM 5\nMK\nPU 0 1 1\nPU 0 2 1\nPU 3 4 1\nGO\n",
            "GO 2 1\nNO 0 0\nNO 1 1\nNO 2 1\nNO 3 0\nNO 4 1\n",
        ),
        // Who has more than one tie?
        (
            "NM 5\nMT\nPU 0 1 1\nPU 0 2 1\nPU 3 4 1\nQC 0\nQT 0 1\nGO\n",
            "GO 4 3\nNO 0 0\nNO 1 1\nNO 2 1\nNO 3 3\nNO 4 4\nQU 0\n",
        ),
    ] {
        prints(&rt, rt.alloc(), script, lines)?;
    }
    // A cycle of three nodes, and a mutual tie.
    for (script, lines) in [
        (
            "NM 5\nMK\nPU 0 1 1\nPU 1 2 1\nPU 2 0 1\nPU 3 4 1\nPU 4 3 1\nGO\n",
            "GO 1 0\nNO 0 0\nNO 1 0\nNO 2 0\nNO 3 0\nNO 4 0\n",
        ),
        // Who has a mutual tie?
        (
            "NM 5\nMB\nPU 0 1 1\nPU 1 2 1\nPU 2 0 1\nPU 3 4 1\nPU 4 3 1\nQC 0\nQT 0 9\nGO\n",
            "GO 2 1\nNO 0 0\nNO 1 0\nNO 2 0\nNO 3 3\nNO 4 3\nQU 3\nQU 4\n",
        ),
        (
            "NM 5\nMT\nPU 0 1 1\nPU 1 2 1\nPU 2 0 1\nPU 3 4 1\nPU 4 3 1\nGO\n",
            "GO 1 0\nNO 0 0\nNO 1 0\nNO 2 0\nNO 3 0\nNO 4 0\n",
        ),
    ] {
        prints(&rt, rt.alloc(), script, lines)?;
    }
    Ok(())
}

#[test]
fn after_go_ties_and_colours_stay_and_the_question_is_new(rt: HostRuntime) -> Result<(), Fail> {
    let heap = rt.alloc();
    prints(
        &rt,
        heap,
        "NM 3\nMK\nPU 0 1 1\nGO\nPU 2 1 1\nGO\nPU 0 1 0\nPU 2 1 0\nGO\n",
        "GO 3 2\nNO 0 0\nNO 1 1\nNO 2 2\n\
         GO 2 1\nNO 0 0\nNO 1 1\nNO 2 0\n\
         GO 1 0\nNO 0 0\nNO 1 0\nNO 2 0\n",
    )?;
    prints(
        &rt,
        heap,
        "NM 3\nMK\nPU 0 1 1\nCO 2 5\nQC 0\nGO\nGO\nQN 0\nQC 5\nGO\n",
        "GO 3 1\nNO 0 0\nNO 1 1\nNO 2 2\nQU 0\nQU 1\n\
         GO 3 1\nNO 0 0\nNO 1 1\nNO 2 2\nER 8 8\n\
         GO 3 1\nNO 0 0\nNO 1 1\nNO 2 2\nQU 2\n",
    )
}

#[test]
fn a_refused_size_leaves_the_network_to_be_named(rt: HostRuntime) -> Result<(), Fail> {
    for (script, lines) in [
        (
            "NM 0\nNM 129\nNM 257\nNT 0 1\nNT 1 0\nNT 64 65\nNT 65535 65535\nMK\nNM 1\nMK\nGO\n",
            "ER 1 1\nER 2 1\nER 3 1\nER 4 1\nER 5 1\nER 6 1\nER 7 1\nER 8 14\nGO 1 0\nNO 0 0\n",
        ),
        ("NM 128\nMK\n", ""),
        ("NT 64 64\nMB\n", ""),
        ("NT 1 127\nMT\n", ""),
    ] {
        prints(&rt, rt.alloc(), script, lines)?;
    }
    Ok(())
}

#[test]
fn a_refused_node_or_pair_leaves_the_network_as_it_was(rt: HostRuntime) -> Result<(), Fail> {
    let heap = rt.alloc();
    prints(
        &rt,
        heap,
        "NM 2\nMK\nPU 2 0 1\nPU 0 2 1\nPU 256 0 1\nCO 2 1\nCO 256 1\nGO\n",
        "ER 3 3\nER 4 3\nER 5 3\nER 6 3\nER 7 3\nGO 1 0\nNO 0 0\nNO 1 0\n",
    )?;
    // Nodes 0 and 1 on side A, and node 2 on side B.
    prints(
        &rt,
        heap,
        "NT 2 1\nMK\nPU 0 1 1\nPU 2 0 1\nPU 2 2 0\nPU 3 3 1\nGO\nPU 0 2 1\nGO\n",
        "ER 3 4\nER 4 4\nER 5 4\nER 6 3\n\
         GO 1 0\nNO 0 0\nNO 1 0\nNO 2 0\nGO 3 2\nNO 0 0\nNO 1 1\nNO 2 2\n",
    )
}

#[test]
fn a_list_has_room_for_as_many_ties_as_slots(rt: HostRuntime) -> Result<(), Fail> {
    for (script, lines) in [
        // The second tie waits until the first is taken away.
        (
            "NL 3 1\nMK\nPU 0 1 1\nPU 0 2 1\nPU 0 1 0\nPU 0 2 1\nGO\n",
            "ER 4 5\nGO 3 2\nNO 0 0\nNO 1 1\nNO 2 2\n",
        ),
        // Where no slot is free, a pair that is tied takes another byte, and a number that is no
        // node is refused first.
        (
            "NL 2 2\nMT\nPU 0 1 1\nPU 1 0 1\nPU 0 1 255\nPU 0 0 1\nPU 0 2 1\nPU 0 0 0\nGO\n",
            "ER 6 5\nER 7 3\nGO 1 0\nNO 0 0\nNO 1 0\n",
        ),
        // Nodes are asked for before slots.
        (
            "NL 0 0\nNL 129 1025\nNL 3 0\nNL 3 1025\nNL 3 65535\nNL 128 1024\nNL 1 1\nMB\n",
            "ER 1 1\nER 2 1\nER 3 2\nER 4 2\nER 5 2\nER 7 14\n",
        ),
    ] {
        prints(&rt, rt.alloc(), script, lines)?;
    }
    Ok(())
}

#[test]
fn a_question_has_32_lines_that_name_earlier_ones(rt: HostRuntime) -> Result<(), Fail> {
    let heap = rt.alloc();
    prints(
        &rt,
        heap,
        "NM 2\nMK\nQN 0\nQN 300\nQC 0\nQN 256\nQN 1\nQA 0 1\nQA 1 0\nQT 1 0\nGO\n",
        "ER 3 8\nER 4 8\nER 6 8\nER 7 8\nER 8 8\nER 9 8\nER 10 8\n\
         GO 1 0\nNO 0 0\nNO 1 0\nQU 0\nQU 1\n",
    )?;
    let mut full = b"NM 1\nMK\n".to_vec(heap)?;
    for _ in 0..32 {
        full.extend_from_slice(b"QC 0\n")?;
    }
    // A line more is refused for that, also where it names a line that is not earlier.
    full.extend_from_slice(b"QC 1\nQN 99\nGO\nQC 1\n")?;
    prints(
        &rt,
        heap,
        str::from_utf8(&full)?,
        "ER 35 6\nER 36 6\nGO 1 0\nNO 0 0\nQU 0\n",
    )?;
    // Who has a tie to a node of colour 7, and not that colour?
    prints(
        &rt,
        heap,
        "NM 5\nMK\nPU 0 1 1\nPU 0 2 1\nPU 3 4 1\nCO 4 7\nQC 7\nQT 0 0\nQN 0\nQA 1 2\nGO\n",
        "GO 4 2\nNO 0 0\nNO 1 1\nNO 2 1\nNO 3 3\nNO 4 4\nQU 3\n",
    )
}

#[test]
fn a_record_that_does_not_fit_the_stage_is_refused(rt: HostRuntime) -> Result<(), Fail> {
    let heap = rt.alloc();
    // The greatest fields are right, and no node or line is asked for yet.
    for record in [
        "MK",
        "MB",
        "MT",
        "PU 65535 65535 255",
        "CO 65535 255",
        "QC 255",
        "QN 65535",
        "QA 65535 65535",
        "QT 65535 255",
        "GO",
    ] {
        prints(&rt, heap, record, "ER 1 14\n")?;
    }
    // A network is named once, and then a measure once.
    prints(
        &rt,
        heap,
        "NM 1\nNM 0\nNT 1 1\nPU 0 0 1\nCO 0 1\nQC 0\nGO\nMK\nNM 1\nNT 1 1\nMK\nMB\nMT\nGO\n",
        "ER 2 14\nER 3 14\nER 4 14\nER 5 14\nER 6 14\nER 7 14\n\
         ER 9 14\nER 10 14\nER 11 14\nER 12 14\nER 13 14\nGO 1 0\nNO 0 0\n",
    )
}

#[test]
fn an_unknown_mark_is_refused(rt: HostRuntime) -> Result<(), Fail> {
    let heap = rt.alloc();
    for record in [
        "\n", "N", "\r\n", " NM 3", "\tNM 3", "nm 3", "Nm 3", "N M 3", "NO 0 0", "ER 1 12", "QU 1",
        "# 3",
    ] {
        prints(&rt, heap, record, "ER 1 12\n")?;
    }
    // No byte but a capital letter stands in a mark.
    for b in 0..=255_u8 {
        if b.is_ascii_uppercase() || b == b'\n' {
            continue;
        }
        let first = output(heap, &[b, b'M', b' ', b'3'])?;
        assert!(rt; first.as_slice() == b"ER 1 12\n".as_slice(), "byte {b}");
        let second = output(heap, &[b'N', b, b' ', b'3'])?;
        assert!(rt; second.as_slice() == b"ER 1 12\n".as_slice(), "byte {b}");
    }
    Ok(())
}

#[test]
fn fields_that_are_wrong_in_number_or_form_are_refused(rt: HostRuntime) -> Result<(), Fail> {
    // Before it is asked whether the record fits the stage.
    for record in [
        "NM",
        "NM ",
        "NM3",
        "NM\t3",
        "NM  3",
        "NM 3 ",
        "NM 3\t",
        "NM 3\r",
        "NM 03",
        "NM 00",
        "NM +3",
        "NM -3",
        "NM 3.0",
        "NM 0x3",
        "NM three",
        "NM 3\0",
        "NM \u{663}",
        "NM 65536",
        "NM 11111111111111111111111111111111111111111111111111\
         11111111111111111111111111111111111111111111111111",
        "NM 3 4",
        "NT 3",
        "NT 3 2 1",
        "NL 3",
        "NL 3 4 5",
        "MK ",
        "MB 1",
        "MT\r",
        "PU 0 1",
        "PU 0 1 1 1",
        "CO 0",
        "CO 0 1 1",
        "QC",
        "QC 0 0",
        "QN",
        "QN 0 0",
        "QA 0",
        "QA 0 0 0",
        "QT 0",
        "QT 0 0 0",
        "GO 1",
    ] {
        prints(&rt, rt.alloc(), record, "ER 1 13\n")?;
    }
    Ok(())
}

#[test]
fn a_byte_is_at_most_255(rt: HostRuntime) -> Result<(), Fail> {
    prints(
        &rt,
        rt.alloc(),
        "NM 2\nMK\nPU 0 1 256\nCO 0 256\nQC 256\nQT 0 256\n\
         PU 0 1 255\nCO 1 255\nQC 255\nQT 0 7\nGO\nQC 255\nQT 0 255\nGO\n",
        "ER 3 13\nER 4 13\nER 5 13\nER 6 13\n\
         GO 2 0\nNO 0 0\nNO 1 1\nQU 0\nGO 2 0\nNO 0 0\nNO 1 1\n",
    )
}

#[test]
fn a_record_ends_with_a_line_feed_or_with_the_script(rt: HostRuntime) -> Result<(), Fail> {
    for (script, lines) in [
        ("", ""),
        ("NM 1\nMK\nGO", "GO 1 0\nNO 0 0\n"),
        (
            "NM 1\n\nMK\n\n\nGO\n",
            "ER 2 12\nER 4 12\nER 5 12\nGO 1 0\nNO 0 0\n",
        ),
        (
            "NM 1\r\nNM 1\nMK\r\nMK\nGO\r\nGO",
            "ER 1 13\nER 3 13\nER 5 13\nGO 1 0\nNO 0 0\n",
        ),
    ] {
        prints(&rt, rt.alloc(), script, lines)?;
    }
    Ok(())
}

#[test]
fn a_remark_is_printed_as_it_stands_at_each_stage(rt: HostRuntime) -> Result<(), Fail> {
    let heap = rt.alloc();
    prints(
        &rt,
        heap,
        "RM\nNM 1\nRM  two \r\nMK\nRMGO\nGO\nRM end",
        "RM\nRM  two \r\nRMGO\nGO 1 0\nNO 0 0\nRM end\n",
    )?;
    let mut every_byte = b"RM".to_vec(heap)?;
    for b in 0..=255 {
        if b != b'\n' {
            every_byte.push(b)?;
        }
    }
    every_byte.push(b'\n')?;
    assert!(rt; output(heap, &every_byte)?.as_slice() == every_byte.as_slice());
    Ok(())
}

#[test]
fn a_script_of_more_than_32768_bytes_is_refused_as_a_whole(rt: HostRuntime) -> Result<(), Fail> {
    let heap = rt.alloc();
    let mut script = b"RM".to_vec(heap)?;
    script.resize(32_768, b'x')?;
    let out = output(heap, &script)?;
    script.push(b'\n')?;
    assert!(rt; out.as_slice() == script.as_slice());
    let mut out = Vec::new(heap);
    let faults = run(&script, heap, &mut out)?;
    assert_eq!(rt; str::from_utf8(&out)?, "ER 0 15\n");
    assert_eq!(rt; faults.len(), 1);
    let whole = Fault {
        reason: Reason::Length,
        record: 0,
        offset: 0,
    };
    assert_eq!(rt; faults[0], whole);
    assert_eq!(rt;
        (whole.reason.number(), whole.reason.origin()),
        (15, "script")
    );
    assert_eq!(rt;
        format!(in heap; "{whole}")?.as_str(),
        "record 0, at byte 0: a script of more than 32768 bytes"
    );
    Ok(())
}

#[test]
fn each_refusal_is_told_with_its_place(rt: HostRuntime) -> Result<(), Fail> {
    let heap = rt.alloc();
    let script = b"NL 2 0\nNL 2 1\nMK\nPU 0 2 1\nPU 0 1 1\nPU 1 0 1\n\
        CO 5 1\nQN 0\nXX\nGO 1\nNM 2";
    let refusals = [
        (
            (Reason::Network(NetworkFault::Memory), 1, 0),
            (2, "network"),
            "record 1, at byte 0: too little memory, or more than 1,024 slots",
        ),
        (
            (Reason::Network(NetworkFault::Node), 4, 17),
            (3, "network"),
            "record 4, at byte 17: no such node",
        ),
        (
            (Reason::Network(NetworkFault::Full), 6, 35),
            (5, "network"),
            "record 6, at byte 35: as many tied pairs as the cap allows",
        ),
        (
            (Reason::Session(SessionFault::Node), 7, 44),
            (3, "session"),
            "record 7, at byte 44: no such node",
        ),
        (
            (Reason::Question(QuestionFault::Later(0)), 8, 51),
            (8, "question"),
            "record 8, at byte 51: a line that is not earlier, at line 0",
        ),
        (
            (Reason::Mark, 9, 56),
            (12, "script"),
            "record 9, at byte 56: an unknown mark",
        ),
        (
            (Reason::Fields, 10, 59),
            (13, "script"),
            "record 10, at byte 59: fields that are wrong in number or form",
        ),
        (
            (Reason::Stage, 11, 64),
            (14, "script"),
            "record 11, at byte 64: a record that does not fit the stage",
        ),
    ];
    let mut out = Vec::new(heap);
    let faults = run(script, heap, &mut out)?;
    assert_eq!(rt; faults.len(), refusals.len());
    for (&fault, ((reason, record, offset), told, words)) in faults.iter().zip(refusals) {
        let wanted = Fault {
            reason,
            record,
            offset,
        };
        assert_eq!(rt; fault, wanted);
        assert_eq!(rt;
            (fault.reason.number(), fault.reason.origin()),
            told,
            "record {record}"
        );
        assert_eq!(rt; format!(in heap; "{fault}")?.as_str(), words);
    }
    Ok(())
}

#[test]
fn what_is_printed_is_appended(rt: HostRuntime) -> Result<(), Fail> {
    let heap = rt.alloc();
    let mut out = b"before\n".to_vec(heap)?;
    run(b"NM 0\n", heap, &mut out)?;
    let faults = run(b"RM again\n", heap, &mut out)?;
    assert_eq!(rt; str::from_utf8(&out)?, "before\nER 1 1\nRM again\n");
    assert!(rt; faults.is_empty());
    Ok(())
}
