// Texts of each kind, with ample memory.
use solution_json::*;

#[test]
fn the_first_fault_of_form_is_named(rt: HostRuntime) {
    let rows = [
        (
            "{\"instance_uid\":\"Q\",\"flips\":[[],[[[1,3",
            SolForm::NotJson,
        ),
        ("[]", SolForm::NotObject),
        ("{\"flips\":[]}", SolForm::Missing(SolMember::Uid)),
        (
            "{\"instance_uid\":\"Q\",\"flips\":[[[1,3]]]}",
            SolForm::WrongType(SolMember::Flips),
        ),
        (
            "{\"instance_uid\":\"Q\",\"flips\":[[[[1,1]]],[[[0,1.0]]]]}",
            SolForm::NotInteger(3),
        ),
        (
            "{\"instance_uid\":\"Q\",\"flips\":[[],[[[1,3]],[[2,2]]]]}",
            SolForm::BadPair(2),
        ),
        (
            "{\"instance_uid\":\"Q\",\"flips\":[[[[0,4294967296]]]]}",
            SolForm::BadPair(0),
        ),
    ];
    for (text, want) in rows {
        let got = read_solution(rt.alloc(), text.as_bytes()).err();
        assert_eq!(rt; got, Some(SolutionFault::Form(want)), "{text}");
    }
}

#[test]
fn a_solution_is_written_as_it_was_read(rt: HostRuntime) {
    let text = "{\"meta\":{\"a\":1},\"instance_uid\":\"Q\\n\",\"flips\":[[],[[[3,1]],[]]]}";
    let want =
        "{\"content_type\":\"CGSHOP2026_Solution\",\"flips\":[[],[[[1,3]],[]]],\"instance_uid\":\"Q\\n\",\"meta\":{}}";
    let Ok(solution) = read_solution(rt.alloc(), text.as_bytes()) else {
        assert!(rt; false, "a solution");
        return;
    };
    let Ok(written) = solution_text(rt.alloc(), &solution) else {
        assert!(rt; false, "a text");
        return;
    };
    assert_eq!(rt; written.as_slice(), want.as_bytes());
}
