// Texts of each kind, with ample memory.
use instance_json::*;

#[test]
fn the_first_fault_of_form_is_named(rt: HostRuntime) {
    let rows = [
        (
            "{\"instance_uid\":\"Q\",\"points_x\":[0,2,2,0],\"points_y\":[0,0,2,2],\"triangulations\":[[[0,1],[1,2]",
            Form::NotJson,
        ),
        ("", Form::NotJson),
        ("[]", Form::NotObject),
        ("{}", Form::Missing(Member::Uid)),
        (
            "{\"instance_uid\":\"Q\",\"points_x\":[0,1.5,2,0],\"points_y\":[0,0,2,2],\"triangulations\":[]}",
            Form::NotInteger(Member::PointsX, 1),
        ),
        (
            "{\"instance_uid\":\"Q\",\"points_x\":[9223372036854775808],\"points_y\":[0],\"triangulations\":[]}",
            Form::NotInteger(Member::PointsX, 0),
        ),
        (
            "{\"instance_uid\":\"Q\",\"points_x\":[0,2,2,0],\"points_y\":[0,0,2],\"triangulations\":[]}",
            Form::LengthMismatch(4, 3),
        ),
        (
            "{\"instance_uid\":\"Q\",\"points_x\":[0,2],\"points_y\":[0],\"triangulations\":[[[0,1]],[[1,0],[0,null]]]}",
            Form::NotInteger(Member::Triangulations, 5),
        ),
        (
            "{\"instance_uid\":\"Q\",\"points_x\":[1.0],\"points_y\":[0],\"triangulations\":[[[0,1,2]]]}",
            Form::WrongType(Member::Triangulations),
        ),
        (
            "{\"instance_uid\":\"Q\",\"points_x\":[0.5],\"points_y\":[],\"triangulations\":[[],[]],\"x_weights\":\"a\"}",
            Form::WrongType(Member::Weights),
        ),
        (
            "{\"instance_uid\":\"Q\",\"points_x\":[0],\"points_y\":[],\"triangulations\":[[],[]],\"x_weights\":[1,1.5]}",
            Form::NotInteger(Member::Weights, 1),
        ),
        (
            "{\"instance_uid\":\"Q\",\"points_x\":[0],\"points_y\":[0],\"triangulations\":[[],[]],\"x_weights\":[1]}",
            Form::WeightCount(1, 2),
        ),
    ];
    for (text, want) in rows {
        let got = read_instance(rt.alloc(), text.as_bytes()).err();
        assert_eq!(rt; got, Some(InstanceFault::Form(want)), "{text}");
    }
}

#[test]
fn an_instance_has_the_values_of_its_text(rt: HostRuntime) {
    // The last value of a repeated member counts, and a member of another name changes nothing.
    let text =
        "{\"instance_uid\":\"Q\",\"points_x\":[7],\"more\":{},\"points_x\":[0,2,5,0],\n\"points_y\":[0,0,2,-2],\"triangulations\":[[],[[0,1],[3,2]]]}";
    let got = read_instance(rt.alloc(), text.as_bytes());
    let Ok(raw) = got else {
        assert!(rt; false, "an instance");
        return;
    };
    assert_eq!(rt; raw.uid.text(), "Q");
    assert_eq!(rt; raw.points.len(), 4);
    assert_eq!(rt; raw.inputs.len(), 2);
    // Without weights each input weighs 1.
    assert_eq!(rt; raw.weights.as_slice(), [1, 1].as_slice());
}

#[test]
fn weights_are_read_in_the_order_of_the_text(rt: HostRuntime) {
    let text =
        "{\"instance_uid\":\"Q\",\"points_x\":[],\"points_y\":[],\"triangulations\":[[],[]],\"x_weights\":[3,-1]}";
    let got = read_instance(rt.alloc(), text.as_bytes());
    let Ok(raw) = got else {
        assert!(rt; false, "an instance");
        return;
    };
    assert_eq!(rt; raw.weights.as_slice(), [3, -1].as_slice());
}
