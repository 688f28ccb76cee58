use super::*;

#[test]
fn begins_with_an_enum(rt: HostRuntime) {
    let Ok(bytes) = generate(rt.alloc(), 0) else {
        panic!(rt; "the file wants memory");
    };
    let front = b"#[repr(u8)]\nenum T0 {\n    V0 = 2,\n}\n";
    assert!(rt; bytes.as_slice().starts_with(front));
}

#[test]
fn ends_with_a_question(rt: HostRuntime) {
    for (number, length, end) in [
        (0, 3612, "ask T14 => T2;\n"),
        (1, 3281, "ask T2 => T2 assume alignment, validity;\n"),
        (7, 3505, "ask T22 => T11 assume validity;\n"),
        (u64::MAX, 3216, "ask T6 => T7;\n"),
    ] {
        let Ok(bytes) = generate(rt.alloc(), number) else {
            panic!(rt; "the file wants memory");
        };
        assert_eq!(rt; bytes.len(), length);
        assert!(rt; bytes.as_slice().ends_with(end.as_bytes()));
    }
}
