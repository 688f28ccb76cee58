use crate::worlds::world;
use tm_base::{Answer, RefId, Rule, Text};
use tm_report::{line, ref_line, summary};

/// The text, where there was memory for it.
fn written(text: &Option<Text>) -> &str {
    match text {
        None => "no memory",
        Some(text) => text.as_str(),
    }
}

#[test]
fn lines_are_written(rt: HostRuntime) {
    let alloc = rt.alloc();
    let file = "lifetime 'a; ask &'a u8 => &'a bool;";
    let world = world(alloc, file).expect(&rt, "a world");
    let text = line(alloc, 8, &world, &Answer::No(Rule::TargetPrivate)).ok();
    assert_eq!(rt; written(&text), "8: no, target-private\n");
    if world.refs.len() > 1 {
        let text = ref_line(alloc, &world, RefId(1)).ok();
        assert_eq!(rt; written(&text), "&1 = &'a u8\n");
    }
    let text = summary(alloc, 5, 6, 1).ok();
    assert_eq!(rt; written(&text), "5 yes, 6 no, 1 refused\n");
}
