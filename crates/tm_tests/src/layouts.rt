use crate::worlds::world;
use tm_base::{Ground, NamedId, Why, World};
use tm_layout::{Layout, Layouts};

/// The layouts of the sides of a world's first question.
fn sides(layouts: &Layouts, world: &World) -> Option<(Result<Layout, Why>, Result<Layout, Why>)> {
    let ask = world.questions.get(0)?;
    Some((layouts.of(&ask.src), layouts.of(&ask.dst)))
}

#[test]
fn layouts_are_answered(rt: HostRuntime) {
    let text = "#[repr(C)] struct S { pub a: u8, pub b: Cell<u32> } ask S => Option<(u8,)>;";
    let world = world(rt.alloc(), text).expect(&rt, "a world");
    let layouts = Layouts::new(rt.alloc(), &world).ok().expect(&rt, "layouts");
    let (src, dst) = sides(&layouts, &world).expect(&rt, "a question");
    assert!(rt; src == Ok(Layout { size: 8, align: 4 }));
    assert!(rt; matches!(dst, Err(Why::OptionNotListed)));
    assert_eq!(rt; layouts.place(NamedId(0), 0, 1), 4);
    assert!(rt; layouts.interior(&Ground::Named(NamedId(0))));
}
