use blk_base::{Names1, Text};
use std::test::Fail;

#[test]
fn texts_grow(rt: HostRuntime) -> Result<(), Fail> {
    let mut text = Text::with_room(rt.alloc(), 64)?;
    assert!(rt; text.is_empty());
    text.push_str("dev");
    text.push_ascii(b'\n');
    assert!(rt; text.as_str() == "dev\n");
    assert!(rt; text.len() == 4);
    text.clear();
    assert!(rt; text.as_str() == "");
    assert!(rt; text.spare() >= 64);
    Ok(())
}

#[test]
fn names_by_place(rt: HostRuntime) -> Result<(), Fail> {
    let mut names = Vec::new(rt.alloc());
    for name in ["a", "", "b2"] {
        names.push(Text::copied(rt.alloc(), name)?)?;
    }
    let names = Names1::from_vec(names);
    assert!(rt; names.len() == 3);
    assert!(rt; (names.name_at(0), names.name_at(1), names.name_at(2)) == ("a", "", "b2"));
    Ok(())
}
