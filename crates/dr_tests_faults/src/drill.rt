//! The script of a drill.
use dr_drill::make;
use std::test::Fail;

/// What the generator gives from 7 on was computed elsewhere.
#[test]
fn the_drill_of_7(rt: HostRuntime) -> Result<(), Fail> {
    let script = make(rt.alloc(), 7)?;
    assert_eq!(rt; script.messages.as_slice().len(), 5);
    for list in script.messages.as_slice() {
        assert_eq!(rt; list.as_slice().len(), 400);
    }
    let [one, .., other] = script.messages.as_slice() else {
        return Err(Fail::from("there are no two members"));
    };
    let ([first, ..], [.., last]) = (one.as_slice(), other.as_slice()) else {
        return Err(Fail::from("there are no messages"));
    };
    assert_eq!(rt;
        first.bytes(),
        b"cfxhtzgifylpwerkdvirklqsfigrjayh".as_slice()
    );
    assert_eq!(rt;
        last.bytes(),
        b"duoaggvqkkyriicpioxteugfkwcozdgp".as_slice()
    );
    Ok(())
}
