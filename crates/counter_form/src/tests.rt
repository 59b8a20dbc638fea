use crate::{FormFault, read_app, read_script};
use std::test::Fail;
use view_engine::Event;

// Spaces before the lines, and no LF behind the last.
const APP: &[u8] =
    b"@main struct A: App { var body: some Scene { WindowGroup { Main() } } }\n  struct Main: View {\n    @State private var n = 007\nvar body: some View { VStack { Text(\"a{\\(n)\"); Button(\"\") { n += 12 } } }\n }";

#[test]
fn reads_a_program(rt: HostRuntime) -> Result<(), Fail> {
    let form = read_app(rt.alloc(), APP)?;
    assert_eq!(rt; form.init, 7);
    assert_eq!(rt; form.step, 12);
    assert_eq!(rt; form.prefix.as_slice(), b"a{".as_slice());
    assert_eq!(rt; form.label.len(), 0);
    Ok(())
}

#[test]
fn reads_a_script(rt: HostRuntime) -> Result<(), Fail> {
    let alloc = rt.alloc();
    let events = read_script(alloc, b"tap 40 12\ntap 0 0099\n")?;
    let wanted = [Event::Tap { x: 40, y: 12 }, Event::Tap { x: 0, y: 99 }];
    assert_eq!(rt; events.as_slice(), wanted.as_slice());
    assert_eq!(rt; read_script(alloc, b"")?.len(), 0);
    for text in [
        b"tap 40 12".as_slice(),
        b"tap 4 1\n\n",
        b"tap  4 1\n",
        b"tap 00001 1\n",
        b"tap -1 1\n",
        b"tap \xc3 1\n",
    ] {
        assert_eq!(rt;
            read_script(alloc, text).err(),
            Some(FormFault::NotInThisForm)
        );
    }
    Ok(())
}
