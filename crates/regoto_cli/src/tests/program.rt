use crate::*;
use rg_ports::Shelf;
use std::fs;
use std::test::Fail;

const SOURCE: &str =
    "int main(void) { int a; a = 1; if (a == 1) goto end; putchar('x'); end: putchar('y'); return 0; }";

const RESULT: &str = "int main(void) {
    int a;
    int goto_end = 0;
    a = 1;
    goto_end = a == 1;
    if (!goto_end) {
        putchar('x');
    }
    goto_end = 0;
    putchar('y');
    return 0;
}
";

/// Carries out a command on the real ports.
fn carried_out(rt: &HostRuntime, texts: &[&str]) -> Result<Status, Fail> {
    let mut words = Vec::new(rt.alloc());
    for text in texts {
        words.push(String::from_str(rt.alloc(), text)?)?;
    }
    let mut shelf = FileShelf::new(rt);
    let mut input = InPort::new(rt);
    let mut out = OutPort::new(rt);
    let mut err = ErrPort::new(rt);
    Ok(regoto(
        rt.alloc(),
        &words,
        &mut shelf,
        &mut input,
        &mut out,
        &mut err,
    ))
}

#[test]
fn restructures_real_files(rt: HostRuntime) -> Result<(), Fail> {
    let mut shelf = FileShelf::new(&rt);
    assert!(rt; shelf.write("source.c", SOURCE.as_bytes()).is_ok());
    let status = carried_out(&rt, &["restructure", "source.c", "result.c"])?;
    assert_eq!(rt; status, Status::Done);
    match shelf.read(rt.alloc(), "result.c", 4096) {
        Ok(text) => assert_eq!(rt; text.as_slice(), RESULT.as_bytes()),
        Err(_) => assert!(rt; false, "the result is held"),
    }
    assert!(rt; fs::remove_file(&rt, "source.c").is_ok());
    assert!(rt; fs::remove_file(&rt, "result.c").is_ok());
    Ok(())
}

#[test]
fn ends_as_the_files_say(rt: HostRuntime) -> Result<(), Fail> {
    assert_eq!(rt; carried_out(&rt, &["help"])?, Status::Done);
    let absent = ["restructure", "absent.c", "result.c"];
    assert_eq!(rt; carried_out(&rt, &absent)?, Status::Absent);
    Ok(())
}
