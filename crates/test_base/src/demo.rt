//! The demo text, beside what its rule says.
use c_types::Memory;
use demo_gen::make;
use std::alloc::Global;

static OF_ONE: &str = "unsigned f0(unsigned n) {
    unsigned s = 1;
    unsigned i = 0;
again:
    if (i >= n) goto done;
    if (s % 2 == 0) goto even;
    while (s < 50) {
        s = s * 3 + 1;
even:
        s = s / 2 + 7;
    }
    s = s + i;
    i = i + 1;
    goto again;
done:
    return s;
}
int main(void) {
    unsigned t = 0;
    t = t + f0(3);
    printf(\"%u\\n\", t);
    return 0;
}
";

fn makes_one(alloc: Global) -> Result<bool, Memory> {
    let text = make(alloc, 1)?;
    let same = text.as_slice() == OF_ONE.as_bytes();
    drop(text);
    Ok(same)
}

fn length_of(alloc: Global, count: u32) -> Result<usize, Memory> {
    let text = make(alloc, count)?;
    let length = text.len();
    drop(text);
    Ok(length)
}

#[test]
fn makes_a_demo_text(rt: HostRuntime) {
    assert!(rt; makes_one(rt.alloc()) == Ok(true));
    assert!(rt; length_of(rt.alloc(), 2000) == Ok(605667));
}
