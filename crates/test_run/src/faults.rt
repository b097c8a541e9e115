use crate::running::{Case, first_wrong};
use step_interp::RunAnswer;

static FAULTS: [Case<'static>; 3] = [
    Case {
        entry: "main",
        arguments: &[],
        text: b"int main(void) { int c; while (1) { c = getchar(); if (c == -1) goto end; if (c == 'q') goto end; putchar(c); } end: return 0; }",
        input: b"abq",
        budget: 100000,
        answer: RunAnswer::ReadFault,
        output: b"a",
        left: b"bq",
        failing_reads: &[1],
        failing_writes: &[],
    },
    Case {
        entry: "main",
        arguments: &[],
        text: b"int main(void) { int i = 0; loop: if (i >= 3) goto done; putchar('a' + i); i++; goto loop; done: return 0; }",
        input: b"x",
        budget: 100000,
        answer: RunAnswer::WriteFault,
        output: b"ab",
        left: b"x",
        failing_reads: &[],
        failing_writes: &[2, 3],
    },
    Case {
        entry: "main",
        arguments: &[],
        text: b"int main(void) { printf(\"%d\", 12); return getchar(); }",
        input: b"x",
        budget: 100000,
        answer: RunAnswer::WriteFault,
        output: b"",
        left: b"x",
        failing_reads: &[0],
        failing_writes: &[0],
    },
];

#[test]
fn faults(rt: HostRuntime) {
    assert_eq!(rt; first_wrong(rt.alloc(), &FAULTS), 3);
}
