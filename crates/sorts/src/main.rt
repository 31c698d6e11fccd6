// Reads a text from standard input and writes its output to standard output.
#![tactic(auto)]

fn main(rt: HostRuntime) {
    out_write::answer(
        &mut rt.stdin(),
        rt.stdout(),
        rt.stderr(),
        b"sorts: standard input",
        b"sorts: standard output",
    );
}
