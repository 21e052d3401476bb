// The program: a model file on standard input, its printed sheet on standard output.
#![tactic(auto)]

// A line on standard error. That it cannot be written is not told anywhere. The program `practice` has its own: it is one line.
fn say(rt: HostRuntime, line: &str) {
    let _ = eprintln!(rt; "calculator: {line}");
}

// Prints the sheet of the first `count` bytes of the buffer.
fn print_sheet(rt: HostRuntime, buffer: &[u8; report::LIMIT], count: usize) {
    let mut out = [0u8; report::ROOM];
    let length = report::report(buffer, count, &mut out);
    if rt.stdout().write_all(&out[..length]).is_err() {
        say(rt, "the sheet cannot be written whole");
    }
}

fn main(rt: HostRuntime) {
    let mut buffer = [0u8; report::LIMIT];
    match input::fill(&mut rt.stdin(), &mut buffer) {
        (count, Ok(())) => print_sheet(rt, &buffer, count),
        (_, Err(_)) => say(rt, "the input cannot be read"),
    }
}
