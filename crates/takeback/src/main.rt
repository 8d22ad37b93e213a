// Take-back on the files of the current folder, with its report on standard output (document 01, "The program's day").
#![tactic(auto)]

fn main(rt: HostRuntime) {
    files::print_report(&rt, b".");
}
