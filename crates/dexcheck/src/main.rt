// Document 01's program: checks standard input, or each file that is named, and writes the report.
#![tactic(auto)]

fn main(rt: HostRuntime) {
    checking::run(&rt);
}
