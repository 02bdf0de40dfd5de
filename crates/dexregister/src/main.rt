// The register of standard input, or of each file that is named.
#![tactic(auto)]

fn main(rt: HostRuntime) {
    registering::run(&rt);
}
